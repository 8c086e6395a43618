// Sets of the 128 keys of MIDI, and the keys that a chord wants.
#![tactic(auto)]

ghost use Rattle.std.specs.Prelude.{◌≡◌, ℕ, ◌≤◌, ◌<◌, length};
ghost use Rattle.intervals.specs.Interval.{empty, insert};
ghost use Rattle.keys.specs.Keys.{ascending, minus};
ghost use Rattle.keys.specs.Stored.{members, places};

pub mod bytes;
pub mod wanted;

// Which of the 128 keys are members: the binary digits of two numbers, the lowest first. Both are public, and `members` and the 16 bytes
// of C (`bytes`) are read from them.
#[derive(Clone, Copy)]
pub struct Keys {
    pub low: u64,
    pub high: u64,
}

// How many of the digits of a number are a 1.
fn count_digits(bits: u64) -> usize
    ensures { ((k : ℕ) → result ≡ length (places 64 k bits)) × (result ≤ 64) }
{
    bits.count_ones() as usize
}

impl Keys {
    // The set without members: silence.
    pub fn new() -> Keys
        ensures { members result ≡ empty }
    {
        Keys { low: 0, high: 0 }
    }

    pub fn insert(self, key: u8) -> Keys
        requires { key < 128 }
        ensures { members result ≡ insert (members self) key }
    {
        if key < 64 {
            Keys {
                low: self.low | (1 << key),
                ..self
            }
        } else {
            Keys {
                high: self.high | (1 << (key - 64)),
                ..self
            }
        }
    }

    // The members that the other set has not.
    pub fn without(self, other: Keys) -> Keys
        ensures { members result ≡ minus (members self) (members other) }
    {
        Keys {
            low: self.low ^ (self.low & other.low),
            high: self.high ^ (self.high & other.high),
        }
    }

    // How many members the set has.
    pub fn count(self) -> usize
        ensures { (result ≡ length (ascending (members self))) × (result ≤ 128) }
    {
        count_digits(self.low) + count_digits(self.high)
    }
}
