// The 23 intervals as numbers, their semitones, and sets of intervals.
#![tactic(auto)]

ghost use Rattle.std.specs.Prelude.{◌↔◌, ◌≡◌, nat_eq, true, [], ◌∷◌, ◌++◌, ◌<◌, ◌≤◌, length};
ghost use Rattle.std.specs.Cmp.{on_equiv, on_per, partial_equiv_from_equiv};
ghost use Rattle.std.specs.Cmp.Lexicographic.{nat_list_eq_equiv, pointwise};
ghost use Rattle.intervals.specs.Interval.{semitones, empty, insert, remove, replace, remove_then_add};
ghost use Rattle.intervals.specs.Stored.{members, within, listed, list_of};

// Numbers and no enum: `writer::write` is handed any record, whose display list may have numbers that are no interval, and refuses it then.
// So a function below that asks for an interval says `interval < 23`, and not a type of its argument.
pub const UNISON: u8 = 0;

pub const MINOR_SECOND: u8 = 1;

pub const MAJOR_SECOND: u8 = 2;

pub const MINOR_THIRD: u8 = 3;

pub const MAJOR_THIRD: u8 = 4;

pub const PERFECT_FOURTH: u8 = 5;

pub const AUGMENTED_FOURTH: u8 = 6;

pub const DIMINISHED_FIFTH: u8 = 7;

pub const PERFECT_FIFTH: u8 = 8;

pub const AUGMENTED_FIFTH: u8 = 9;

pub const MINOR_SIXTH: u8 = 10;

pub const MAJOR_SIXTH: u8 = 11;

pub const DIMINISHED_SEVENTH: u8 = 12;

pub const MINOR_SEVENTH: u8 = 13;

pub const MAJOR_SEVENTH: u8 = 14;

pub const OCTAVE: u8 = 15;

pub const FLAT_NINTH: u8 = 16;

pub const NINTH: u8 = 17;

pub const SHARP_NINTH: u8 = 18;

pub const ELEVENTH: u8 = 19;

pub const SHARP_ELEVENTH: u8 = 20;

pub const FLAT_THIRTEENTH: u8 = 21;

pub const THIRTEENTH: u8 = 22;

// The semitones of each interval, by its number.
pub const SEMITONES: [u8; 23] = [
    0, 1, 2, 3, 4, 5, 6, 6, 7, 8, 8, 9, 9, 10, 11, 12, 13, 14, 15, 17, 18, 20, 21,
];

// The semitones of an interval.
pub fn st(interval: u8) -> u8
    requires { interval < 23 }
    ensures { result ≡ semitones interval }
{
    SEMITONES[interval as usize]
}

// The semitones of an interval; 0 of a number that is none, as the definition has it.
pub fn semitones_or_zero(interval: u8) -> u8
    ensures { (result ≡ semitones interval) × (result < 23) }
{
    if interval < 23 { st(interval) } else { 0 }
}

// Which of the 23 intervals are members: the binary digits of a number, the lowest first. A digit from 23 on is a member outside the table.
#[derive(Clone, Copy, PartialEq, Eq)]
pub struct IntervalSet {
    pub bits: u32,
}

impl IntervalSet {
    // The set without members: with none of the 32 digits a 1 it is `set_of empty` (`set-whole`).
    pub fn new() -> IntervalSet
        ensures { members result ≡ empty }
    {
        IntervalSet { bits: 0 }
    }

    pub fn contains(self, interval: u8) -> bool
        requires { interval < 23 }
        ensures { result ≡ members self interval }
    {
        (self.bits >> interval) % 2 == 1
    }

    pub fn insert(self, interval: u8) -> IntervalSet
        requires { interval < 23 }
        ensures { members result ≡ insert (members self) interval }
    {
        IntervalSet {
            bits: self.bits | (1 << interval),
        }
    }

    pub fn remove(self, interval: u8) -> IntervalSet
        requires { interval < 23 }
        ensures { members result ≡ remove (members self) interval }
    {
        IntervalSet {
            bits: self.bits ^ (self.bits & (1 << interval)),
        }
    }

    // Removes one interval and inserts another, whether or not the first was a member.
    pub fn remove_then_add(self, out: u8, new: u8) -> IntervalSet
        requires { (out < 23) × (new < 23) }
        ensures { members result ≡ remove_then_add (members self) out new }
    {
        self.remove(out).insert(new)
    }

    // The set with `dest` in the place of `target`; without `target` the set as it is.
    pub fn replace(self, target: u8, dest: u8) -> IntervalSet
        requires { (target < 23) × (dest < 23) }
        ensures { members result ≡ replace (members self) target dest }
    {
        if self.contains(target) {
            return self.remove(target).insert(dest);
        }
        self
    }

    // Are all members in the table of 23?
    pub fn is_within(self) -> bool
        ensures { result ≡ within (members self) }
    {
        self.bits < 0x80_0000
    }
}

// A list of at most 23 interval numbers: the first `len` of `numbers`, all of them where `len` is larger. Any numbers may stand in it.
#[derive(Clone, Copy)]
pub struct IntervalList {
    pub numbers: [u8; 23],
    pub len: usize,
}

impl IntervalList {
    // The list without numbers.
    pub fn new() -> IntervalList
        ensures { (result ≡ list_of []) × (listed result ≡ []) }
    {
        IntervalList {
            numbers: [0; 23],
            len: 0,
        }
    }

    // How many numbers the list has.
    pub fn count(self) -> usize
        ensures { (result ≡ length (listed self)) × (result ≤ 23) }
    {
        self.len.min(23)
    }

    // The numbers of the list.
    pub fn as_slice(&self) -> &[u8]
        ensures { result.now ≡ listed self.now }
    {
        &self.numbers[..self.count()]
    }

    // Adds a number behind those of the list. Where zeros are behind the old numbers, zeros are behind the new.
    pub fn push(&mut self, number: u8)
        requires { length (listed self.old) < 23 }
        ensures added { listed self.new ≡ listed self.old ++ number ∷ [] }
        ensures whole { self.old ≡ list_of (listed self.old) → self.new ≡ list_of (listed self.new) }
    {
        self.numbers[self.len] = number;
        self.len += 1;
    }

    // Have the two lists the same numbers in the same order?
    pub fn same(self, other: IntervalList) -> bool
        ensures { (result ≡ true) ↔ (listed self ≡ listed other) }
    {
        self == other
    }
}

// Equal are lists of the same numbers in the same order. What lies behind the numbers is none of it, so that no derive says this.
impl PartialEq for IntervalList {
    ghost eq = { λ l m. pointwise nat_eq (listed l) (listed m) };

    ghost laws = { on_per listed (partial_equiv_from_equiv nat_list_eq_equiv) };

    fn eq(&self, other: &IntervalList) -> bool {
        self.as_slice() == other.as_slice()
    }
}

impl Eq for IntervalList {
    ghost laws = { on_equiv listed nat_list_eq_equiv };
}
