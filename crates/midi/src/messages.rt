// Messages in bytes.
ghost use Rattle.std.specs.Prelude.{[], ◌∷◌, ◌≡◌, ◌+◌, ◌*◌, ◌≤◌, length};
ghost use Rattle.keys.specs.Keys.{ascending};
ghost use Rattle.keys.specs.Stored.{members, places};
ghost use Rattle.midi.specs.Midi.{between, messages};
ghost use Rattle.writer.specs.State.{Grew};

use keys::Keys;
use writer::buffer::Buffer;

// By MIDI 1.0, the first byte of a key on and of a key off, on the first channel, and the last.
pub const ON: u8 = 0x90;

pub const OFF: u8 = 0x80;

pub const ON_VELOCITY: u8 = 64;

pub const OFF_VELOCITY: u8 = 0;

// What a message tells its key, on or off: its first byte and its last.
#[derive(Clone, Copy)]
struct Touch {
    status: u8,
    velocity: u8,
}

// Writes a message.
fn put_message(out: &mut Buffer, touch: Touch, key: u8)
    requires { out.old.len + 3 ≤ length out.old.bytes.now }
    ensures { Grew out.old out.new (touch.status ∷ key ∷ touch.velocity ∷ []) }
{
    out.put(&[touch.status, key, touch.velocity]);
}

// Writes a message for each digit of a number that is a 1, the lowest first; `from` is the key of the lowest digit.
fn put_word(out: &mut Buffer, touch: Touch, from: u8, bits: u64)
    requires { (from ≤ 64) × (out.old.len + 3 * length (places 64 from bits) ≤ length out.old.bytes.now) }
    ensures { Grew out.old out.new (messages touch.status touch.velocity (places 64 from bits)) }
{
    // Each turn takes the lowest digit, so there is no index.
    let mut left = bits;
    while left != 0 {
        let t = left.trailing_zeros();
        put_message(out, touch, from + (t as u8));
        left -= 1 << t;
    }
}

// Writes a message for each key of a set, in ascending order.
fn put_keys(out: &mut Buffer, touch: Touch, keys: Keys)
    requires { out.old.len + 3 * length (ascending (members keys)) ≤ length out.old.bytes.now }
    ensures { Grew out.old out.new (messages touch.status touch.velocity (ascending (members keys))) }
{
    put_word(out, touch, 0, keys.low);
    put_word(out, touch, 64, keys.high);
}

// The length of the messages from one set of keys to another: three bytes for each key that only one of them has.
pub fn length_between(old: Keys, new: Keys) -> usize
    ensures { result ≡ length (between (members old) (members new)) }
{
    3 * (old.without(new).count() + new.without(old).count())
}

// Writes the messages from one set of keys to another: those that are no longer wanted go off, and then the new ones come on.
pub fn put_between(out: &mut Buffer, old: Keys, new: Keys)
    requires { out.old.len + length (between (members old) (members new)) ≤ length out.old.bytes.now }
    ensures { Grew out.old out.new (between (members old) (members new)) }
{
    let off = Touch {
        status: OFF,
        velocity: OFF_VELOCITY,
    };
    let on = Touch {
        status: ON,
        velocity: ON_VELOCITY,
    };
    put_keys(out, off, old.without(new));
    put_keys(out, on, new.without(old));
}
