// The 128 keys as 16 bytes: key k is bit k % 8 of byte k / 8.
ghost use Rattle.std.specs.Prelude.{◌≡◌, ℕ, ◌+◌, ◌*◌, ◌/◌, ◌%◌, ◌<◌, ◌≤◌, get_or, length};
ghost use Rattle.intervals.specs.Stored.{bit};
ghost use Rattle.keys.specs.Stored.{byte_of, keys_in, members};

use crate::Keys;
use std::array;

// The number of the eight bytes at a place, the lowest first.
fn word_in(bytes: &[u8], from: usize) -> u64
    requires { (from ≤ 8) × (from + 8 ≤ length bytes.now) }
    ensures { (j : ℕ) → j < 64 → bit result j ≡ bit (get_or bytes.now (from + j / 8) 0) (j % 8) }
{
    u64::from_le_bytes(array::from_fn(|i| bytes[from + i]))
}

// The set that the bytes hold.
pub fn keys_in(bytes: &[u8]) -> Keys
    requires { length bytes.now ≡ 16 }
    ensures { members result ≡ keys_in bytes.now }
{
    Keys {
        low: word_in(bytes, 0),
        high: word_in(bytes, 8),
    }
}

// The i-th byte of a set.
pub fn byte_of(keys: Keys, i: usize) -> u8
    requires { i < 16 }
    ensures { result ≡ byte_of (members keys) i }
{
    if i < 8 {
        keys.low.to_le_bytes()[i]
    } else {
        keys.high.to_le_bytes()[i - 8]
    }
}
