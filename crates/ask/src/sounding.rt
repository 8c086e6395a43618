// The keys that sound, and the messages from them to those of a record, in hexadecimal.
use crate::answer::{put_answer, put_next};
use chord::Chord;
use keys::Keys;
use midi::Refusal;
use output::Output;

// Appends a byte of a message behind a space: two digits, in capitals.
fn put_pair(out: &mut Output, byte: u8) {
    let mut digits = [0u8; 16];
    let n = io::hex(u64::from(byte), 2, &mut digits);
    out.put(b' ');
    for digit in &digits[..n] {
        out.put(digit.to_ascii_uppercase());
    }
}

// Appends 0, the length of the messages, and the messages, which the bytes begin with.
fn put_messages(out: &mut Output, bytes: &[u8], n: usize) {
    put_answer(out, 0);
    put_next(out, n as u64);
    for byte in bytes.iter().take(n) {
        put_pair(out, *byte);
    }
}

// Goes from the keys that sound to those of a record over a base key, with lent bytes for the messages, and appends the answer.
pub(crate) fn put_change(
    out: &mut Output,
    keys: &mut Keys,
    base: u8,
    record: Option<Chord>,
    bytes: &mut [u8],
) {
    let sent = match record {
        Some(chord) => midi::next(keys, base, chord, bytes),
        None => Err(Refusal::NoText),
    };
    match sent {
        Ok(n) => put_messages(out, bytes, n),
        Err(refusal) => put_answer(out, u8::from(refusal)),
    }
}
