// Runs `utf8` over vectors of public documents. A line of standard input that begins with `#` is a comment and is copied. Any other holds
// bytes in hexadecimal; its answer is `well` or `ill`, the code of each character or `-` for a byte that begins none, and `end`.
#![tactic(auto)]

ghost use Rattle.std.specs.Prelude.{◌+◌, ◌<◌, ◌≤◌, length};

use lines::Lines;
use output::Output;
use std::io::Error;
use utf8::Found;

// The value of a hexadecimal digit; any other byte counts as 0.
fn digit(b: u8) -> u8
    ensures { result < 16 }
{
    match b {
        b'0'..=b'9' => b - b'0',
        b'A'..=b'F' => b - b'A' + 10,
        _ => 0,
    }
}

// Puts the bytes that a line names: two digits for each, and a space between two bytes.
fn put_octets(bytes: &mut Output, line: &[u8]) {
    for octet in line.chunks(3) {
        if let [high, low, ..] = octet {
            bytes.put(digit(*high) * 16 + digit(*low));
        }
    }
}

// Appends a code in hexadecimal, with at least four digits, in upper case.
fn put_code(out: &mut Output, code: u32) {
    let mut digits = [0u8; 16];
    let n = io::hex(code as u64, 4, &mut digits);
    out.put(b' ');
    for digit in &digits[..n] {
        out.put(digit.to_ascii_uppercase());
    }
}

// Appends what stands at a position, and answers the position after it.
fn put_char(out: &mut Output, bytes: &[u8], at: usize) -> usize
    requires { at < length bytes.now }
    ensures { (at < result) × (result ≤ length bytes.now) }
{
    match utf8::char_at(bytes, at) {
        Found::Char(code, n) => {
            put_code(out, code);
            return at + n;
        }
        Found::Bad => out.put_bytes(b" -"),
        Found::End => out.put_bytes(b" early-end"),
    }
    at + 1
}

// Appends what stands in the bytes, from position 0 on.
fn put_chars(out: &mut Output, bytes: &[u8]) {
    let mut at = 0;
    // A `while`: a turn goes on by a character.
    while at < bytes.len() {
        at = put_char(out, bytes, at);
    }
}

// Does nothing stand at a position?
fn is_end(bytes: &[u8], at: usize) -> bool {
    matches!(utf8::char_at(bytes, at), Found::End)
}

// Appends whether bytes are well formed, what stands in them, and `end` where nothing stands at their end and far beyond it.
fn put_answer(out: &mut Output, bytes: &[u8]) {
    out.put_bytes(if utf8::well_formed(bytes) {
        b"well"
    } else {
        b"ill"
    });
    put_chars(out, bytes);
    let ends = is_end(bytes, bytes.len()) && is_end(bytes, bytes.len() + 1000);
    out.put_bytes(if ends { b" end" } else { b" no-end" });
}

// Copies a comment, and answers any other line.
fn put_line(out: &mut Output, line: &[u8]) {
    if line.starts_with(b"#") {
        return out.put_bytes(line);
    }
    let mut octets = [0u8; 64];
    let mut bytes = Output::new(&mut octets);
    put_octets(&mut bytes, line);
    put_answer(out, bytes.waiting());
}

fn main(rt: HostRuntime) -> Result<(), Error> {
    let mut waiting = [0u8; 65536];
    let mut line = [0u8; 4096];
    let mut block = [0u8; 4096];
    Lines::new(&mut block, &mut line).answer_all(
        &mut rt.stdin(),
        &mut rt.stdout(),
        &mut Output::new(&mut waiting),
        |_, out, _, text| {
            put_line(out, text);
            out.put(b'\n');
            Ok(())
        },
    )
}
