// UTF-8 by RFC 3629: one character at a position, and whether a whole text is well formed.
#![tactic(auto)]

ghost use Rattle.std.specs.Prelude.{◌≡◌, ◌<◌, ◌≤◌, length, get_or};
ghost use Rattle.utf8.specs.State.{More, character, found_of};
ghost use Rattle.utf8.specs.Utf8.{is_scalar, char_of, char_at, well_formed};

// What stands at a position: a character with its code and its length in bytes, bytes that begin no character, or nothing. Three cases, so
// no Option.
#[derive(Clone, Copy)]
pub enum Found {
    Char(u32, usize),
    Bad,
    End,
}

// The bits c with the six of a continuation byte, 10xxxxxx, at i behind them, if there is one.
fn more(s: &[u8], i: usize, c: u32) -> Option<u32>
    requires { c < 65536 }
    ensures { More s.now i c result }
{
    match s.get(i) {
        Some(b @ 128..=191) => Some(c * 64 + u32::from(*b) - 128),
        _ => None,
    }
}

#[tactic(auto, unfolding(crate::specs::Utf8::is_scalar))]
fn is_scalar(c: u32) -> bool
    ensures { result ≡ is_scalar c }
{
    matches!(c, 0..=0xD7FF | 0xE000..=0x10FFFF)
}

// The character c of n bytes, if it is one and needs so many: it is at least low.
fn character(c: u32, low: u32, n: usize) -> Option<(u32, usize)>
    ensures { result ≡ character c low n }
{
    if low <= c && is_scalar(c) {
        return Some((c, n));
    }
    None
}

// The character of several bytes that s begins with, and how many: 110xxxxx 10xxxxxx, from 80 hexadecimal on; 1110xxxx and two more, from
// 800; 11110xxx and three more, from 10000. Its first byte is a.
fn several_bytes(s: &[u8], a: u32) -> Option<(u32, usize)>
    requires { (0 < length s.now) × (a ≡ get_or s.now 0 0) × (128 ≤ a) }
    ensures { found_of result ≡ char_of s.now }
{
    match a {
        192..=223 => character(more(s, 1, a - 192)?, 128, 2),
        224..=239 => character(more(s, 2, more(s, 1, a - 224)?)?, 2048, 3),
        240..=247 => character(more(s, 3, more(s, 2, more(s, 1, a - 240)?)?)?, 65536, 4),
        _ => None,
    }
}

// The character at a position of a text. A position beyond the text has none.
#[inline]
pub fn char_at(text: &[u8], at: usize) -> Found
    ensures { result ≡ char_at text.now at }
{
    if text.len() <= at {
        return Found::End;
    }
    let a = u32::from(text[at]);
    if a < 128 {
        return Found::Char(a, 1);
    }
    match several_bytes(&text[at..], a) {
        Some((c, n)) => Found::Char(c, n),
        None => Found::Bad,
    }
}

// Is the text a run of characters?
pub fn well_formed(text: &[u8]) -> bool
    ensures { result ≡ well_formed text.now }
{
    let mut at = 0;
    // A step is as long as the character.
    while let Found::Char(_, n) = char_at(text, at) {
        at += n;
    }
    at == text.len()
}
