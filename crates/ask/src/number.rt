// The words of a question, one space before each: its first word, decimal numbers, and the bytes behind them.
ghost use Rattle.std.specs.Prelude.{◌<◌, IfSome};

use crate::fault::Fault;

// The value of a digit.
fn digit(byte: u8) -> Option<u64>
    ensures { IfSome result (λ d. d < 10) }
{
    match byte {
        b'0'..=b'9' => Some(u64::from(byte - b'0')),
        _ => None,
    }
}

// The number with one more digit.
fn with_digit(n: u64, digit: u64) -> Option<u64> {
    n.checked_mul(10)?.checked_add(digit)
}

// The number that a word is in decimal. A word with a byte that is no digit is none, however long it is.
fn number_of(word: &[u8]) -> Result<u64, Fault> {
    if word.is_empty() {
        return Err(Fault::NoNumber);
    }
    let mut n = Some(0);
    for byte in word {
        let d = digit(*byte).ok_or(Fault::NoNumber)?;
        n = n.and_then(|n| with_digit(n, d));
    }
    n.ok_or(Fault::LargeNumber)
}

// What is not taken yet of a question's line. A word is taken also where it is refused as a number.
#[derive(Clone, Copy)]
pub(crate) struct Words<'a> {
    left: &'a [u8],
}

impl<'a> Words<'a> {
    pub(crate) fn new(line: &'a [u8]) -> Words<'a> {
        Words { left: line }
    }

    // Takes the bytes up to the next space or the end.
    pub(crate) fn word(&mut self) -> &'a [u8] {
        let left = self.left;
        let n = left
            .iter()
            .position(|byte| *byte == b' ')
            .unwrap_or(left.len());
        let (word, behind) = left.split_at(n);
        self.left = behind;
        word
    }

    // Takes the word behind the next space; at the end it is empty.
    fn next(&mut self) -> &'a [u8] {
        self.left = self.rest();
        self.word()
    }

    // Takes the next number.
    pub(crate) fn number(&mut self) -> Result<u64, Fault> {
        number_of(self.next())
    }

    // Takes the next number; one that is too large is the largest.
    pub(crate) fn number_or_largest(&mut self) -> Result<u64, Fault> {
        match self.number() {
            Err(Fault::LargeNumber) => Ok(u64::MAX),
            number => number,
        }
    }

    // Takes the next number, or -1, for which None stands.
    pub(crate) fn signed(&mut self) -> Result<Option<u64>, Fault> {
        match self.next() {
            b"-1" => Ok(None),
            word => Ok(Some(number_of(word)?)),
        }
    }

    // All that stands behind the next space.
    pub(crate) fn rest(self) -> &'a [u8] {
        match self.left {
            [b' ', behind @ ..] => behind,
            _ => &[],
        }
    }

    // All that stands behind the next space and a `=`, if one stands there.
    pub(crate) fn text(self) -> Option<&'a [u8]> {
        match self.rest() {
            [b'=', text @ ..] => Some(text),
            _ => None,
        }
    }

    // Nothing may be left.
    pub(crate) fn end(self) -> Result<(), Fault> {
        if self.left.is_empty() {
            Ok(())
        } else {
            Err(Fault::MoreThanRecord)
        }
    }
}
