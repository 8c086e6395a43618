// Writing a record: the two questions, in the paper's order, and its house spelling.
#![tactic(auto)]

ghost use Rattle.std.specs.Prelude.{true, ◌↔◌, ◌≡◌, ◌≤◌, length};
ghost use Rattle.chord.specs.Chord.{four_of};
ghost use Rattle.house_text.specs.Spelling.{house};
ghost use Rattle.writer.specs.State.{Put, Written};
ghost use Rattle.writer.specs.Writer.{HasText, number};

use chord::Chord;
use house_parts::question::is_realizable;
use note::Note;
use spelling::put_spelling;

pub mod buffer;
mod spelling;

// Why a record is not written.
#[derive(Clone, Copy, PartialEq, Eq)]
pub enum Refusal {
    ShortBuffer,
    NoText,
}

// The paper's number.
impl From<Refusal> for u8 {
    ghost from_gives = { λ e n. n ≡ number e };

    fn from(refusal: Refusal) -> u8 {
        match refusal {
            Refusal::ShortBuffer => 6,
            Refusal::NoText => 7,
        }
    }
}

// Has some accepted text exactly the record's four?
pub fn has_text(chord: Chord) -> bool
    ensures { (result ≡ true) ↔ HasText (four_of chord) }
{
    is_realizable(chord)
}

// Writes the house spelling of a record; without a root it is empty.
fn spell(chord: Chord, buffer: &mut [u8]) -> usize
    requires { 112 ≤ length buffer.old }
    ensures { Put 0 result (house (four_of chord)) buffer.old buffer.new }
{
    match chord.root {
        None => 0,
        Some(root) => put_spelling(buffer, root, chord),
    }
}

// Writes any record, with any lent buffer. The spelling fills its own bytes, from the first on, and its length is returned; all else in the
// buffer is untouched, and all of it after a refusal.
pub fn write(chord: Chord, buffer: &mut [u8]) -> Result<usize, Refusal>
    ensures { Written chord buffer.old buffer.new result }
{
    if buffer.len() < 112 {
        return Err(Refusal::ShortBuffer);
    }
    if !has_text(chord) {
        return Err(Refusal::NoText);
    }
    Ok(spell(chord, buffer))
}
