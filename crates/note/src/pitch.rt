// Pitch classes: the twelve semitones from C up, going round.
ghost use Rattle.std.specs.Prelude.{◌≡◌, ◌<◌};
ghost use Rattle.note.specs.Note.{letter_class, modifier_class};

use crate::{NoteLiteral, RootModifier};

// The semitones from C up to a letter.
pub(crate) fn letter_class(letter: NoteLiteral) -> u8
    ensures { (result ≡ letter_class letter) × (result < 12) }
{
    match letter {
        NoteLiteral::C => 0,
        NoteLiteral::D => 2,
        NoteLiteral::E => 4,
        NoteLiteral::F => 5,
        NoteLiteral::G => 7,
        NoteLiteral::A => 9,
        NoteLiteral::B => 11,
    }
}

// What a modifier adds, going round: eleven up is one down.
pub(crate) fn modifier_class(modifier: RootModifier) -> u8
    ensures { (result ≡ modifier_class modifier) × (result < 12) }
{
    match modifier {
        RootModifier::Natural => 0,
        RootModifier::Sharp => 1,
        RootModifier::Flat => 11,
    }
}
