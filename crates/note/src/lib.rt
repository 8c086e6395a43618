// Notes: letter and modifier, their numbers and their pitch classes.
#![tactic(auto)]

ghost use Rattle.std.specs.Prelude.{◌≡◌, ◌<◌};
ghost use Rattle.note.specs.Note.{letter_number, letter_of, alteration_of, member_class, modifier_number, modifier_of, note_number, note_of, pitch_class};

use intervals::st;

mod pitch;

use pitch::{letter_class, modifier_class};

#[derive(Clone, Copy, PartialEq, Eq)]
pub enum NoteLiteral {
    C,
    D,
    E,
    F,
    G,
    A,
    B,
}

#[derive(Clone, Copy, PartialEq, Eq)]
pub enum RootModifier {
    Natural,
    Sharp,
    Flat,
}

#[derive(Clone, Copy, PartialEq, Eq)]
pub struct Note {
    pub literal: NoteLiteral,
    pub modifier: RootModifier,
}

// C 0 to B 6.
impl From<NoteLiteral> for u8 {
    ghost from_gives = { λ letter number. number ≡ letter_number letter };

    fn from(letter: NoteLiteral) -> u8 {
        match letter {
            NoteLiteral::C => 0,
            NoteLiteral::D => 1,
            NoteLiteral::E => 2,
            NoteLiteral::F => 3,
            NoteLiteral::G => 4,
            NoteLiteral::A => 5,
            NoteLiteral::B => 6,
        }
    }
}

impl NoteLiteral {
    // The letter of a number from 0 to 6; C for any other. No TryFrom, since none fails, and no From, since many numbers have
    // the same letter.
    pub fn from_number(number: u8) -> NoteLiteral
        ensures { result ≡ letter_of number }
    {
        match number {
            0 => NoteLiteral::C,
            1 => NoteLiteral::D,
            2 => NoteLiteral::E,
            3 => NoteLiteral::F,
            4 => NoteLiteral::G,
            5 => NoteLiteral::A,
            6 => NoteLiteral::B,
            _ => NoteLiteral::C,
        }
    }
}

// The alteration: flat -1, sharp 1.
impl From<RootModifier> for i8 {
    ghost from_gives = { λ modifier alteration. alteration ≡ alteration_of modifier };

    fn from(modifier: RootModifier) -> i8 {
        match modifier {
            RootModifier::Natural => 0,
            RootModifier::Sharp => 1,
            RootModifier::Flat => -1,
        }
    }
}

impl RootModifier {
    fn number(self) -> u8
        ensures { result ≡ modifier_number self }
    {
        match self {
            RootModifier::Natural => 0,
            RootModifier::Sharp => 1,
            RootModifier::Flat => 2,
        }
    }

    fn from_number(number: u8) -> RootModifier
        ensures { result ≡ modifier_of number }
    {
        match number {
            0 => RootModifier::Natural,
            1 => RootModifier::Sharp,
            2 => RootModifier::Flat,
            _ => RootModifier::Natural,
        }
    }
}

// The note as a number below 21, from which it is found again.
impl From<Note> for u8 {
    ghost from_gives = { λ note number. (number ≡ note_number note) × (note_of number ≡ note) × (number < 21) };

    fn from(note: Note) -> u8 {
        3 * u8::from(note.literal) + note.modifier.number()
    }
}

impl Note {
    // The note of a number; each number from 21 on has one too. No TryFrom and no From, as for the letter.
    pub fn from_number(number: u8) -> Note
        ensures { result ≡ note_of number }
    {
        Note {
            literal: NoteLiteral::from_number(number / 3),
            modifier: RootModifier::from_number(number % 3),
        }
    }

    // Which of the twelve pitch classes the note has: C 0 to B 11.
    pub fn pitch_class(self) -> u8
        ensures { (result ≡ pitch_class self) × (result < 12) }
    {
        (letter_class(self.literal) + modifier_class(self.modifier)) % 12
    }

    // The pitch class of the interval above the note as a root.
    pub fn member_class(self, interval: u8) -> u8
        requires { interval < 23 }
        ensures { (result ≡ member_class self interval) × (result < 12) }
    {
        (self.pitch_class() + st(interval)) % 12
    }
}
