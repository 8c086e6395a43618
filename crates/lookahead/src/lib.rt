// What a token after the one that is read can be to it, and the three that it can ask for.
#![tactic(auto)]

ghost use Rattle.std.specs.Prelude.{◌≡◌};
ghost use Rattle.lookahead.specs.Next.{next_of, number_in, is_number, sign_in, is_sign, is_maj7, is_end, note_from};

use note::{Note, NoteLiteral, RootModifier};
use token::TokenType;

#[derive(Clone, Copy, PartialEq, Eq)]
pub enum Next {
    Note(NoteLiteral),
    Sharp,
    Flat,
    Extension(u8),
    Maj7,
    Eof,
    Other,
}

// The three tokens after the one that is read, and where the first two stand.
#[derive(Clone, Copy)]
pub struct Ahead {
    pub first: Next,
    pub second: Next,
    pub third: Next,
    pub pos: u16,
    pub pos2: u16,
}

// What a type is to the token before it; no From, since many types are the same to it.
pub fn next_of(kind: TokenType) -> Next
    ensures { result ≡ next_of kind }
{
    match kind {
        TokenType::Note(l) => Next::Note(l),
        TokenType::Sharp => Next::Sharp,
        TokenType::Flat => Next::Flat,
        TokenType::Extension(n) => Next::Extension(n),
        TokenType::Maj7 => Next::Maj7,
        TokenType::Eof => Next::Eof,
        _ => Next::Other,
    }
}

impl Next {
    // The number of an extension; 0 where there is none, as the definition has it.
    pub fn number(self) -> u8
        ensures { result ≡ number_in self }
    {
        match self {
            Next::Extension(n) => n,
            _ => 0,
        }
    }

    pub fn is_extension(self) -> bool
        ensures { result ≡ is_number self }
    {
        matches!(self, Next::Extension(_))
    }

    pub fn sign(self) -> RootModifier
        ensures { result ≡ sign_in self }
    {
        match self {
            Next::Sharp => RootModifier::Sharp,
            Next::Flat => RootModifier::Flat,
            _ => RootModifier::Natural,
        }
    }

    pub fn is_sign(self) -> bool
        ensures { result ≡ is_sign self }
    {
        matches!(self, Next::Sharp | Next::Flat)
    }

    pub fn is_maj7(self) -> bool
        ensures { result ≡ is_maj7 self }
    {
        matches!(self, Next::Maj7)
    }

    pub fn is_eof(self) -> bool
        ensures { result ≡ is_end self }
    {
        matches!(self, Next::Eof)
    }

    // The note that begins here, with the sign of the token after it.
    pub fn note(self, modifier: RootModifier) -> Option<Note>
        ensures { result ≡ note_from self modifier }
    {
        match self {
            Next::Note(literal) => Some(Note { literal, modifier }),
            _ => None,
        }
    }
}
