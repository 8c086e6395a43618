// Tokens: their types, and what each is to a bracket.
#![tactic(auto)]

ghost use Rattle.std.specs.Prelude.{◌≡◌, ◌<◌};
ghost use Rattle.token.specs.Token.{bracket_kind, type_of, plain_type};

use note::NoteLiteral;

#[derive(Clone, Copy, PartialEq, Eq)]
pub enum TokenType {
    Note(NoteLiteral),
    Sharp,
    Flat,
    Aug,
    Dim,
    Dim7,
    HalfDim,
    Extension(u8),
    Add,
    Omit,
    Alt,
    Sus,
    Minor,
    Hyphen,
    Maj,
    Maj7,
    Slash,
    LParent,
    RParent,
    Comma,
    Bass,
    Illegal,
    Eof,
}

// A token of a text: the number of its type, its position and its length. A number and no TokenType: `lex`, `fold7` and the theorem
// `RaisedTokens` speak of numbers, and `type_of` has the type of each.
#[derive(Clone, Copy, PartialEq, Eq, Default)]
pub struct Token {
    pub kind: u8,
    pub pos: u16,
    pub len: u16,
}

// What a token can be to the bracket around it.
#[derive(Clone, Copy, PartialEq, Eq)]
pub enum Bracket {
    Opens,
    Closes,
    Ends,
    Other,
}

// The numbers of the types that the lexer and the folding write, and of the extension 7.
pub const SHARP: u8 = 1;

pub const FLAT: u8 = 2;

pub const AUG: u8 = 3;

pub const DIM: u8 = 4;

pub const DIM7: u8 = 5;

pub const HALF_DIM: u8 = 6;

pub const HYPHEN: u8 = 13;

pub const MAJ: u8 = 14;

pub const MAJ7: u8 = 15;

pub const SLASH: u8 = 16;

pub const LPARENT: u8 = 17;

pub const RPARENT: u8 = 18;

pub const COMMA: u8 = 19;

pub const ILLEGAL: u8 = 21;

pub const EOF: u8 = 22;

pub const SEVEN: u8 = 39;

// The type of a number below 32: those that carry nothing have their place in the Rust's order.
fn plain_type(number: u8) -> TokenType
    requires { number < 32 }
    ensures { result ≡ plain_type number }
{
    match number {
        0 => TokenType::Illegal,
        1 => TokenType::Sharp,
        2 => TokenType::Flat,
        3 => TokenType::Aug,
        4 => TokenType::Dim,
        5 => TokenType::Dim7,
        6 => TokenType::HalfDim,
        7 => TokenType::Illegal,
        8 => TokenType::Add,
        9 => TokenType::Omit,
        10 => TokenType::Alt,
        11 => TokenType::Sus,
        12 => TokenType::Minor,
        13 => TokenType::Hyphen,
        14 => TokenType::Maj,
        15 => TokenType::Maj7,
        16 => TokenType::Slash,
        17 => TokenType::LParent,
        18 => TokenType::RParent,
        19 => TokenType::Comma,
        20 => TokenType::Bass,
        21 => TokenType::Illegal,
        22 => TokenType::Eof,
        _ => TokenType::Illegal,
    }
}

impl TokenType {
    // The type that a token's number stands for; Illegal where there is none. No TryFrom, since none fails, and no From, since many numbers
    // have the same type.
    pub fn from_number(number: u8) -> TokenType
        ensures { result ≡ type_of number }
    {
        if number < 32 {
            return plain_type(number);
        }
        if number < 64 {
            return TokenType::Extension(number - 32);
        }
        if number < 71 {
            return TokenType::Note(NoteLiteral::from_number(number - 64));
        }
        TokenType::Illegal
    }
}

// What a token of a type is to the bracket around it; no From, since many types are the same to it.
pub fn bracket_kind(kind: TokenType) -> Bracket
    ensures { result ≡ bracket_kind kind }
{
    match kind {
        TokenType::LParent => Bracket::Opens,
        TokenType::RParent => Bracket::Closes,
        TokenType::Eof => Bracket::Ends,
        _ => Bracket::Other,
    }
}
