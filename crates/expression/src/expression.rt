// The expressions that the parser makes of tokens, and an expression as one number.
ghost use Rattle.std.specs.Prelude.{◌≡◌, ◌+◌, ◌*◌, ◌<◌};
ghost use Rattle.expression.specs.Expression.{packed, exp_number, exp_by, exp_of};

use note::Note;

// An interval is its number; the second number of Extension, Add and Omit is a position.
#[derive(Clone, Copy, PartialEq, Eq)]
pub enum Exp {
    Power,
    Bass,
    Maj,
    Maj7,
    Minor,
    HalfDim,
    Dim,
    Dim7,
    Alt,
    Aug,
    Sus(u8),
    Extension(u8, u16),
    Add(u8, u16),
    Omit(u8, u16),
    SlashBass(Note),
}

// Kind, interval or note, and position in one number, as `exp_number` has them; `exp_of` goes back.
fn pack(kind: u32, value: u8, pos: u16) -> u32
    requires { kind < 16 }
    ensures { (result ≡ packed kind value pos) × (exp_of result ≡ exp_by kind value pos) }
{
    kind + 16 * u32::from(value) + 4096 * u32::from(pos)
}

// The expression of a kind below 15.
fn by_kind(kind: u32, value: u8, pos: u16) -> Exp
    ensures { result ≡ exp_by kind value pos }
{
    match kind {
        0 => Exp::Power,
        1 => Exp::Bass,
        2 => Exp::Maj,
        3 => Exp::Maj7,
        4 => Exp::Minor,
        5 => Exp::HalfDim,
        6 => Exp::Dim,
        7 => Exp::Dim7,
        8 => Exp::Alt,
        9 => Exp::Aug,
        10 => Exp::Sus(value),
        11 => Exp::Extension(value, pos),
        12 => Exp::Add(value, pos),
        13 => Exp::Omit(value, pos),
        _ => Exp::SlashBass(Note::from_number(value)),
    }
}

impl Exp {
    // The expression of a number; every number has one. No TryFrom, since none fails, and no From, since many numbers have the same one.
    pub fn from_number(number: u32) -> Exp
        ensures { result ≡ exp_of number }
    {
        let value = number / 16 % 256;
        let pos = number / 4096 % 65536;
        by_kind(number % 16, value as u8, pos as u16)
    }
}

// The expression as a number, from which it is found again.
impl From<Exp> for u32 {
    ghost from_gives = { λ exp number. (number ≡ exp_number exp) × (exp_of number ≡ exp) };

    fn from(exp: Exp) -> u32 {
        match exp {
            Exp::Power => pack(0, 0, 0),
            Exp::Bass => pack(1, 0, 0),
            Exp::Maj => pack(2, 0, 0),
            Exp::Maj7 => pack(3, 0, 0),
            Exp::Minor => pack(4, 0, 0),
            Exp::HalfDim => pack(5, 0, 0),
            Exp::Dim => pack(6, 0, 0),
            Exp::Dim7 => pack(7, 0, 0),
            Exp::Alt => pack(8, 0, 0),
            Exp::Aug => pack(9, 0, 0),
            Exp::Sus(i) => pack(10, i, 0),
            Exp::Extension(i, p) => pack(11, i, p),
            Exp::Add(i, p) => pack(12, i, p),
            Exp::Omit(i, p) => pack(13, i, p),
            Exp::SlashBass(n) => pack(14, u8::from(n), 0),
        }
    }
}
