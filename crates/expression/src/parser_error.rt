// The errors of parsing and validation, an error as four numbers, and the errors that a lent list holds so.
ghost use Rattle.std.specs.Prelude.{[], ◌∷◌, ◌≡◌, ◌++◌, ◌+◌, ◌*◌, ◌≤◌, length, take, drop};
ghost use Rattle.expression.specs.ParserError.{numbers_of};
ghost use Rattle.expression.specs.State.{Gained};

// A position is a byte offset. Kind 3 carries the `priority` of the repeated expression, kind 4 an interval, kind 10 three.
#[derive(Clone, Copy, PartialEq, Eq)]
pub enum ParserError {
    IllegalToken(u16),
    UnexpectedNote(u16),
    DuplicateModifier(u16),
    InconsistentExtension(u16),
    DuplicateExtension(u16),
    InvalidExtension(u16),
    WrongExpressionTarget(u16),
    UnexpectedModifier(u16),
    MissingRootNote,
    ThreeConsecutiveSemitones(u16, u16, u16),
    MissingAddTarget(u16, u16),
    IllegalOrMissingOmitTarget(u16, u16),
    IllegalAddTarget(u16, u16),
    IllegalSlashNotation(u16),
    UnexpectedClosingParenthesis(u16),
    MissingClosingParenthesis(u16),
    NestedParenthesis(u16),
    InvalidPowerExpression,
}

// The four numbers of an error: its kind, then its values, then zeros.
impl From<ParserError> for [u16; 4] {
    ghost from_gives = { λ error numbers. numbers ≡ numbers_of error };

    fn from(error: ParserError) -> [u16; 4] {
        match error {
            ParserError::IllegalToken(a) => [1, a, 0, 0],
            ParserError::UnexpectedNote(a) => [2, a, 0, 0],
            ParserError::DuplicateModifier(a) => [3, a, 0, 0],
            ParserError::InconsistentExtension(a) => [4, a, 0, 0],
            ParserError::DuplicateExtension(a) => [5, a, 0, 0],
            ParserError::InvalidExtension(a) => [6, a, 0, 0],
            ParserError::WrongExpressionTarget(a) => [7, a, 0, 0],
            ParserError::UnexpectedModifier(a) => [8, a, 0, 0],
            ParserError::MissingRootNote => [9, 0, 0, 0],
            ParserError::ThreeConsecutiveSemitones(a, b, c) => [10, a, b, c],
            ParserError::MissingAddTarget(a, b) => [11, a, b, 0],
            ParserError::IllegalOrMissingOmitTarget(a, b) => [12, a, b, 0],
            ParserError::IllegalAddTarget(a, b) => [13, a, b, 0],
            ParserError::IllegalSlashNotation(a) => [14, a, 0, 0],
            ParserError::UnexpectedClosingParenthesis(a) => [15, a, 0, 0],
            ParserError::MissingClosingParenthesis(a) => [16, a, 0, 0],
            ParserError::NestedParenthesis(a) => [17, a, 0, 0],
            ParserError::InvalidPowerExpression => [18, 0, 0, 0],
        }
    }
}

// Writes an error as the n-th of the list, counted from 0. `Errors::push` and the parser, which counts by value, both call it.
pub fn store(errs: &mut [u16], n: usize, e: ParserError)
    requires { 4 * n + 4 ≤ length errs.old }
    ensures { errs.new ≡ take (4 * n) errs.old ++ numbers_of e ++ drop (4 * n + 4) errs.old }
{
    let numbers = <[u16; 4]>::from(e);
    errs[4 * n..4 * n + 4].copy_from_slice(&numbers);
}

// The errors that a lent list begins with, four numbers each, as C has them.
#[derive(Drop)]
pub struct Errors<'a> {
    pub list: &'a mut [u16],
    pub count: usize,
}

impl<'a> Errors<'a> {
    // None yet.
    pub fn new(list: &'a mut [u16]) -> Errors<'a>
        ensures { (result.count ≡ 0) × (result.list.now ≡ list.old) × (result.list.ghost_name ≡ list.entry.ghost_name) }
    {
        Errors { list, count: 0 }
    }

    // One error more.
    pub fn push(&mut self, e: ParserError)
        requires { 4 * self.old.count + 4 ≤ length self.old.list.now }
        ensures { Gained self.old self.new (e ∷ []) }
    {
        store(self.list, self.count, e);
        self.count += 1;
    }
}
