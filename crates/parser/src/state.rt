// The parser's state between tokens, and what the token step wants to know of it and of the tokens ahead.
ghost use Rattle.std.specs.Prelude.{false, ◌≡◌, ◌≤◌, ◌<◌, length};
ghost use Rattle.std.specs.Int.Signed.{mag};
ghost use Rattle.token.specs.Token.{at};
ghost use Rattle.parser.specs.Parser.{ahead_of, is_six, last_six, next_at};
ghost use Rattle.parser.specs.State.{Foreseen, here_in};

use expression::expression::Exp;
use intervals::MAJOR_SIXTH;
use lookahead::{Ahead, Next, next_of};
use step::context::Context;
use step::effect::Here;
use token::{Token, TokenType};

// `at` is the next token; `errors` and `exps` count what stands in the lent lists.
// Counts by value and no struct over the lent lists: so the whole state can stay in registers.
#[derive(Clone, Copy)]
pub struct State {
    pub at: usize,
    pub count: i16,
    pub context: Context,
    pub errors: usize,
    pub exps: usize,
}

impl State {
    // The same state, field by field. A call is handed the copy and gives one back, so that the state itself stays in registers around it.
    pub(crate) fn copied(self) -> State
        requires { mag self.count < 1000 }
        ensures { result ≡ self }
    {
        State {
            at: self.at,
            count: self.count,
            context: self.context,
            errors: self.errors,
            exps: self.exps,
        }
    }
}

// The token at i, as the one before it sees it.
pub(crate) fn next_at(tokens: &[Token], i: usize) -> Next
    ensures { result ≡ next_at tokens.now i }
{
    match tokens.get(i) {
        Some(token) => next_of(TokenType::from_number(token.kind)),
        None => Next::Other,
    }
}

// The position of the token at i; 0 where there is none, as the definition has it.
fn pos_at(tokens: &[Token], i: usize) -> u16
    ensures { result ≡ (at tokens.now i).pos }
{
    match tokens.get(i) {
        Some(token) => token.pos,
        None => 0,
    }
}

// The first three of the tokens ahead.
fn all_ahead(rest: &[Token]) -> Ahead
    ensures { result ≡ ahead_of rest.now }
{
    Ahead {
        first: next_at(rest, 0),
        second: next_at(rest, 1),
        third: next_at(rest, 2),
        pos: pos_at(rest, 0),
        pos2: pos_at(rest, 1),
    }
}

// Nothing after the token `first` is told.
fn only(first: Next) -> Ahead
    ensures { result.first ≡ first }
{
    Ahead {
        first,
        second: Next::Other,
        third: Next::Other,
        pos: 0,
        pos2: 0,
    }
}

// The tokens ahead, as far as a token of this type asks for them; most ask for none, and looking takes time.
pub(crate) fn ahead_of(kind: TokenType, rest: &[Token]) -> Ahead
    ensures { Foreseen kind (ahead_of rest.now) result }
{
    match kind {
        TokenType::Sharp
        | TokenType::Flat
        | TokenType::Aug
        | TokenType::Omit
        | TokenType::Sus
        | TokenType::Hyphen => only(next_at(rest, 0)),
        TokenType::Add | TokenType::Slash => all_ahead(rest),
        _ => only(Next::Other),
    }
}

fn is_six(e: Exp) -> bool
    ensures { result ≡ is_six e }
{
    matches!(e, Exp::Extension(MAJOR_SIXTH, _))
}

// Is the last of the expressions the extension 6?
fn last_is_six(exps: &[Exp]) -> bool
    ensures { result ≡ last_six false exps.now }
{
    match exps.last() {
        Some(e) => is_six(*e),
        None => false,
    }
}

// What the token step wants to know of the token at st.at.
pub(crate) fn here_at(token: Token, exps: &[Exp], st: State) -> Here
    requires { (st.exps ≤ length exps.now) × (mag st.count < 1000) }
    ensures { result ≡ here_in token exps.now st }
{
    Here {
        pos: token.pos,
        len: token.len,
        count: st.count,
        context: st.context,
        six: last_is_six(&exps[..st.exps]),
    }
}
