// The walk over the tokens: the root, then each token by the token step. The token step `take_token` and the bracket reader `read_tokens`
// call each other.
ghost use Rattle.std.specs.Prelude.{List, ◌≡◌, ◌≤◌, ◌<◌, length};
ghost use Rattle.expression.specs.declared.expression.Exp.{Exp};
ghost use Rattle.parser.specs.Parser.{bracket_of, ends, opens, root_effect};
ghost use Rattle.parser.specs.State.{Ready, Space, Tokens, start, EffectDone, TookToken, Read, Parsed, bracket_by};

use crate::apply::{apply, push_error};
use crate::state::{State, ahead_of, here_at, next_at};
use expression::expression::Exp;
use expression::parser_error::ParserError;
use lookahead::Next;
use note::Note;
use step::context::Context;
use step::effect::{Effect, Gains};
use step::step::process_inside;
use token::{Bracket, Token, TokenType, bracket_kind};

// How many errors and expressions the lent lists hold, and the root.
#[derive(Clone, Copy)]
pub struct ParseResult {
    pub root: Option<Note>,
    pub errors: usize,
    pub exps: usize,
}

// What a token is to the bracket around it.
fn bracket_of(token: Token) -> Bracket
    ensures { result ≡ bracket_of token }
{
    bracket_kind(TokenType::from_number(token.kind))
}

fn opens(token: Token) -> bool
    ensures { result ≡ opens (bracket_of token) }
{
    bracket_of(token) == Bracket::Opens
}

// What a token is to the bracket opened at `inside`. Outside any bracket every token is Other.
fn bracket_in(inside: Option<u16>, token: Token) -> Bracket
    ensures { result ≡ bracket_by inside (bracket_of token) }
{
    match inside {
        Some(_) => bracket_of(token),
        None => Bracket::Other,
    }
}

// Does the token end the bracket opened at `inside`?
fn ends(inside: Option<u16>, token: Token) -> bool
    ensures { result ≡ ends (bracket_by inside (bracket_of token)) }
{
    matches!(bracket_in(inside, token), Bracket::Closes | Bracket::Ends)
}

// The token step: decides what the token at st.at does in the bracket opened at `inside`, or outside any, does it, and has the bracket
// that it opens read.
#[cycle(read_tokens_take_token)]
fn take_token(
    tokens: &[Token],
    st: State,
    inside: Option<u16>,
    errs: &mut [u16],
    exps: &mut [Exp],
) -> State
    requires { Tokens tokens.now × (st.at < length tokens.now) × Ready st × Space errs.old exps.old }
    ensures { TookToken tokens.now inside st result errs.old errs.new exps.old exps.new }
{
    let token = tokens[st.at];
    let kind = TokenType::from_number(token.kind);
    let ahead = ahead_of(kind, &tokens[st.at + 1..]);
    // One call for both: outside any bracket the token is Other, and the position is not looked at.
    let e = process_inside(
        bracket_in(inside, token),
        inside.unwrap_or(0),
        kind,
        here_at(token, exps, st),
        ahead,
    );
    let u = apply(st, e, errs, exps);
    if opens(token) {
        let r = read_tokens(tokens, u.copied(), Some(token.pos), errs, exps);
        return r.copied();
    }
    u
}

// The bracket reader: takes tokens from st.at on, to the closing sign of the bracket opened at `inside`, or all of them where none is open.
#[cycle(read_tokens_take_token)]
fn read_tokens(
    tokens: &[Token],
    st: State,
    inside: Option<u16>,
    errs: &mut [u16],
    exps: &mut [Exp],
) -> State
    requires { Tokens tokens.now × Ready st × Space errs.old exps.old }
    ensures { Read tokens.now inside st result errs.old errs.new exps.old exps.new }
{
    let mut s = st;
    // A `while`: a turn goes on by as many tokens as the effect took, or the bracket that was opened.
    while s.at < tokens.len() {
        let last = ends(inside, tokens[s.at]);
        s = take_token(tokens, s, inside, errs, exps);
        if last {
            return s;
        }
    }
    s
}

// The effect of the first token, which is the root or should be.
fn root_effect(root: Option<Note>, next: Next) -> Effect
    ensures { result ≡ root_effect root next }
{
    let nothing = Effect {
        taken: 0,
        count: 0,
        context: Context::None,
        gains: Gains::None,
        error: None,
    };
    match root {
        Some(_) if next.is_sign() => Effect {
            taken: 1,
            ..nothing
        },
        Some(_) => nothing,
        None => Effect {
            error: Some(ParserError::MissingRootNote),
            ..nothing
        },
    }
}

// The state after the first token; that of any other is `apply`'s, which begins from a state and may write expressions. Only kind 9 can be
// written here.
fn begin(root: Option<Note>, next: Next, errs: &mut [u16]) -> State
    requires { 4 ≤ length errs.old }
    ensures { (xs : List Exp) → EffectDone (root_effect root next) start result errs.old errs.new xs xs }
{
    let e = root_effect(root, next);
    State {
        at: 1 + e.taken,
        count: e.count,
        context: e.context,
        errors: push_error(errs, 0, e.error),
        exps: 0,
    }
}

// Reads the tokens, and writes what is found from the beginning of the two lists on.
pub fn parse(tokens: &[Token], errs: &mut [u16], exps: &mut [Exp]) -> ParseResult
    requires { Tokens tokens.now × Space errs.old exps.old }
    ensures { Parsed tokens.now result errs.old errs.new exps.old exps.new }
{
    let second = next_at(tokens, 1);
    let root = next_at(tokens, 0).note(second.sign());
    let st = begin(root, second, errs);
    let end = read_tokens(tokens, st, None, errs, exps);
    ParseResult {
        root,
        errors: end.errors,
        exps: end.exps,
    }
}
