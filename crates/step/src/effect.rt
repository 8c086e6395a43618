// The effect of a token: how many tokens after it are taken with it, the state after it, and what is added to the two lists.
ghost use Rattle.std.specs.Prelude.{◌≡◌};
ghost use Rattle.step.specs.Effect.{kept, pushing, pushing2, failing, taking, within, erring};
ghost use Rattle.step.specs.declared.context.Context.TheVariants.{None};

use crate::context::Context;
use expression::expression::Exp;
use expression::parser_error::ParserError;

// Three cases and no array of options: a second expression comes only behind a first.
#[derive(Clone, Copy)]
pub enum Gains {
    None,
    One(Exp),
    Two(Exp, Exp),
}

#[derive(Clone, Copy)]
pub struct Effect {
    pub taken: usize,
    pub count: i16,
    pub context: Context,
    pub gains: Gains,
    pub error: Option<ParserError>,
}

// Where the token stands and the state before it; `six` is whether the last expression is the extension 6.
// Its bounds stand in contracts and not in ghost fields: the definitions (`here_of`, `here_in`) build a Here of any numbers.
#[derive(Clone, Copy)]
pub struct Here {
    pub pos: u16,
    pub len: u16,
    pub count: i16,
    pub context: Context,
    pub six: bool,
}

// The state and both lists as they are.
pub(crate) fn keep(h: Here) -> Effect
    ensures { result ≡ kept h }
{
    Effect {
        taken: 0,
        count: h.count,
        context: h.context,
        gains: Gains::None,
        error: None,
    }
}

pub(crate) fn enter(h: Here, context: Context) -> Effect
    ensures { result ≡ within context (kept h) }
{
    Effect { context, ..keep(h) }
}

// An expression, for which so many tokens after it are taken too.
pub(crate) fn push(h: Here, e: Exp, taken: usize) -> Effect
    ensures { result ≡ taking taken (pushing h e) }
{
    Effect {
        taken,
        gains: Gains::One(e),
        ..keep(h)
    }
}

// An expression that ends sus.
pub(crate) fn push_after_sus(h: Here, e: Exp) -> Effect
    ensures { result ≡ within None (pushing h e) }
{
    Effect {
        context: Context::None,
        gains: Gains::One(e),
        ..keep(h)
    }
}

// Two of them.
pub(crate) fn push_two_after_sus(h: Here, e: Exp, f: Exp) -> Effect
    ensures { result ≡ within None (pushing2 h e f) }
{
    Effect {
        context: Context::None,
        gains: Gains::Two(e, f),
        ..keep(h)
    }
}

pub(crate) fn fail(h: Here, e: ParserError, taken: usize) -> Effect
    ensures { result ≡ taking taken (failing h e) }
{
    Effect {
        taken,
        error: Some(e),
        ..keep(h)
    }
}

impl Effect {
    // So many tokens after it are taken too.
    pub(crate) fn take(self, n: usize) -> Effect
        ensures { result ≡ taking n self }
    {
        Effect { taken: n, ..self }
    }

    pub(crate) fn set_context(self, context: Context) -> Effect
        ensures { result ≡ within context self }
    {
        Effect { context, ..self }
    }

    pub(crate) fn set_error(self, e: ParserError) -> Effect
        ensures { result ≡ erring e self }
    {
        Effect {
            error: Some(e),
            ..self
        }
    }
}
