// What a token's effect does to the state and to the lent lists.
ghost use Rattle.std.specs.Prelude.{[], ◌∷◌, ◌+◌, ◌*◌, ◌≤◌, ◌<◌, length};
ghost use Rattle.step.specs.Bounds.{gains_count};
ghost use Rattle.expression.specs.State.{Wrote};
ghost use Rattle.parser.specs.Parser.{error_of, gains_of, itself};
ghost use Rattle.parser.specs.State.{Ready, Fits, Space, Gained, EffectDone};

use crate::state::State;
use expression::expression::Exp;
use expression::parser_error::{ParserError, store};
use step::effect::{Effect, Gains};

// Writes the error behind the first n, if there is one, and answers how many there are: counts by value, for the reason given at `State`.
pub(crate) fn push_error(errs: &mut [u16], n: usize, e: Option<ParserError>) -> usize
    requires { 4 * n + 4 ≤ length errs.old }
    ensures { Wrote n result (error_of itself e) errs.old errs.new }
{
    match e {
        None => n,
        Some(error) => {
            store(errs, n, error);
            n + 1
        }
    }
}

fn push_exp(exps: &mut [Exp], n: usize, e: Exp) -> usize
    requires { n < length exps.old }
    ensures { Gained n result (e ∷ []) exps.old exps.new }
{
    exps[n] = e;
    n + 1
}

// Writes the expressions behind the first n, and answers how many there are.
fn push_exps(exps: &mut [Exp], n: usize, gains: Gains) -> usize
    requires { n + gains_count gains ≤ length exps.old }
    ensures { Gained n result (gains_of gains) exps.old exps.new }
{
    match gains {
        Gains::None => n,
        Gains::One(e) => push_exp(exps, n, e),
        Gains::Two(e, f) => {
            let m = push_exp(exps, n, e);
            push_exp(exps, m, f)
        }
    }
}

// The state after the token at st.at, which has the effect e.
pub(crate) fn apply(st: State, e: Effect, errs: &mut [u16], exps: &mut [Exp]) -> State
    requires { Ready st × (st.at < 257) × Fits st e × Space errs.old exps.old }
    ensures { EffectDone e st result errs.old errs.new exps.old exps.new }
{
    // In locals: taken out of `e` where they are used, the expressions are read in other pieces than they were written in, and waited for.
    let gains = e.gains;
    let error = e.error;
    let errors = push_error(errs, st.errors, error);
    let exps = push_exps(exps, st.exps, gains);
    State {
        at: st.at + 1 + e.taken,
        count: e.count,
        context: e.context,
        errors,
        exps,
    }
}
