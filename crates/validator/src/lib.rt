// Validation: the three checks of a chord's expressions and of the set that they make. All run, and their errors are joined.
#![tactic(auto)]

ghost use Rattle.std.specs.Prelude.{◌≡◌, ◌≤◌, length};
ghost use Rattle.intervals.specs.Stored.{members};
ghost use Rattle.expression.specs.State.{Wrote};
ghost use Rattle.validator.specs.Validator.{set_valid, validation_of};

use expression::expression::Exp;
use expression::parser_error::Errors;
use expressions::validate_expressions;
use extensions::{has_conflict, validate_extensions};
use intervals::IntervalSet;
use semitones::{has_neighbours, validate_semitones};

mod each;
mod expressions;
mod extensions;
mod semitones;

// The errors of the expressions and of the set that they make, written from the beginning of the list on; their number is returned.
// The bounds stand in contracts and in no type: the caller's expressions and list are slices.
pub fn validate(exps: &[Exp], set: IntervalSet, errs: &mut [u16]) -> usize
    requires { (length exps.now ≤ 257) × (1028 ≤ length errs.old) }
    ensures { Wrote 0 result (validation_of exps.now (members set)) errs.old errs.new
        × (result ≤ 21) }
{
    let mut errors = Errors::new(errs);
    validate_expressions(exps, &mut errors);
    validate_extensions(exps, set, &mut errors);
    validate_semitones(set, &mut errors);
    errors.count
}

// Do the checks that look at the set alone find nothing?
#[tactic(auto, unfolding(crate::specs::Validator::set_valid))]
pub fn is_valid_set(set: IntervalSet) -> bool
    ensures { result ≡ set_valid (members set) }
{
    !has_conflict(set) && !has_neighbours(set)
}
