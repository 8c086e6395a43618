// The check of the extensions, and of intervals that exclude each other.
ghost use Rattle.std.specs.Prelude.{not, ◌≡◌, ◌+◌, ◌*◌, ◌≤◌, ◌<◌, length};
ghost use Rattle.intervals.specs.Stored.{members};
ghost use Rattle.intervals.specs.Interval.{elem, empty, semitones};
ghost use Rattle.expression.specs.State.{Gained};
ghost use Rattle.validator.specs.State.{error_of};
ghost use Rattle.validator.specs.Validator.{all_from, bad_extensions, fault_at, extension_fault, conflict_at, extension_errors, is_nil};

use crate::each::push_each;
use expression::expression::Exp;
use expression::parser_error::{Errors, ParserError};
use intervals::{
    AUGMENTED_FIFTH, DIMINISHED_FIFTH, DIMINISHED_SEVENTH, ELEVENTH, FLAT_NINTH, FLAT_THIRTEENTH,
    IntervalSet, MAJOR_SECOND, MAJOR_SEVENTH, MAJOR_SIXTH, MAJOR_THIRD, MINOR_SECOND, MINOR_SIXTH,
    MINOR_THIRD, NINTH, PERFECT_FIFTH, SHARP_ELEVENTH, SHARP_NINTH, THIRTEENTH, semitones_or_zero,
};

// Is the interval one that no extension may name?
fn is_bad_extension(interval: u8) -> bool
    ensures { result ≡ elem interval bad_extensions }
{
    matches!(
        interval,
        MINOR_SECOND | MAJOR_SECOND | MINOR_THIRD | MAJOR_THIRD | DIMINISHED_SEVENTH | MAJOR_SEVENTH
    )
}

// What is wrong with an extension; `seen` holds the semitones of the extensions before.
fn fault_at(seen: IntervalSet, interval: u8, pos: u16) -> Option<ParserError>
    ensures { error_of result ≡ fault_at (members seen) interval pos }
{
    if is_bad_extension(interval) {
        Some(ParserError::InvalidExtension(pos))
    } else {
        seen.contains(semitones_or_zero(interval))
            .then_some(ParserError::DuplicateExtension(pos))
    }
}

// What is wrong with the first extension that is not as it should be.
fn first_fault(exps: &[Exp]) -> Option<ParserError>
    ensures { error_of result ≡ extension_fault empty exps.now }
{
    let mut seen = IntervalSet::new();
    for e in exps {
        if let Exp::Extension(x, pos) = *e {
            if let Some(fault) = fault_at(seen, x, pos) {
                return Some(fault);
            }
            seen = seen.insert(semitones_or_zero(x));
        }
    }
    None
}

// The pairs of INCOMPAT_SET: the interval that is reported, and the other.
const CONFLICTS: [(u8, u8); 8] = [
    (MAJOR_THIRD, MINOR_THIRD),
    (PERFECT_FIFTH, DIMINISHED_FIFTH),
    (PERFECT_FIFTH, AUGMENTED_FIFTH),
    (MAJOR_SIXTH, MINOR_SIXTH),
    (NINTH, FLAT_NINTH),
    (NINTH, SHARP_NINTH),
    (ELEVENTH, SHARP_ELEVENTH),
    (THIRTEENTH, FLAT_THIRTEENTH),
];

// The error of the i-th pair, if the set has both; by place, as `push_each` asks.
fn conflict_at(set: IntervalSet, i: usize) -> Option<ParserError>
    requires { i < 8 }
    ensures { error_of result ≡ conflict_at (members set) i }
{
    let (a, b) = CONFLICTS[i];
    (set.contains(a) && set.contains(b)).then_some(ParserError::InconsistentExtension(u16::from(a)))
}

// Do two members exclude each other?
pub(crate) fn has_conflict(set: IntervalSet) -> bool
    ensures { result ≡ not (is_nil (all_from (conflict_at (members set)) 8 0)) }
{
    (0..CONFLICTS.len()).any(|i| conflict_at(set, i).is_some())
}

// The pairs are looked at only where each extension is as it should be.
pub(crate) fn validate_extensions(exps: &[Exp], set: IntervalSet, errors: &mut Errors)
    requires { 4 * errors.old.count + 32 ≤ length errors.old.list.now }
    ensures { Gained errors.old errors.new (extension_errors exps.now (members set)) × (errors.new.count ≤ errors.old.count + 8) }
{
    match first_fault(exps) {
        Some(e) => errors.push(e),
        None => push_each(errors, CONFLICTS.len(), |i| conflict_at(set, i)),
    }
}
