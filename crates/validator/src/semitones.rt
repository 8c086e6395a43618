// The check of three neighbours among the twelve classes of semitones, going round from 11 to 0.
ghost use Rattle.std.specs.Prelude.{◌≡◌, not, ℕ, ◌+◌, ◌*◌, ◌%◌, ◌≤◌, ◌<◌, length};
ghost use Rattle.intervals.specs.Stored.{members};
ghost use Rattle.intervals.specs.Interval.{semitones};
ghost use Rattle.expression.specs.State.{Gained};
ghost use Rattle.validator.specs.State.{error_of, last_at, last_in, neighbours_in};
ghost use Rattle.validator.specs.Validator.{is_nil, semitone_errors};

use crate::each::push_each;
use expression::parser_error::{Errors, ParserError};
use intervals::{IntervalSet, st};

// Semitones that are octaves apart are of one class.
fn class_of(i: u8) -> usize
    requires { i < 23 }
    ensures { result ≡ semitones i % 12 }
{
    usize::from(st(i) % 12)
}

// The last interval of each class: a later one takes the place of an earlier one.
fn last_of_class(set: IntervalSet) -> [Option<u8>; 12]
    ensures { (c : ℕ) → c < 12 → last_at result c ≡ last_in 23 (members set) c }
{
    let mut lasts = [None; 12];
    for i in 0..23 {
        if set.contains(i) {
            lasts[class_of(i)] = Some(i);
        }
    }
    lasts
}

// The error of the class c and the next two, if each has a last interval.
fn neighbours_at(lasts: &[Option<u8>; 12], c: usize) -> Option<ParserError>
    requires { c < 12 }
    ensures { error_of result ≡ neighbours_in (last_at lasts.now) c }
{
    let first = lasts[c]?;
    let second = lasts[(c + 1) % 12]?;
    let third = lasts[(c + 2) % 12]?;
    Some(ParserError::ThreeConsecutiveSemitones(
        u16::from(first),
        u16::from(second),
        u16::from(third),
    ))
}

// Are there three neighbours?
pub(crate) fn has_neighbours(set: IntervalSet) -> bool
    ensures { result ≡ not (is_nil (semitone_errors (members set))) }
{
    let lasts = last_of_class(set);
    (0..12).any(|c| neighbours_at(&lasts, c).is_some())
}

// An error for each three neighbours.
pub(crate) fn validate_semitones(set: IntervalSet, errors: &mut Errors)
    requires { 4 * errors.old.count + 48 ≤ length errors.old.list.now }
    ensures { Gained errors.old errors.new (semitone_errors (members set)) × (errors.new.count ≤ errors.old.count + 12) }
{
    let lasts = last_of_class(set);
    push_each(errors, 12, |c| neighbours_at(&lasts, c));
}
