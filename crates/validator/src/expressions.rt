// The check of the expressions: their targets, and those that may stand but once.
ghost use Rattle.std.specs.Prelude.{◌≡◌, cond, ℕ, ◌+◌, ◌*◌, ◌≤◌, ◌<◌, eqb, length};
ghost use Rattle.intervals.specs.Interval.{elem};
ghost use Rattle.expression.specs.State.{Gained};
ghost use Rattle.validator.specs.State.{error_of, counts_of};
ghost use Rattle.validator.specs.Validator.{add_targets, omit_targets, wrong_of, first_wrong, priority_of, times_of, repeated, expression_errors};

use expression::expression::Exp;
use expression::parser_error::{Errors, ParserError};
use intervals::{
    FLAT_NINTH, MAJOR_SECOND, MAJOR_SEVENTH, MAJOR_SIXTH, MAJOR_THIRD, MINOR_SIXTH, PERFECT_FIFTH,
    PERFECT_FOURTH, THIRTEENTH,
};

// Is the interval one that Add may name?
fn is_add_target(interval: u8) -> bool
    ensures { result ≡ elem interval add_targets }
{
    matches!(
        interval,
        MAJOR_SECOND
            | MAJOR_THIRD
            | PERFECT_FOURTH
            | MINOR_SIXTH
            | MAJOR_SIXTH
            | MAJOR_SEVENTH
            | FLAT_NINTH..=THIRTEENTH
    )
}

// Is the interval one that Omit may name?
fn is_omit_target(interval: u8) -> bool
    ensures { result ≡ elem interval omit_targets }
{
    matches!(interval, MAJOR_THIRD | PERFECT_FIFTH)
}

// Add and Omit may name but the intervals of their lists.
fn wrong_of(e: Exp) -> Option<ParserError>
    ensures { error_of result ≡ wrong_of e }
{
    match e {
        Exp::Add(x, pos) if !is_add_target(x) => Some(ParserError::WrongExpressionTarget(pos)),
        Exp::Omit(x, pos) if !is_omit_target(x) => Some(ParserError::WrongExpressionTarget(pos)),
        _ => None,
    }
}

// The first wrong target.
fn first_wrong(exps: &[Exp]) -> Option<ParserError>
    ensures { error_of result ≡ first_wrong exps.now }
{
    exps.iter().find_map(|e| wrong_of(*e))
}

// The `priority` of an expression that may stand but once; 15 of Extension, Add and Omit, a number as `priority_of` has it.
fn priority(e: Exp) -> u8
    ensures { result ≡ priority_of e }
{
    match e {
        Exp::Power => 0,
        Exp::Alt => 1,
        Exp::Bass => 2,
        Exp::Minor => 3,
        Exp::Dim7 => 4,
        Exp::Dim => 5,
        Exp::HalfDim => 6,
        Exp::Sus(_) => 7,
        Exp::Maj => 8,
        Exp::Maj7 => 9,
        Exp::Aug => 12,
        Exp::SlashBass(_) => 14,
        Exp::Extension(_, _) | Exp::Add(_, _) | Exp::Omit(_, _) => 15,
    }
}

// How many expressions of each priority there are.
#[derive(Clone, Copy)]
pub struct Counts {
    pub of: [u16; 15],
}

impl Counts {
    fn new() -> Counts
        ensures { (p : ℕ) → counts_of result p ≡ 0 }
    {
        Counts { of: [0; 15] }
    }

    // One more of the priority p; those from 15 on are not counted.
    fn add(&mut self, p: u8)
        requires { p < 15 → counts_of self.old p < 65535 }
        ensures { (q : ℕ) → q < 15 → counts_of self.new q ≡ cond (eqb p q) 1 0 + counts_of self.old q }
    {
        if p < 15 {
            self.of[usize::from(p)] += 1;
        }
    }
}

#[tactic(auto, using(crate::proofs::Walks::count_step, crate::proofs::Walks::count_end))]
fn count(exps: &[Exp]) -> Counts
    requires { length exps.now ≤ 257 }
    ensures { (p : ℕ) → p < 15 → counts_of result p ≡ times_of exps.now p }
{
    let mut counts = Counts::new();
    for e in exps {
        counts.add(priority(*e));
    }
    counts
}

// The least priority that occurs more than once.
fn first_repeated(exps: &[Exp]) -> Option<ParserError>
    requires { length exps.now ≤ 257 }
    ensures { error_of result ≡ repeated exps.now }
{
    let counts = count(exps);
    let priority = counts.of.iter().position(|times| 1 < *times)?;
    Some(ParserError::DuplicateModifier(priority as u16))
}

// One error at most: a wrong target goes before a repeated expression.
pub(crate) fn validate_expressions(exps: &[Exp], errors: &mut Errors)
    requires { (length exps.now ≤ 257) × (4 * errors.old.count + 4 ≤ length errors.old.list.now) }
    ensures { Gained errors.old errors.new (expression_errors exps.now) × (errors.new.count ≤ errors.old.count + 1) }
{
    if let Some(e) = first_wrong(exps).or_else(|| first_repeated(exps)) {
        errors.push(e);
    }
}
