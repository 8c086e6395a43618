// The evaluation of a list of expressions: one look at each of them, and then the stages.
ghost use Rattle.std.specs.Prelude.{[], ◌≡◌};
ghost use Rattle.intervals.specs.Interval.{Set};
ghost use Rattle.intervals.specs.Stored.{members};
ghost use Rattle.expression.specs.Bounds.{Sound};
ghost use Rattle.display.specs.Display.{first_sus};
ghost use Rattle.evaluator.specs.Evaluator.{fold_left, eval_set};
ghost use Rattle.evaluator.specs.State.{Sounds, Described, Seen, Answered, Changes};

use crate::ast::{BaseForm, form_of};
use crate::stages::{
    add_by, alter_by, apply_sus, bass_of, direct, ext_at, implied, is_maj, is_sus4, omit_by, prune,
};
use expression::expression::Exp;
use intervals::{IntervalList, IntervalSet, MAJOR_THIRD, PERFECT_FIFTH, UNISON};
use note::Note;

// What the expressions say before the stages.
#[derive(Clone, Copy)]
pub struct Descriptor {
    pub set: IntervalSet,
    pub form: BaseForm,
    pub sus: bool,
    pub maj: bool,
    pub tallest: u8,
    pub bass: Option<Note>,
}

// The slash bass, the normalized set and the display list.
#[derive(Clone, Copy)]
pub struct Evaluated {
    pub bass: Option<Note>,
    pub set: IntervalSet,
    pub display: IntervalList,
}

// Before the first expression: the major triad.
fn seed_defaults() -> Descriptor
    ensures { Described [] result }
{
    Descriptor {
        set: IntervalSet::new()
            .insert(UNISON)
            .insert(MAJOR_THIRD)
            .insert(PERFECT_FIFTH),
        form: BaseForm::Major,
        sus: false,
        maj: false,
        tallest: 0,
        bass: None,
    }
}

// What is known after one more expression.
fn evaluate_expression(d: Descriptor, e: Exp) -> Descriptor
    ensures { Seen d e result }
{
    Descriptor {
        set: direct(d.set, e),
        form: d.form.transition(form_of(e)),
        sus: d.sus || is_sus4(e),
        maj: d.maj || is_maj(e),
        tallest: ext_at(d.tallest, e),
        bass: bass_of(d.bass, e),
    }
}

// What all of the expressions say before the stages.
fn evaluate_expressions(exps: &[Exp]) -> Descriptor
    ensures { Described exps.now result }
{
    let mut d = seed_defaults();
    for e in exps {
        d = evaluate_expression(d, *e);
    }
    d
}

// One walk over the expressions, from left to right, with a change at each.
fn apply_pass<F: Fn(IntervalSet, Exp) -> IntervalSet>(
    change: F,
    exps: &[Exp],
    set: IntervalSet,
) -> IntervalSet
    requires sound { Sounds exps.now }
    requires callable { (s : IntervalSet) (e : Exp) → Sound e → F.pre change s e }
    ensures { (f : Set → Exp → Set) → Changes (F.post change) f → members result ≡ fold_left f (members set) exps.now }
{
    let mut s = set;
    for e in exps {
        s = change(s, *e);
    }
    s
}

// The interval of the first sus, 0 where there is none, as the definition has it.
fn first_sus(exps: &[Exp]) -> u8
    ensures { result ≡ first_sus exps.now }
{
    for e in exps {
        if let Exp::Sus(interval) = *e {
            return interval;
        }
    }
    0
}

// The stages, in the order of `Evaluator::evaluate`.
fn eval_set(exps: &[Exp], d: Descriptor) -> IntervalSet
    requires { Sounds exps.now × Described exps.now d }
    ensures { members result ≡ eval_set exps.now }
{
    let s = apply_pass(alter_by, exps, apply_sus(d.form.apply(d.set), d.sus));
    let t = implied(s, d.tallest, d.form.is_major(), d.maj);
    prune(apply_pass(add_by, exps, apply_pass(omit_by, exps, t)))
}

// The bass, the set and the display list of the expressions.
pub fn evaluate(exps: &[Exp]) -> Evaluated
    requires { Sounds exps.now }
    ensures { Answered exps.now result }
{
    let d = evaluate_expressions(exps);
    let set = eval_set(exps, d);
    Evaluated {
        bass: d.bass,
        set,
        display: display::display(first_sus(exps), set),
    }
}
