// The base form of a chord: thirds and fifths, by the highest form that an expression asks for.
ghost use Rattle.std.specs.Prelude.{◌≡◌};
ghost use Rattle.intervals.specs.Stored.{members};
ghost use Rattle.evaluator.specs.declared.ast.BaseForm.TheVariants as form;
ghost use Rattle.evaluator.specs.Evaluator.{transition, apply_form, is_major, form_of};

use expression::expression::Exp;
use intervals::{
    DIMINISHED_FIFTH, DIMINISHED_SEVENTH, IntervalSet, MAJOR_THIRD, MINOR_SEVENTH, MINOR_THIRD,
    PERFECT_FIFTH,
};

// In the order of the priorities, the lowest first.
#[derive(Clone, Copy, PartialEq, Eq, PartialOrd, Ord)]
pub enum BaseForm {
    Major,
    HalfDim,
    Minor,
    Dim,
    Dim7,
    Power,
}

impl BaseForm {
    // The form with the higher priority stays.
    pub(crate) fn transition(self, other: BaseForm) -> BaseForm
        ensures { result ≡ transition self other }
    {
        self.max(other)
    }

    pub(crate) fn is_major(self) -> bool
        ensures { result ≡ is_major self }
    {
        self == BaseForm::Major
    }

    // Adds or removes thirds and fifths.
    pub(crate) fn apply(self, s: IntervalSet) -> IntervalSet
        ensures { members result ≡ apply_form self (members s) }
    {
        match self {
            BaseForm::Major => s,
            BaseForm::Minor => s.remove_then_add(MAJOR_THIRD, MINOR_THIRD),
            BaseForm::Dim => apply_dim(s),
            BaseForm::HalfDim => apply_dim(s).insert(MINOR_SEVENTH),
            BaseForm::Dim7 => apply_dim(s).insert(DIMINISHED_SEVENTH),
            BaseForm::Power => s.remove(MAJOR_THIRD),
        }
    }
}

fn apply_dim(s: IntervalSet) -> IntervalSet
    ensures { members result ≡ apply_form form.Dim (members s) }
{
    s.remove_then_add(MAJOR_THIRD, MINOR_THIRD)
        .remove_then_add(PERFECT_FIFTH, DIMINISHED_FIFTH)
}

// The form that an expression asks for; no From, since many expressions ask for the same.
pub(crate) fn form_of(e: Exp) -> BaseForm
    ensures { result ≡ form_of e }
{
    match e {
        Exp::Power => BaseForm::Power,
        Exp::Minor => BaseForm::Minor,
        Exp::HalfDim => BaseForm::HalfDim,
        Exp::Dim => BaseForm::Dim,
        Exp::Dim7 => BaseForm::Dim7,
        _ => BaseForm::Major,
    }
}
