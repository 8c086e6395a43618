// What one expression does in each stage, and the stages that ask for no expression.
ghost use Rattle.std.specs.Prelude.{◌≡◌, ◌<◌};
ghost use Rattle.intervals.specs.Interval.{elem};
ghost use Rattle.intervals.specs.Stored.{members};
ghost use Rattle.expression.specs.declared.expression.Exp.TheVariants as exp;
ghost use Rattle.expression.specs.Bounds.{Sound};
ghost use Rattle.evaluator.specs.Evaluator.{alterations, direct, is_sus4, is_maj, ext_of, ext_at, bass_of, remove_thirds, apply_sus, alter, alter_by, imply9, imply11, imply7, implied13, implied11, implied9, implied, omit, omit_by, add, add_by, prune6, prune11};

use expression::expression::Exp;
use intervals::{
    AUGMENTED_FIFTH, AUGMENTED_FOURTH, DIMINISHED_FIFTH, DIMINISHED_SEVENTH, ELEVENTH, FLAT_NINTH,
    FLAT_THIRTEENTH, IntervalSet, MAJOR_SECOND, MAJOR_SEVENTH, MAJOR_SIXTH, MAJOR_THIRD,
    MINOR_SECOND, MINOR_SEVENTH, MINOR_SIXTH, MINOR_THIRD, NINTH, PERFECT_FIFTH, PERFECT_FOURTH,
    SHARP_ELEVENTH, SHARP_NINTH, THIRTEENTH,
};
use note::Note;

// A sixth or a seventh goes into the set at once.
fn insert_direct(s: IntervalSet, interval: u8) -> IntervalSet
    ensures { members result ≡ direct (members s) (exp.Extension interval 0) }
{
    if matches!(interval, MAJOR_SIXTH | MINOR_SIXTH | MINOR_SEVENTH) {
        s.insert(interval)
    } else {
        s
    }
}

// What an expression does to the set at once.
pub(crate) fn direct(s: IntervalSet, e: Exp) -> IntervalSet
    ensures { members result ≡ direct (members s) e }
{
    match e {
        Exp::Bass => s.remove(PERFECT_FIFTH).remove(MAJOR_THIRD),
        Exp::Maj7 => s.insert(MAJOR_SEVENTH),
        Exp::Alt => s.insert(MINOR_SEVENTH),
        Exp::Extension(interval, _) => insert_direct(s, interval),
        _ => s,
    }
}

pub(crate) fn is_sus4(e: Exp) -> bool
    ensures { result ≡ is_sus4 e }
{
    matches!(e, Exp::Sus(PERFECT_FOURTH))
}

pub(crate) fn is_maj(e: Exp) -> bool
    ensures { result ≡ is_maj e }
{
    matches!(e, Exp::Maj | Exp::Maj7)
}

// An extension 9, 11 or 13, else 0, as `ext_of` has it: the tallest is then the greatest number.
fn tall(interval: u8) -> u8
    ensures { result ≡ ext_of (exp.Extension interval 0) }
{
    if matches!(interval, NINTH | ELEVENTH | THIRTEENTH) {
        interval
    } else {
        0
    }
}

fn ext_of(e: Exp) -> u8
    ensures { result ≡ ext_of e }
{
    match e {
        Exp::Extension(interval, _) => tall(interval),
        _ => 0,
    }
}

pub(crate) fn ext_at(max: u8, e: Exp) -> u8
    ensures { result ≡ ext_at max e }
{
    max.max(ext_of(e))
}

pub(crate) fn bass_of(b: Option<Note>, e: Exp) -> Option<Note>
    ensures { result ≡ bass_of b e }
{
    match e {
        Exp::SlashBass(note) => Some(note),
        _ => b,
    }
}

fn remove_thirds(s: IntervalSet) -> IntervalSet
    ensures { members result ≡ remove_thirds (members s) }
{
    s.remove(MINOR_THIRD).remove(MAJOR_THIRD)
}

pub(crate) fn apply_sus(s: IntervalSet, sus: bool) -> IntervalSet
    ensures { members result ≡ apply_sus sus (members s) }
{
    if sus {
        remove_thirds(s).insert(PERFECT_FOURTH)
    } else {
        s
    }
}

// One alteration: an altered fifth takes the place of the fifth.
fn alter(s: IntervalSet, interval: u8) -> IntervalSet
    requires { interval < 23 }
    ensures { members result ≡ alter (members s) interval }
{
    if matches!(
        interval,
        DIMINISHED_FIFTH | AUGMENTED_FIFTH | FLAT_THIRTEENTH
    ) {
        s.remove_then_add(PERFECT_FIFTH, interval)
    } else {
        s.insert(interval)
    }
}

// The alterations of alt.
fn alter_alt(s: IntervalSet) -> IntervalSet
    ensures { members result ≡ alter_by (members s) exp.Alt }
{
    alter(
        alter(alter(alter(s, FLAT_NINTH), SHARP_NINTH), SHARP_ELEVENTH),
        FLAT_THIRTEENTH,
    )
}

// The alteration that a sus other than the fourth stands for.
fn alter_sus(s: IntervalSet, interval: u8) -> IntervalSet
    ensures { members result ≡ alter_by (members s) (exp.Sus interval) }
{
    match interval {
        AUGMENTED_FOURTH => alter(s, SHARP_ELEVENTH),
        MINOR_SECOND => alter(s, FLAT_NINTH),
        MAJOR_SECOND => alter(s, NINTH),
        _ => s,
    }
}

fn is_alteration(interval: u8) -> bool
    ensures { result ≡ elem interval alterations }
{
    matches!(
        interval,
        PERFECT_FOURTH
            | AUGMENTED_FOURTH
            | DIMINISHED_FIFTH
            | AUGMENTED_FIFTH
            | FLAT_NINTH
            | SHARP_NINTH
            | SHARP_ELEVENTH
            | FLAT_THIRTEENTH
            | MINOR_SEVENTH
    )
}

fn alter_extension(s: IntervalSet, interval: u8) -> IntervalSet
    requires { interval < 23 }
    ensures { members result ≡ alter_by (members s) (exp.Extension interval 0) }
{
    if is_alteration(interval) {
        alter(s, interval)
    } else {
        s
    }
}

pub(crate) fn alter_by(s: IntervalSet, e: Exp) -> IntervalSet
    requires { Sound e }
    ensures { members result ≡ alter_by (members s) e }
{
    match e {
        Exp::Alt => alter_alt(s),
        Exp::Aug => alter(s, AUGMENTED_FIFTH),
        Exp::Sus(interval) => alter_sus(s, interval),
        Exp::Extension(interval, _) => alter_extension(s, interval),
        _ => s,
    }
}

// A ninth, unless an altered one is there.
fn imply9(s: IntervalSet) -> IntervalSet
    ensures { members result ≡ imply9 (members s) }
{
    if s.contains(FLAT_NINTH) || s.contains(SHARP_NINTH) {
        s
    } else {
        s.insert(NINTH)
    }
}

// An eleventh, unless the sharp one is there.
fn imply11(s: IntervalSet) -> IntervalSet
    ensures { members result ≡ imply11 (members s) }
{
    if s.contains(SHARP_ELEVENTH) {
        s
    } else {
        s.insert(ELEVENTH)
    }
}

// The major seventh with Maj, else the minor one, unless the diminished one is there.
fn imply7(s: IntervalSet, maj: bool) -> IntervalSet
    ensures { members result ≡ imply7 maj (members s) }
{
    if maj {
        s.insert(MAJOR_SEVENTH)
    } else if s.contains(DIMINISHED_SEVENTH) {
        s
    } else {
        s.insert(MINOR_SEVENTH)
    }
}

fn implied13(s: IntervalSet, major: bool) -> IntervalSet
    ensures { members result ≡ implied13 major (members s) }
{
    if major {
        s.insert(THIRTEENTH)
    } else {
        imply11(s.insert(THIRTEENTH))
    }
}

fn implied11(s: IntervalSet, major: bool) -> IntervalSet
    ensures { members result ≡ implied11 major (members s) }
{
    if major {
        s.remove_then_add(MAJOR_THIRD, PERFECT_FOURTH)
    } else {
        s.insert(ELEVENTH)
    }
}

fn implied9(s: IntervalSet, maj: bool) -> IntervalSet
    ensures { members result ≡ implied9 maj (members s) }
{
    if s.contains(MAJOR_SIXTH) || s.contains(MINOR_SIXTH) {
        s.insert(NINTH)
    } else {
        imply7(s.insert(NINTH), maj)
    }
}

pub(crate) fn implied(s: IntervalSet, ext: u8, major: bool, maj: bool) -> IntervalSet
    ensures { members result ≡ implied ext major maj (members s) }
{
    match ext {
        THIRTEENTH => imply7(imply9(implied13(s, major)), maj),
        ELEVENTH => imply7(imply9(implied11(s, major)), maj),
        NINTH => implied9(s, maj),
        _ => s,
    }
}

fn omit(s: IntervalSet, interval: u8) -> IntervalSet
    ensures { members result ≡ omit (members s) interval }
{
    match interval {
        PERFECT_FIFTH => s
            .remove(PERFECT_FIFTH)
            .remove(AUGMENTED_FIFTH)
            .remove(DIMINISHED_FIFTH),
        MAJOR_THIRD => remove_thirds(s),
        _ => s,
    }
}

pub(crate) fn omit_by(s: IntervalSet, e: Exp) -> IntervalSet
    ensures { members result ≡ omit_by (members s) e }
{
    match e {
        Exp::Alt => omit(s, PERFECT_FIFTH),
        Exp::Sus(_) => omit(s, MAJOR_THIRD),
        Exp::Omit(interval, _) => omit(s, interval),
        _ => s,
    }
}

fn add(s: IntervalSet, interval: u8) -> IntervalSet
    requires { interval < 23 }
    ensures { members result ≡ add (members s) interval }
{
    if interval == FLAT_THIRTEENTH {
        s.remove(PERFECT_FIFTH).insert(FLAT_THIRTEENTH)
    } else {
        s.insert(interval)
    }
}

pub(crate) fn add_by(s: IntervalSet, e: Exp) -> IntervalSet
    requires { Sound e }
    ensures { members result ≡ add_by (members s) e }
{
    match e {
        Exp::Add(interval, _) => add(s, interval),
        _ => s,
    }
}

// With a sixth, a thirteenth says nothing more.
fn prune6(s: IntervalSet) -> IntervalSet
    ensures { members result ≡ prune6 (members s) }
{
    if s.contains(MAJOR_SIXTH) {
        s.remove(THIRTEENTH)
    } else {
        s
    }
}

// An eleventh over a major third is a fourth.
fn prune11(s: IntervalSet) -> IntervalSet
    ensures { members result ≡ prune11 (members s) }
{
    if s.contains(MAJOR_THIRD) && s.contains(ELEVENTH) {
        s.remove_then_add(ELEVENTH, PERFECT_FOURTH)
    } else {
        s
    }
}

pub(crate) fn prune(s: IntervalSet) -> IntervalSet
    ensures { members result ≡ prune11 (prune6 (members s)) }
{
    prune11(prune6(s))
}
