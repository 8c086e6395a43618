// Which parts the house spelling of a set and K names.
ghost use Rattle.std.specs.Prelude.{not, ◌&&◌, ◌||◌, ◌≡◌, ◌<◌};
ghost use Rattle.intervals.specs.Stored.{members};
ghost use Rattle.note.specs.Note.{OptionalNote};
ghost use Rattle.house_parts.specs.House.{condition_at, is_sus, omit3, omit5, parts};

use crate::kind::SusKind;
use intervals::{
    AUGMENTED_FIFTH, DIMINISHED_FIFTH, DIMINISHED_SEVENTH, ELEVENTH, FLAT_NINTH, FLAT_THIRTEENTH,
    IntervalSet, MAJOR_SECOND, MAJOR_SEVENTH, MAJOR_SIXTH, MAJOR_THIRD, MINOR_SEVENTH, MINOR_SIXTH,
    MINOR_THIRD, NINTH, PERFECT_FIFTH, PERFECT_FOURTH, SHARP_ELEVENTH, SHARP_NINTH, THIRTEENTH,
};

// Are both members?
pub(crate) fn both(set: IntervalSet, a: u8, b: u8) -> bool
    requires { (a < 23) × (b < 23) }
    ensures { result ≡ (members set a && members set b) }
{
    set.contains(a) && set.contains(b)
}

// Is it a member, where b is not so?
fn but(set: IntervalSet, interval: u8, b: bool) -> bool
    requires { interval < 23 }
    ensures { result ≡ (members set interval && not b) }
{
    set.contains(interval) && !b
}

// No third, or both 3 and bb7.
fn lacks_third(set: IntervalSet) -> bool
    ensures { result ≡ (not (members set 3) && not (members set 4) || members set 4 && members set 12) }
{
    if set.contains(MAJOR_THIRD) {
        set.contains(DIMINISHED_SEVENTH)
    } else {
        !set.contains(MINOR_THIRD)
    }
}

fn is_omit3(set: IntervalSet, k: SusKind) -> bool
    ensures { result ≡ omit3 (members set) k }
{
    !k.is_sus() && lacks_third(set)
}

fn is_omit5(set: IntervalSet) -> bool
    ensures { result ≡ omit5 (members set) }
{
    !set.contains(PERFECT_FIFTH)
        && !set.contains(DIMINISHED_FIFTH)
        && !set.contains(AUGMENTED_FIFTH)
        && (!set.contains(FLAT_THIRTEENTH) || set.contains(DIMINISHED_SEVENTH))
}

// 3, only with K or bb7.
fn is_add3(set: IntervalSet, k: SusKind) -> bool
    ensures { result ≡ (members set 4 && (is_sus k || members set 12)) }
{
    set.contains(MAJOR_THIRD) && (k.is_sus() || set.contains(DIMINISHED_SEVENTH))
}

// Is the i-th part named? The last, the bass, is not asked for here. A match on the place, since `condition_at`
// asks by place; a list of closures would have as many arms.
pub fn is_named(set: IntervalSet, k: SusKind, i: usize) -> bool
    requires { i < 23 }
    ensures { (b : OptionalNote) → result ≡ condition_at i (parts (λ j. 0) b (members set) k) }
{
    match i {
        0 => set.contains(DIMINISHED_SEVENTH),
        1 => but(set, MINOR_THIRD, set.contains(DIMINISHED_SEVENTH)),
        2 => but(set, DIMINISHED_FIFTH, set.contains(DIMINISHED_SEVENTH)),
        3 => set.contains(AUGMENTED_FIFTH),
        4 => set.contains(MINOR_SEVENTH),
        5 => k.is_flat2(),
        6 => k.is_second(),
        7 => k.is_sharp4(),
        8 => is_omit3(set, k),
        9 => is_omit5(set),
        10 => set.contains(MAJOR_SECOND),
        11 => is_add3(set, k),
        12 => set.contains(PERFECT_FOURTH),
        13 => set.contains(MINOR_SIXTH),
        14 => set.contains(MAJOR_SIXTH),
        15 => set.contains(MAJOR_SEVENTH),
        16 => but(set, FLAT_NINTH, k.is_flat2()),
        17 => but(set, NINTH, k.is_second()),
        18 => set.contains(SHARP_NINTH),
        19 => set.contains(ELEVENTH),
        20 => but(set, SHARP_ELEVENTH, k.is_sharp4()),
        21 => set.contains(FLAT_THIRTEENTH),
        22 => set.contains(THIRTEENTH),
        _ => false,
    }
}
