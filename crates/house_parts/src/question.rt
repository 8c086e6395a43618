// Has some accepted text exactly a record's four? A root, no members outside the table, the clauses of its set and K, validation's own test
// of the set, and the display list that they give; or no root and nothing else.
ghost use Rattle.std.specs.Prelude.{true, ◌≡◌, ◌<◌, get_or};
ghost use Rattle.chord.specs.Chord.{four_of};
ghost use Rattle.intervals.specs.Stored.{members, listed};
ghost use Rattle.house_parts.specs.House.{display_by};
ghost use Rattle.house_parts.specs.Question.{all, clauses, realizable, realizable_by, same_list};

use crate::kind::{SusKind, kind_in};
use crate::parts::both;
use chord::Chord;
use intervals::{
    AUGMENTED_FIFTH, AUGMENTED_FOURTH, DIMINISHED_FIFTH, DIMINISHED_SEVENTH, ELEVENTH, FLAT_NINTH,
    FLAT_THIRTEENTH, IntervalList, IntervalSet, MAJOR_SIXTH, MAJOR_THIRD, MINOR_SECOND,
    MINOR_THIRD, NINTH, OCTAVE, PERFECT_FIFTH, SHARP_ELEVENTH, THIRTEENTH, UNISON,
};

// The i-th clause, by its place in `clauses`; a table of closures would be as many arms.
fn clause_at(set: IntervalSet, k: SusKind, i: usize) -> bool
    requires { i < 15 }
    ensures { result ≡ get_or (clauses (members set) k) i true }
{
    match i {
        0 => set.contains(UNISON),
        1 => !set.contains(MINOR_SECOND),
        2 => !set.contains(AUGMENTED_FOURTH),
        3 => !set.contains(OCTAVE),
        4 => !both(set, PERFECT_FIFTH, DIMINISHED_FIFTH),
        5 => !both(set, PERFECT_FIFTH, AUGMENTED_FIFTH),
        6 => !both(set, PERFECT_FIFTH, FLAT_THIRTEENTH),
        7 => !both(set, PERFECT_FIFTH, DIMINISHED_SEVENTH),
        8 => !both(set, DIMINISHED_SEVENTH, AUGMENTED_FIFTH) || set.contains(DIMINISHED_FIFTH),
        9 => !both(set, MAJOR_SIXTH, THIRTEENTH),
        10 => !both(set, MAJOR_THIRD, ELEVENTH),
        11 => !k.is_sus() || !set.contains(MINOR_THIRD),
        12 => !k.is_flat2() || set.contains(FLAT_NINTH),
        13 => !k.is_second() || set.contains(NINTH),
        14 => !k.is_sharp4() || set.contains(SHARP_ELEVENTH),
        _ => true,
    }
}

fn has_clauses(set: IntervalSet, k: SusKind) -> bool
    ensures { result ≡ all (clauses (members set) k) }
{
    // A loop and not `all`, which is not unrolled: each clause then takes a jump by a table (docs/DESIGN-PASS.md).
    for i in 0..15 {
        if !clause_at(set, k, i) {
            return false;
        }
    }
    true
}

// Is the list the one that the set and K give?
fn is_display(list: IntervalList, set: IntervalSet, k: SusKind) -> bool
    ensures { result ≡ same_list (listed list) (display_by k (members set)) }
{
    list.same(display::display(k.sus(), set))
}

fn is_realizable_by(k: SusKind, set: IntervalSet, list: IntervalList) -> bool
    ensures { result ≡ realizable_by k (members set) (listed list) }
{
    has_clauses(set, k) && validator::is_valid_set(set) && is_display(list, set, k)
}

// The question, of any record. One without a root has a text if it is the record of no chord.
pub fn is_realizable(chord: Chord) -> bool
    ensures { result ≡ realizable (four_of chord) }
{
    if chord.root.is_none() {
        return chord.same(Chord::new());
    }
    chord.normalized.is_within()
        && is_realizable_by(
            kind_in(chord.normalized, chord.display),
            chord.normalized,
            chord.display,
        )
}
