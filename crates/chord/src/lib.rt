// The chord record.
#![tactic(auto)]

ghost use Rattle.std.specs.Prelude.{◌↔◌, ◌≡◌, true};
ghost use Rattle.chord.specs.Chord.{four_of, no_chord, record_of};

use intervals::{IntervalList, IntervalSet};
use note::Note;

// Root, slash bass or none, normalized set and display list. Every value is a record that a caller may hand over, also one without a root.
#[derive(Clone, Copy, PartialEq, Eq)]
pub struct Chord {
    pub root: Option<Note>,
    pub bass: Option<Note>,
    pub normalized: IntervalSet,
    pub display: IntervalList,
}

impl Chord {
    // The record without root, bass and intervals.
    pub fn new() -> Chord
        ensures { (result ≡ record_of no_chord) × (four_of result ≡ no_chord) }
    {
        Chord {
            root: None,
            bass: None,
            normalized: IntervalSet::new(),
            display: IntervalList::new(),
        }
    }

    // Have the two records the same four? `==` compares two display lists by the numbers that they list; this is
    // the promise that callers cite.
    pub fn same(self, other: Chord) -> bool
        ensures { (result ≡ true) ↔ (four_of self ≡ four_of other) }
    {
        self == other
    }
}
