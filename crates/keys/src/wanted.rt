// The keys that a chord wants.
ghost use Rattle.std.specs.Prelude.{List, [], ◌∷◌, ◌++◌, ◌≡◌, ◌+◌, ◌<◌, ℤ, pos};
ghost use Rattle.chord.specs.Chord.{four_of};
ghost use Rattle.intervals.specs.Stored.{listed};
ghost use Rattle.keys.specs.Keys.{bass_keys, display_keys, keys_of};
ghost use Rattle.keys.specs.Stored.{Wants};
ghost use Rattle.note.specs.Note.{pitch_class};

use crate::Keys;
use chord::Chord;
use intervals::{IntervalList, semitones_or_zero};
use note::Note;

// Those from 0 to 127 of the keys that a chord wants, and whether it wants others. No Option: `keys_of` tells the keys from 0 to 127 also
// where others fall outside (`Wants`).
#[derive(Clone, Copy)]
pub struct Wanted {
    pub keys: Keys,
    pub outside: bool,
}

// A base key plus the pitch class of a note.
fn key_of(base: u8, note: Note) -> u16
    ensures { (result ≡ base + pitch_class note) × (result < 267) }
{
    u16::from(base) + u16::from(note.pitch_class())
}

// One key more.
fn add(w: Wanted, key: u16) -> Wanted
    ensures { (zs : List ℤ) → Wants w zs → Wants result (zs ++ (pos key ∷ [])) }
{
    if key < 128 {
        Wanted {
            keys: w.keys.insert(key as u8),
            ..w
        }
    } else {
        Wanted { outside: true, ..w }
    }
}

// The keys of the intervals of a list, over the key of the root.
fn add_list(from: u16, list: IntervalList) -> Wanted
    requires { from < 267 }
    ensures { Wants result (display_keys from (listed list)) }
{
    let mut w = Wanted {
        keys: Keys::new(),
        outside: false,
    };
    for interval in list.as_slice() {
        w = add(w, from + u16::from(semitones_or_zero(*interval)));
    }
    w
}

// The key of a bass, an octave lower, if there is one.
fn add_bass(w: Wanted, base: u8, bass: Option<Note>) -> Wanted
    ensures { (zs : List ℤ) → Wants w zs → Wants result (zs ++ bass_keys base bass) }
{
    match bass {
        None => w,
        Some(note) => {
            let key = key_of(base, note);
            if 12 <= key {
                return add(w, key - 12);
            }
            Wanted { outside: true, ..w }
        }
    }
}

// The keys that a chord wants over a base key; without a root, none.
pub fn keys_of(base: u8, chord: Chord) -> Wanted
    ensures { Wants result (keys_of base (four_of chord)) }
{
    match chord.root {
        None => Wanted {
            keys: Keys::new(),
            outside: false,
        },
        Some(note) => {
            let w = add_list(key_of(base, note), chord.display);
            add_bass(w, base, chord.bass)
        }
    }
}
