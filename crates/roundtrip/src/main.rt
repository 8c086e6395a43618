// Every record that some accepted text has, written and read back. For each of the 2^23 sets of intervals and each K the record with that
// set and the display list that they give is put the writer's question; where it is yes, the record is written with every root and every
// bass, and its spelling is read. Without a root the question is put with every bass and with none. Printed: how many pairs of set and
// display list have a text with a root, how many records have one without, how many texts were read, how many of these were refused or
// read as another four, and the length of the longest.
#![tactic(auto)]

use chord::Chord;
use intervals::IntervalSet;
use note::Note;
use output::Output;
use std::io;

// What is counted, and the buffers that a record is written and read in.
#[derive(Drop)]
struct Trips {
    pairs: u64,
    rootless: u64,
    texts: u64,
    wrong: u64,
    longest: usize,
    text: [u8; 112],
    errs: [u16; 1028],
}

// The note of a number below 21.
fn note(number: u8) -> Option<Note> {
    Some(Note::from_number(number))
}

// One more, up to the largest number.
fn count(n: &mut u64) {
    *n = n.saturating_add(1);
}

// Is the text accepted, with the record's four?
fn reads_as(text: &[u8], chord: Chord, errs: &mut [u16]) -> bool {
    reader::read(text, errs).is_ok_and(|read| chord.same(read))
}

// The bytes of a record's spelling.
fn written(chord: Chord, buffer: &mut [u8]) -> Option<&[u8]> {
    let n = writer::write(chord, buffer).ok()?;
    buffer.get(..n)
}

impl Trips {
    // Nothing is counted yet.
    fn new() -> Trips {
        Trips {
            pairs: 0,
            rootless: 0,
            texts: 0,
            wrong: 0,
            longest: 0,
            text: [0; 112],
            errs: [0; 1028],
        }
    }

    // Writes a record and reads its spelling back: a text more, and one more wrong where it is not the record's.
    fn read_back(&mut self, chord: Chord) {
        count(&mut self.texts);
        let text = written(chord, &mut self.text);
        self.longest = self.longest.max(text.map_or(0, |text| text.len()));
        if !text.is_some_and(|text| reads_as(text, chord, &mut self.errs)) {
            count(&mut self.wrong);
        }
    }

    // The record with every bass and none.
    fn with_basses(&mut self, record: Chord) {
        for bass in 0..21 {
            self.read_back(Chord {
                bass: note(bass),
                ..record
            });
        }
        self.read_back(record);
    }

    // The record with every root.
    fn with_roots(&mut self, record: Chord) {
        for root in 0..21 {
            self.with_basses(Chord {
                root: note(root),
                ..record
            });
        }
    }

    // A record without a root, if it has a text.
    fn with_rootless(&mut self, record: Chord) {
        if writer::has_text(record) {
            count(&mut self.rootless);
            self.read_back(record);
        }
    }

    // The record without a root, with every bass and none.
    fn without_root(&mut self, record: Chord) {
        for bass in 0..21 {
            self.with_rootless(Chord {
                bass: note(bass),
                ..record
            });
        }
        self.with_rootless(record);
    }

    // The set and the display list of a record without notes.
    fn with_list(&mut self, record: Chord) {
        self.without_root(record);
        let rooted = Chord {
            root: note(0),
            ..record
        };
        if writer::has_text(rooted) {
            count(&mut self.pairs);
            self.with_roots(record);
        }
    }

    // The set with each display list that it has: that of no first sus, and those of a first sus that are not the same.
    fn with_lists(&mut self, set: IntervalSet) {
        let plain = Chord {
            root: None,
            bass: None,
            normalized: set,
            display: display::display(0, set),
        };
        self.with_list(plain);
        for k in [1, 2, 6] {
            let list = display::display(k, set);
            if !list.same(plain.display) {
                self.with_list(Chord {
                    display: list,
                    ..plain
                });
            }
        }
    }
}

// Appends a number and what it counts.
fn put_count(out: &mut Output, n: u64, of: &[u8]) {
    out.put_number(n, 0);
    out.put_bytes(of);
}

fn main(rt: HostRuntime) -> io::Result<()> {
    let mut trips = Trips::new();
    for bits in 0..8388608 {
        trips.with_lists(IntervalSet { bits });
    }
    let mut waiting = [0u8; 512];
    let mut out = Output::new(&mut waiting);
    put_count(&mut out, trips.pairs, b" pairs of set and display list\n");
    put_count(&mut out, trips.rootless, b" without a root\n");
    put_count(&mut out, trips.texts, b" texts\n");
    put_count(&mut out, trips.wrong, b" refused or read as another four\n");
    put_count(&mut out, trips.longest as u64, b" bytes in the longest\n");
    out.flush(&mut rt.stdout())
}
