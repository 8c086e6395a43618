// Reads each line of standard input as a card and prints the answer, every number right-justified in four columns: the line's number, the
// answer's, and for 0 the root's letter and alteration, the bass's (-1 and 0 where there is none), the count and the members of the
// normalized set and of the display list; for 4 and 5 the count of errors and four numbers for each; for 2 (a text above 256 bytes) and 3
// (one that is not UTF-8) nothing more.
#![tactic(auto)]

use chord::Chord;
use columns::{answer_lines, put, put_errors, put_note_or_none};
use intervals::{IntervalList, IntervalSet};
use lines::Lines;
use output::Output;
use reader::Refusal;
use std::io;

// Appends the count of the members of a set, and the members.
fn put_set(out: &mut Output, set: IntervalSet) {
    put(
        out,
        (0..23).filter(|interval| set.contains(*interval)).count() as u64,
    );
    for interval in 0..23 {
        if set.contains(interval) {
            put(out, u64::from(interval));
        }
    }
}

// Appends the count of the numbers of a list, and the numbers.
fn put_list(out: &mut Output, list: IntervalList) {
    put(out, list.count() as u64);
    for number in list.as_slice() {
        put(out, u64::from(*number));
    }
}

// Appends the record of an accepted text.
fn put_chord(out: &mut Output, chord: Chord) {
    put_note_or_none(out, chord.root);
    put_note_or_none(out, chord.bass);
    put_set(out, chord.normalized);
    put_list(out, chord.display);
}

// Appends the n errors of a refusal, with which the list begins.
fn put_first_errors(out: &mut Output, errs: &[u16], n: u16) {
    if let Some(errors) = errs.get(..4 * usize::from(n)) {
        put_errors(out, errors);
    }
}

// Appends the number of why a text is not accepted, and the errors, if there are any.
fn put_refusal(out: &mut Output, refusal: Refusal, errs: &[u16]) {
    put(out, u64::from(u8::from(refusal)));
    if let Refusal::Parse(n) | Refusal::Validation(n) = refusal {
        put_first_errors(out, errs, n);
    }
}

// Appends the answer to a text.
fn put_answer(out: &mut Output, text: &[u8]) {
    let mut errs = [0u16; 1028];
    match reader::read(text, &mut errs) {
        Ok(chord) => {
            put(out, 0);
            put_chord(out, chord);
        }
        Err(refusal) => put_refusal(out, refusal, &errs),
    }
}

fn main(rt: HostRuntime) -> io::Result<()> {
    let mut waiting = [0u8; 65536];
    let mut line = [0u8; 257];
    let mut block = [0u8; 65536];
    answer_lines(
        &mut Lines::new(&mut block, &mut line),
        &mut rt.stdin(),
        &mut rt.stdout(),
        &mut Output::new(&mut waiting),
        put_answer,
    )
}
