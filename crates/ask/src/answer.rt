// The answers: numbers with one space between, and spellings. Each begins with its number: 0, or that of a refusal.
use chord::Chord;
use intervals::{IntervalList, IntervalSet};
use note::Note;
use output::Output;
use reader::Refusal;

// The length of a buffer that has room for each spelling.
const LONGEST_SPELLING: usize = 112;

// Why a text has no spelling: it was refused, or its record was.
#[derive(Clone, Copy, PartialEq, Eq)]
enum Unspelled {
    Read(Refusal),
    Written(writer::Refusal),
}

impl Unspelled {
    fn number(self) -> u8 {
        match self {
            Unspelled::Read(refusal) => u8::from(refusal),
            Unspelled::Written(refusal) => u8::from(refusal),
        }
    }
}

impl From<Refusal> for Unspelled {
    fn from(refusal: Refusal) -> Unspelled {
        Unspelled::Read(refusal)
    }
}

impl From<writer::Refusal> for Unspelled {
    fn from(refusal: writer::Refusal) -> Unspelled {
        Unspelled::Written(refusal)
    }
}

// Appends the number of an answer.
pub(crate) fn put_answer(out: &mut Output, number: u8) {
    out.put_number(u64::from(number), 0);
}

// Appends a number behind a space.
pub(crate) fn put_next(out: &mut Output, n: u64) {
    out.put(b' ');
    out.put_number(n, 0);
}

// Appends a note's letter and alteration, or -1 and 0 where there is none.
fn put_note(out: &mut Output, note: Option<Note>) {
    match note {
        None => out.put_bytes(b" -1 0"),
        Some(n) => {
            put_next(out, u64::from(u8::from(n.literal)));
            put_alteration(out, i8::from(n.modifier));
        }
    }
}

fn put_alteration(out: &mut Output, alteration: i8) {
    out.put_bytes(match alteration {
        ..0 => b" -1".as_slice(),
        0 => b" 0",
        _ => b" 1",
    });
}

// Appends the count of the members of a set, and the members. As in the listing, but each number behind one space and in no column.
fn put_set(out: &mut Output, set: IntervalSet) {
    put_next(out, (0..23).filter(|i| set.contains(*i)).count() as u64);
    for i in (0..23).filter(|i| set.contains(*i)) {
        put_next(out, u64::from(i));
    }
}

// Appends the count of the numbers of a list, and the numbers.
fn put_list(out: &mut Output, list: IntervalList) {
    let numbers = list.as_slice();
    put_next(out, numbers.len() as u64);
    for number in numbers {
        put_next(out, u64::from(*number));
    }
}

// Appends 0, and a record.
fn put_record(out: &mut Output, chord: Chord) {
    put_answer(out, 0);
    put_note(out, chord.root);
    put_note(out, chord.bass);
    put_set(out, chord.normalized);
    put_list(out, chord.display);
}

// Appends a count of errors, and the errors, four numbers each, which the list begins with.
fn put_errors(out: &mut Output, errs: &[u16], n: u16) {
    put_next(out, u64::from(n));
    for number in errs.iter().take(4 * usize::from(n)) {
        put_next(out, u64::from(*number));
    }
}

// Appends the number of why a text was refused, and the errors, if there are any.
fn put_refusal(out: &mut Output, refusal: Refusal, errs: &[u16]) {
    put_answer(out, u8::from(refusal));
    if let Refusal::Parse(n) | Refusal::Validation(n) = refusal {
        put_errors(out, errs, n);
    }
}

// Appends what a text was answered.
pub(crate) fn put_reading(out: &mut Output, read: Result<Chord, Refusal>, errs: &[u16]) {
    match read {
        Ok(chord) => put_record(out, chord),
        Err(refusal) => put_refusal(out, refusal, errs),
    }
}

// Writes the spelling of what was read and gives its length.
fn spell(read: Result<Chord, Refusal>, buffer: &mut [u8]) -> Result<usize, Unspelled> {
    Ok(writer::write(read?, buffer)?)
}

// Appends the spelling of what was read, or the number.
pub(crate) fn put_spelling(out: &mut Output, read: Result<Chord, Refusal>) {
    let mut buffer = [0u8; LONGEST_SPELLING];
    match spell(read, &mut buffer) {
        Ok(n) => out.put_first(&buffer, n),
        Err(unspelled) => put_answer(out, unspelled.number()),
    }
}

// Appends 0, the length of a spelling, and the spelling, which the buffer begins with.
fn put_spelled(out: &mut Output, buffer: &[u8], n: usize) {
    put_answer(out, 0);
    put_next(out, n as u64);
    out.put(b' ');
    out.put_first(buffer, n);
}

// Appends what a record was answered, with this buffer: behind 0 the length of the spelling, and the spelling.
pub(crate) fn put_written(out: &mut Output, record: Option<Chord>, buffer: &mut [u8]) {
    let written = match record {
        Some(chord) => writer::write(chord, buffer),
        None if buffer.len() < LONGEST_SPELLING => Err(writer::Refusal::ShortBuffer),
        None => Err(writer::Refusal::NoText),
    };
    match written {
        Ok(n) => put_spelled(out, buffer, n),
        Err(refusal) => put_answer(out, u8::from(refusal)),
    }
}
