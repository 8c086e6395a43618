// A line protocol: one question a line, whose first word says which, and one answer a line. `read LIST TEXT` reads a text with a lent
// list of LIST numbers, `spell TEXT` gives its house spelling, and `write BUFFER RECORD` writes a record into a lent buffer of BUFFER
// bytes. `step LIST POSITION LINE` takes the step at a position of a song line, and `song LINE` all steps from its start to the first
// `end` or `8`, a line each. `bar K LENGTH BYTES` says where bar K lies in a song whose body is the first LENGTH of the bytes and whose
// ending is the rest. `midi BASE ROOM RECORD` goes from the keys that sound to those of a record over base key BASE, with a lent output of
// ROOM bytes, and `midi silence` begins again in silence; the keys sound on from line to line. A line that is no question is answered `?`
// and why. What waits is written where a block of input ends, so that a caller who waits for an answer gets it.
#![tactic(auto)]

mod answer;
mod bar;
mod fault;
mod number;
mod record;
mod sounding;
mod steps;

use answer::{put_reading, put_spelling, put_written};
use bar::put_numbered;
use chord::Chord;
use fault::Fault;
use keys::Keys;
use lines::Lines;
use number::Words;
use output::Output;
use sounding::put_change;
use std::io;
use std::io::Write;
use steps::{put_song, put_step};

// A LIST above this counts as this.
const LONGEST_LIST: usize = 1028;

// A BUFFER or a ROOM above this counts as this.
const LARGEST_BUFFER: usize = 4096;

// The longest question, in bytes.
const LONGEST_LINE: usize = 16384;

// A question. Its lists and buffers may be asked for in any size.
#[derive(Clone, Copy)]
enum Question<'a> {
    Read {
        list: u64,
        text: &'a [u8],
    },
    Spell {
        text: &'a [u8],
    },
    Write {
        buffer: u64,
        record: Option<Chord>,
    },
    Step {
        list: u64,
        position: u64,
        line: &'a [u8],
    },
    Song {
        line: &'a [u8],
    },
    Bar {
        number: u64,
        body: &'a [u8],
        ending: &'a [u8],
    },
    Midi {
        base: u8,
        room: u64,
        record: Option<Chord>,
    },
    Silence,
}

// `read LIST TEXT`, behind its first word; so below.
fn parse_read(mut words: Words) -> Result<Question, Fault> {
    let list = words.number_or_largest()?;
    let text = words.rest();
    Ok(Question::Read { list, text })
}

// `write BUFFER RECORD`.
fn parse_write(mut words: Words) -> Result<Question, Fault> {
    let buffer = words.number_or_largest()?;
    let record = words.record()?;
    Ok(Question::Write { buffer, record })
}

// `step LIST POSITION LINE`.
fn parse_step(mut words: Words) -> Result<Question, Fault> {
    let list = words.number_or_largest()?;
    let position = words.number()?;
    let line = words.rest();
    Ok(Question::Step {
        list,
        position,
        line,
    })
}

// `bar K LENGTH BYTES`. A LENGTH above the count of bytes is too large.
fn parse_bar(mut words: Words) -> Result<Question, Fault> {
    let number = words.number()?;
    let length = words.number()? as usize;
    let bytes = words.rest();
    if bytes.len() < length {
        return Err(Fault::LargeNumber);
    }
    let (body, ending) = bytes.split_at(length);
    Ok(Question::Bar {
        number,
        body,
        ending,
    })
}

// `midi silence`, or `midi BASE ROOM RECORD`. A BASE that is no byte is too large.
fn parse_midi(mut words: Words) -> Result<Question, Fault> {
    if let b"silence" = words.rest() {
        return Ok(Question::Silence);
    }
    let base = u8::try_from(words.number()?).map_err(|_| Fault::LargeNumber)?;
    let room = words.number_or_largest()?;
    let record = words.record()?;
    Ok(Question::Midi { base, room, record })
}

// The question that a line asks. The first thing that is wrong with it is what is wrong.
fn parse(line: &[u8]) -> Result<Question, Fault> {
    if LONGEST_LINE < line.len() {
        return Err(Fault::LongLine);
    }
    let mut words = Words::new(line);
    match words.word() {
        b"read" => parse_read(words),
        b"spell" => Ok(Question::Spell { text: words.rest() }),
        b"write" => parse_write(words),
        b"step" => parse_step(words),
        b"song" => Ok(Question::Song { line: words.rest() }),
        b"bar" => parse_bar(words),
        b"midi" => parse_midi(words),
        _ => Err(Fault::NoQuestion),
    }
}

// The first n of what there is to lend; all where there are fewer.
fn lent<T>(all: &mut [T], n: u64) -> &mut [T] {
    let n = all.len().min(n as usize);
    &mut all[..n]
}

// Answers `read`.
fn answer_read(out: &mut Output, list: u64, text: &[u8]) {
    let mut errs = [0u16; LONGEST_LIST];
    let errs = lent(&mut errs, list);
    let read = reader::read(text, errs);
    put_reading(out, read, errs);
}

// Answers `spell`.
fn answer_spell(out: &mut Output, text: &[u8]) {
    let mut errs = [0u16; LONGEST_LIST];
    put_spelling(out, reader::read(text, &mut errs));
}

// Answers `write`.
fn answer_write(out: &mut Output, buffer: u64, record: Option<Chord>) {
    let mut bytes = [0u8; LARGEST_BUFFER];
    put_written(out, record, lent(&mut bytes, buffer));
}

// Answers `step`.
fn answer_step<W: Write>(
    to: &mut W,
    out: &mut Output,
    list: u64,
    position: u64,
    line: &[u8],
) -> io::Result<()> {
    let mut errs = [0u16; LONGEST_LIST];
    put_step(to, out, line, position as usize, lent(&mut errs, list))?;
    Ok(())
}

// Answers `song`.
fn answer_song<W: Write>(to: &mut W, out: &mut Output, line: &[u8]) -> io::Result<()> {
    let mut errs = [0u16; LONGEST_LIST];
    put_song(to, out, line, &mut errs)
}

// Answers `midi` with a record.
fn answer_midi(out: &mut Output, keys: &mut Keys, base: u8, room: u64, record: Option<Chord>) {
    let mut bytes = [0u8; LARGEST_BUFFER];
    put_change(out, keys, base, record, lent(&mut bytes, room));
}

// Answers `midi silence`.
fn silence(out: &mut Output, keys: &mut Keys) {
    *keys = Keys::new();
    out.put_bytes(b"0 0");
}

// Answers a question. Only `midi` changes the keys that sound.
fn answer_question<W: Write>(
    to: &mut W,
    out: &mut Output,
    keys: &mut Keys,
    question: Question,
) -> io::Result<()> {
    match question {
        Question::Read { list, text } => answer_read(out, list, text),
        Question::Spell { text } => answer_spell(out, text),
        Question::Write { buffer, record } => answer_write(out, buffer, record),
        Question::Step {
            list,
            position,
            line,
        } => answer_step(to, out, list, position, line)?,
        Question::Song { line } => answer_song(to, out, line)?,
        Question::Bar {
            number,
            body,
            ending,
        } => put_numbered(out, body, ending, number as usize),
        Question::Midi { base, room, record } => answer_midi(out, keys, base, room, record),
        Question::Silence => silence(out, keys),
    }
    Ok(())
}

// Answers a line.
fn answer_line<W: Write>(
    to: &mut W,
    out: &mut Output,
    keys: &mut Keys,
    line: &[u8],
) -> io::Result<()> {
    match parse(line) {
        Ok(question) => answer_question(to, out, keys, question)?,
        Err(fault) => out.put_bytes(fault.text().as_bytes()),
    }
    out.put(b'\n');
    Ok(())
}

fn main(rt: HostRuntime) -> io::Result<()> {
    let mut waiting = [0u8; 65536];
    let mut line = [0u8; 16385];
    let mut block = [0u8; 65536];
    let mut keys = Keys::new();
    Lines::new(&mut block, &mut line).answer_all(
        &mut rt.stdin(),
        &mut rt.stdout(),
        &mut Output::new(&mut waiting),
        |to, out, _, line| answer_line(to, out, &mut keys, line),
    )
}
