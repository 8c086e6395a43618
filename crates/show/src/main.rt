// For people: reads texts, from the arguments or else from the lines of standard input, and prints for each its house spelling, root,
// bass, intervals by name and the pitch classes that sound (C 0 to B 11, with the bass); for a blank text that there is no chord; for a
// refused text each error in plain words, with a caret under its place in the text. A text with a `|` is a song line, and each of its bars
// is shown so, below its number. A line is kept up to its 4,098th byte: one that is cut has more than 4,096 without a carriage return too.
// A `|` behind them is not looked for.
#![tactic(auto)]

mod chords;
mod errors;
mod print;
mod songs;

use chord::Chord;
use chords::put_chord;
use errors::put_errors;
use lines::Lines;
use reader::Refusal;
use songs::{is_song, show_song};
use std::env::{Env, FillError};
use std::io;
use std::io::{Read, Write};

// Prints what there is to say of a text that was read.
pub(crate) fn put_reading<W: Write>(
    to: &mut W,
    text: &[u8],
    read: Result<Chord, Refusal>,
    errs: &[u16],
) -> io::Result<()> {
    match (read, str::from_utf8(text)) {
        (Err(Refusal::ShortList), _) => writeln!(to, "the list of errors is too short"),
        (Err(Refusal::LongText), _) => writeln!(to, "the text has more than 256 bytes"),
        (Err(Refusal::NotUtf8), _) | (_, Err(_)) => writeln!(to, "the text is not UTF-8"),
        (Ok(chord), Ok(text)) => put_chord(to, text, chord),
        (Err(Refusal::Parse(n) | Refusal::Validation(n)), Ok(text)) => put_errors(
            to, text, errs, n,
        ),
    }
}

// Reads a text, or the bars of a song line, and prints what there is to say of it.
fn show<W: Write>(to: &mut W, text: &[u8]) -> io::Result<()> {
    let mut errs = [0u16; 1028];
    if is_song(text) {
        return show_song(to, text, &mut errs);
    }
    let read = reader::read(text, &mut errs);
    put_reading(to, text, read, &errs)
}

// What of a line is the card: a carriage return before the newline belongs to the line's end.
fn card(line: &[u8], has_newline: bool) -> &[u8] {
    match line {
        [text @ .., b'\r'] if has_newline => text,
        _ => line,
    }
}

// Shows every line of the input. What is ready where no call may follow had no newline.
// Step by step: `answer_all` does not tell whether a line had its newline.
fn show_lines<R: Read, W: Write>(from: &mut R, to: &mut W, lines: &mut Lines) -> io::Result<()> {
    while 0 < lines.input.left {
        lines.next(from)?;
        let has_newline = 0 < lines.input.left;
        if let Some(line) = lines.ready() {
            show(to, card(line, has_newline))?;
        }
    }
    Ok(())
}

// Shows an argument, and says whether there is one. Of one that does not fit the first 4,097 bytes are there, too many for a text and for
// a song line.
fn show_argument<W: Write>(to: &mut W, rt: HostRuntime, i: usize) -> io::Result<bool> {
    let mut text = [0u8; 4097];
    match rt.arg(i, &mut text) {
        Ok(n) => show(to, &text[..n])?,
        Err(FillError::TooLong) => show(to, &text)?,
        Err(FillError::NotPresent) => return Ok(false),
    }
    Ok(true)
}

// Shows every argument behind the program's name, and says whether there is one.
fn show_arguments<W: Write>(to: &mut W, rt: HostRuntime) -> io::Result<bool> {
    for i in 1..usize::MAX {
        if !show_argument(to, rt, i)? {
            return Ok(1 < i);
        }
    }
    Ok(true)
}

fn main(rt: HostRuntime) -> io::Result<()> {
    let mut to = rt.stdout();
    if show_arguments(&mut to, rt)? {
        return Ok(());
    }
    let mut line = [0u8; 4098];
    let mut block = [0u8; 4096];
    let mut lines = Lines::new(&mut block, &mut line);
    show_lines(&mut rt.stdin(), &mut to, &mut lines)
}
