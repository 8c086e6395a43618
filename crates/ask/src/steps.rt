// The steps of a song line: the new position, and what the step said.
ghost use Rattle.std.specs.Prelude.{◌≤◌};

use crate::answer::{put_next, put_reading};
use chord::Chord;
use output::Output;
use reader::Refusal;
use song::{Answer, Step};
use std::io;
use std::io::Write;

// Half of the output's buffer: where so much waits it is written before the next answer. The longest, 257 errors, is below 8,000 bytes.
const HALF: usize = 32768;

// A line has 4,097 bars at most, and the step behind the last says end.
const MOST_STEPS: usize = 4098;

// Appends where a bar lies, and what it was answered.
fn put_bar(out: &mut Output, read: Result<Chord, Refusal>, step: Step, errs: &[u16])
    requires { step.from ≤ step.to }
{
    out.put_bytes(b" bar");
    put_next(out, step.from as u64);
    put_next(out, (step.to - step.from) as u64);
    out.put(b' ');
    put_reading(out, read, errs);
}

// Appends what a step said.
fn put_said(out: &mut Output, step: Step, errs: &[u16])
    requires { step.from ≤ step.to }
{
    match step.answer {
        Answer::TooLong => out.put_bytes(b" 8"),
        Answer::End => out.put_bytes(b" end"),
        Answer::Bar(read) => put_bar(out, read, step, errs),
    }
}

// Takes the step at a position with a lent list, makes room for its answer, appends it, and gives the new position.
pub(crate) fn put_step<W: Write>(
    to: &mut W,
    out: &mut Output,
    line: &[u8],
    at: usize,
    errs: &mut [u16],
) -> io::Result<usize> {
    let step = song::step_at(line, at, errs);
    out.room(to, HALF)?;
    out.put_number(step.next as u64, 0);
    put_said(out, step, errs);
    Ok(step.next)
}

// Appends the steps from the line's start on, a line each. The first that stays where it is, with end or 8, is the last.
pub(crate) fn put_song<W: Write>(
    to: &mut W,
    out: &mut Output,
    line: &[u8],
    errs: &mut [u16],
) -> io::Result<()> {
    let mut at = 0;
    for _ in 0..MOST_STEPS {
        let next = put_step(to, out, line, at, errs)?;
        if next == at {
            return Ok(());
        }
        out.put(b'\n');
        at = next;
    }
    Ok(())
}
