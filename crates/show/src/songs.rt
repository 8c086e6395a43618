// Song lines, bar by bar.
ghost use Rattle.std.specs.Prelude.{◌≤◌, length};

use crate::put_reading;
use song::{Answer, Step};
use std::io;
use std::io::Write;

// A line has 4,097 bars at most, and the step behind the last says end.
const MOST_STEPS: u64 = 4098;

// Is a text a song line?
pub(crate) fn is_song(text: &[u8]) -> bool {
    text.contains(&b'|')
}

// What a step said: of a bar its number, and below it what there is to say of the bar's text; nothing of the end.
fn put_step<W: Write>(
    to: &mut W,
    line: &[u8],
    step: Step,
    number: u64,
    errs: &[u16],
) -> io::Result<()>
    requires { (step.from ≤ step.to) × (step.to ≤ length line.now) }
{
    match step.answer {
        Answer::TooLong => writeln!(to, "the line has more than 4096 bytes"),
        Answer::End => Ok(()),
        Answer::Bar(read) => {
            writeln!(to, "bar {number}")?;
            put_reading(to, &line[step.from..step.to], read, errs)
        }
    }
}

// Prints every bar of a line, numbered from 1, also those behind one that is refused. A step that stays where it is, with end or 8, is the
// last.
pub(crate) fn show_song<W: Write>(to: &mut W, line: &[u8], errs: &mut [u16]) -> io::Result<()> {
    let mut at = 0;
    for number in 1..=MOST_STEPS {
        let step = song::step_at(line, at, errs);
        put_step(to, line, step, number, errs)?;
        if step.next == at {
            return Ok(());
        }
        at = step.next;
    }
    Ok(())
}
