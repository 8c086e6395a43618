// A bar of a body and an ending by its number: which of the two lines has it, and where.
ghost use Rattle.std.specs.Prelude.{◌≤◌};

use crate::answer::{put_answer, put_next};
use endings::{Answer, Spot};
use output::Output;

// Appends 0, the number of the line that has a bar, and the bar's place and length there.
fn put_place(out: &mut Output, line: u64, spot: Spot)
    requires { spot.from ≤ spot.to }
{
    put_answer(out, 0);
    put_next(out, line);
    put_next(out, spot.from as u64);
    put_next(out, (spot.to - spot.from) as u64);
}

// Looks a bar number up in a body and an ending, and appends the answer.
pub(crate) fn put_numbered(out: &mut Output, body: &[u8], ending: &[u8], number: usize) {
    let spot = endings::spot_of(body, ending, number);
    match spot.answer {
        Answer::TooLong | Answer::NoBar => put_answer(out, u8::from(spot.answer)),
        Answer::Body => put_place(out, 0, spot),
        Answer::Ending => put_place(out, 1, spot),
    }
}
