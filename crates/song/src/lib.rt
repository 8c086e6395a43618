// Song lines: a step reads the bar at a position.
#![tactic(auto)]

ghost use Rattle.std.specs.Prelude.{◌≡◌};
ghost use Rattle.song.specs.State.{Stepped, shown};

use bars::{Found, Place};
use chord::Chord;
use reader::Refusal;

// What a step says: a line that is too long (8), the end, or what reading the bar's text gives.
#[derive(Clone, Copy)]
pub enum Answer {
    TooLong,
    End,
    Bar(Result<Chord, Refusal>),
}

// What a step says, where the bar lies in the line (from its first byte to the one behind its last), and where the next step begins, which
// does not depend on what reading gave. Without a bar the place is 0 to 0, as a `Place` has it (`Stepped`).
#[derive(Clone, Copy)]
pub struct Step {
    pub answer: Answer,
    pub from: usize,
    pub to: usize,
    pub next: usize,
}

// The step that says this of a place: where it lies, and where the next one begins, does not depend on what is said.
fn step_with(answer: Answer, place: Place) -> Step
    ensures { result ≡ record { answer = answer; from = place.from; to = place.to; next = place.next } }
{
    Step {
        answer,
        from: place.from,
        to: place.to,
        next: place.next,
    }
}

// The step at any position of any line, with any lent list for the errors of its bar.
pub fn step_at(line: &[u8], at: usize, errs: &mut [u16]) -> Step
    ensures { Stepped line.now at (shown result) errs.old errs.new }
{
    let place = bars::place_at(line, at);
    match place.found {
        Found::TooLong => step_with(Answer::TooLong, place),
        Found::End => step_with(Answer::End, place),
        Found::Bar => {
            let read = reader::read(&line[place.from..place.to], errs);
            step_with(Answer::Bar(read), place)
        }
    }
}
