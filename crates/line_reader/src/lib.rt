// Song lines: a reader that holds the line and its position hands out one bar after the other.
#![tactic(auto)]

ghost use Rattle.std.specs.Prelude.{◌≡◌};
ghost use Rattle.line_reader.specs.State.{NextStepped, next_shown};

use song::Step;

// A lent line and a position in it, which may be any.
#[derive(Clone, Copy)]
pub struct LineReader<'a> {
    pub line: &'a [u8],
    pub at: usize,
}

// A step, its bar as a part of the line, and the reader after it.
#[derive(Clone, Copy)]
pub struct NextStep<'a> {
    pub step: Step,
    pub bar: &'a [u8],
    pub reader: LineReader<'a>,
}

impl<'a> LineReader<'a> {
    // A reader at a position of a line: 0 for its first bar.
    pub fn new(line: &'a [u8], at: usize) -> LineReader<'a>
        ensures { (result.line ≡ line.entry) × (result.at ≡ at) }
    {
        LineReader { line, at }
    }

    // The reader's next step, with any lent list: its bar is cut out of the line, and the reader moves on.
    pub fn next(self, errs: &mut [u16]) -> NextStep<'a>
        ensures { NextStepped self.entry (next_shown result) errs.old errs.new }
    {
        let step = song::step_at(self.line, self.at, errs);
        NextStep {
            step,
            bar: bars::part(self.line, step.from, step.to),
            reader: LineReader {
                at: step.next,
                ..self
            },
        }
    }
}
