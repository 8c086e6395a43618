// The bars of a song line: where the bar at a position lies, and the part of the line that it is.
#![tactic(auto)]

ghost use Rattle.std.specs.Prelude.{◌≡◌, ◌≤◌, length};
ghost use Rattle.bars.specs.Bars.{bar, bar_end, place_at, stayed};
ghost use Rattle.bars.specs.State.{Part};

pub const STROKE: u8 = b'|';

pub const LONGEST_LINE: usize = 4096;

// What a step at a position finds: a line that is too long (8), the end, or a bar.
#[derive(Clone, Copy)]
pub enum Found {
    TooLong,
    End,
    Bar,
}

// What a step finds, where the bar lies (from its first byte to the one behind its last), and where the reader goes. No Option or Result:
// the place that the reader goes to is said of every step, also of one without a bar (`stayed`), and so are `from` and `to`.
#[derive(Clone, Copy)]
pub struct Place {
    pub found: Found,
    pub from: usize,
    pub to: usize,
    pub next: usize,
}

// How long the bar is that a line begins with.
#[tactic(auto, using(crate::proofs::Laws::first_stroke))]
fn bar_length(line: &[u8]) -> usize
    ensures length { result ≡ length (bar line.now) }
    ensures within { result ≤ length line.now }
{
    line.iter().position(|b| *b == STROKE).unwrap_or(line.len())
}

// Where the bar at a position ends.
fn bar_end(line: &[u8], at: usize) -> usize
    requires { at ≤ length line.now }
    ensures place { result ≡ bar_end line.now at }
    ensures within { result ≤ length line.now }
{
    at + bar_length(&line[at..])
}

// Nothing of the line, and the reader stays.
fn stays(found: Found, at: usize) -> Place
    ensures { result ≡ stayed found at }
{
    Place {
        found,
        from: 0,
        to: 0,
        next: at,
    }
}

// The step at any position of any line.
#[tactic(auto, unfolding(crate::specs::Bars::place_at))]
pub fn place_at(line: &[u8], at: usize) -> Place
    ensures { result ≡ place_at line.now at }
{
    if LONGEST_LINE < line.len() {
        return stays(Found::TooLong, at);
    }
    if line.len() < at {
        return stays(Found::End, at);
    }
    let to = bar_end(line, at);
    Place {
        found: Found::Bar,
        from: at,
        to,
        next: to + 1,
    }
}

// A part of a line, from one place of the caller's to another.
pub fn part<'a>(line: &'a [u8], from: usize, to: usize) -> &'a [u8]
    requires { (from ≤ to) × (to ≤ length line.now) }
    ensures { Part line.entry from to result }
{
    &line[from..to]
}
