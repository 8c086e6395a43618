// Second endings: a bar of a body and an ending by its number. Bars number from 0 through the body and then on through the ending.
#![tactic(auto)]

ghost use Rattle.std.specs.Prelude.{◌≡◌, ◌≤◌, length};
ghost use Rattle.bars.specs.Bars.{longest_line};
ghost use Rattle.bars.specs.State.{Part};
ghost use Rattle.endings.specs.Endings.{nowhere, number_of, spot_of};
ghost use Rattle.endings.specs.State.{BarAt, Fits, NumberedBy, line_of, spot_from, StartIn};

use bars::{LONGEST_LINE, STROKE};

// What a bar number is answered with: a line that is too long (8), no such bar (9), or a bar of the body or of the ending.
#[derive(Clone, Copy)]
pub enum Answer {
    TooLong,
    NoBar,
    Body,
    Ending,
}

// The paper's number.
impl From<Answer> for u8 {
    ghost from_gives = { λ answer n. n ≡ number_of answer };

    fn from(answer: Answer) -> u8 {
        match answer {
            Answer::TooLong => 8,
            Answer::NoBar => 9,
            Answer::Body | Answer::Ending => 0,
        }
    }
}

// The answer to a bar number, and where the bar lies in the line that has it, from its first byte to the one behind its last. Without a
// bar that is 0 to 0. No Result: `bar_of` hands out the part at the spot of any answer (`BarAt`), and theorems speak of the answer of every
// spot (`SpotByNumber`, `EachOnce`, `BarsInOrder`).
#[derive(Clone, Copy)]
pub struct Spot {
    pub answer: Answer,
    pub from: usize,
    pub to: usize,
}

// A spot, and the bar that lies there as a part of its line.
#[derive(Clone, Copy)]
pub struct NumberedBar<'a> {
    pub spot: Spot,
    pub bar: &'a [u8],
}

// Where the bar of a number starts in a line; or, where the line has too few, its number counted from the bar behind the line's last. The
// bytes in front of it are looked at once, and none behind its start.
fn start_of(line: &[u8], number: usize) -> Result<usize, usize>
    ensures { StartIn line.now number result }
{
    let mut left = number;
    for (i, b) in line.iter().enumerate() {
        if left == 0 {
            return Ok(i);
        }
        if *b == STROKE {
            left -= 1;
        }
    }
    if left == 0 {
        Ok(line.len())
    } else {
        Err(left - 1)
    }
}

// The spot of the bar that starts at a place of a line. Its bytes are looked at once.
#[tactic(auto, using(bars::proofs::Laws::place_here))]
fn spot_in(line: &[u8], from: usize, answer: Answer) -> Spot
    requires { (length line.now ≤ longest_line) × (from ≤ length line.now) }
    ensures { result ≡ spot_from answer line.now from }
{
    Spot {
        answer,
        from,
        to: bars::place_at(line, from).to,
    }
}

// No bar.
fn no_spot(answer: Answer) -> Spot
    ensures { result ≡ nowhere answer }
{
    Spot {
        answer,
        from: 0,
        to: 0,
    }
}

// Where the bar of any number lies in any two lines.
#[tactic(auto, using(crate::proofs::Spots::found), unfolding(crate::specs::Endings::spot_of))]
pub fn spot_of<'a>(body: &'a [u8], ending: &'a [u8], number: usize) -> Spot
    ensures { result ≡ spot_of body.now ending.now number }
{
    if LONGEST_LINE < body.len() || LONGEST_LINE < ending.len() {
        return no_spot(Answer::TooLong);
    }
    match start_of(body, number) {
        Ok(from) => spot_in(body, from, Answer::Body),
        Err(left) => match start_of(ending, left) {
            Ok(from) => spot_in(ending, from, Answer::Ending),
            Err(_) => no_spot(Answer::NoBar),
        },
    }
}

// The part of its line that lies at a spot: of the ending, or else of the body.
fn part_of<'a>(body: &'a [u8], ending: &'a [u8], spot: Spot) -> &'a [u8]
    requires { Fits spot body.now ending.now }
    ensures { Part (line_of spot.answer body.entry ending.entry) spot.from spot.to result }
{
    match spot.answer {
        Answer::Ending => bars::part(ending, spot.from, spot.to),
        Answer::Body | Answer::NoBar | Answer::TooLong => bars::part(body, spot.from, spot.to),
    }
}

// The bar of any number alone, as a part of whichever line has it. Where there is none it is the empty part at the body's beginning, which
// may be a bar's too: `spot_of` and `bar_by_number` tell.
pub fn bar_of<'a>(body: &'a [u8], ending: &'a [u8], number: usize) -> &'a [u8]
    ensures { BarAt body.entry ending.entry number result }
{
    bar_by_number(body, ending, number).bar
}

// The answer to any number, and the bar beside it.
#[tactic(auto, using(crate::proofs::Spots::spot_fits))]
pub fn bar_by_number<'a>(body: &'a [u8], ending: &'a [u8], number: usize) -> NumberedBar<'a>
    ensures { NumberedBy body.entry ending.entry number result }
{
    let spot = spot_of(body, ending, number);
    NumberedBar {
        spot,
        bar: part_of(body, ending, spot),
    }
}
