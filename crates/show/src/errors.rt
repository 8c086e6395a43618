// The errors of a refused text, in plain words.
use crate::print::{Interval, Shown};
use std::io::Write;
use std::{fmt, io};

// What may stand but once, by its `priority`.
#[derive(Clone, Copy)]
struct Part(u16);

impl fmt::Display for Part {
    fn fmt<W: fmt::Write>(&self, f: &mut fmt::Formatter<W>) -> fmt::Result {
        f.write_str(match self.0 {
            0 => "the power chord",
            1 => "alt",
            2 => "bass",
            3 => "minor",
            4 => "dim7",
            5 => "dim",
            6 => "half-diminished",
            7 => "sus",
            8 => "maj",
            9 => "maj7",
            12 => "aug",
            _ => "the slash bass",
        })
    }
}

// What an error says: of the whole text, of the intervals that it makes, or of the byte `at`.
// An enum of its own: the library's has no way back from its numbers, and here every error at a place is alike but for its words.
#[derive(Clone, Copy)]
enum Fault {
    Repeated(Part),
    SameDegree(Interval),
    NoRoot,
    InARow(Interval, Interval, Interval),
    Unknown,
    Placed { at: usize, words: &'static str },
}

// The words for an error at a place, by its kind.
fn words_at(kind: u16) -> &'static str {
    match kind {
        1 => "this has no meaning in a chord symbol",
        2 => "a note cannot stand here",
        5 => "this extension is there already",
        6 => "this is no extension",
        7 => "add or omit cannot name this",
        8 => "a sharp or flat cannot stand here",
        11 => "add names nothing",
        12 => "omit names nothing, or what it cannot name",
        13 => "add cannot name this",
        14 => "this slash is wrong",
        15 => "this bracket was not opened",
        16 => "this bracket is not closed",
        17 => "there is a bracket inside this one",
        _ => "this is wrong",
    }
}

// An error from the four numbers that it has in a lent list: its kind, and its values.
impl From<[u16; 4]> for Fault {
    fn from(numbers: [u16; 4]) -> Self {
        let [kind, a, b, c] = numbers;
        match kind {
            3 => Fault::Repeated(Part(a)),
            4 => Fault::SameDegree(Interval(a)),
            9 => Fault::NoRoot,
            10 => Fault::InARow(Interval(a), Interval(b), Interval(c)),
            18 => Fault::Unknown,
            _ => Fault::Placed {
                at: usize::from(a),
                words: words_at(kind),
            },
        }
    }
}

impl fmt::Display for Fault {
    fn fmt<W: fmt::Write>(&self, f: &mut fmt::Formatter<W>) -> fmt::Result {
        match self {
            Fault::Repeated(part) => write!(f, "{part} stands more than once"),
            Fault::SameDegree(interval) => write!(
                f,
                "{interval} does not go with an interval of the same degree"
            ),
            Fault::NoRoot => write!(f, "there is no root note"),
            Fault::InARow(a, b, c) => write!(f, "{a}, {b} and {c} are three semitones in a row"),
            Fault::Unknown => write!(f, "an unknown error"),
            Fault::Placed { words, .. } => write!(f, "{words}"),
        }
    }
}

// How many characters of a text end before the byte `at` or at it: what is printed behind as many spaces stands under the character that
// has this byte, also where it is not its first (the position of a wrong number behind a sign is one past the sign's first byte, which may
// lie inside the sign).
fn column(text: &str, at: usize) -> usize {
    (1..=at).filter(|i| text.is_char_boundary(*i)).count()
}

// An error without a place is one line; one with a place is two: the text, and a caret under the character that has the position's byte.
fn put_fault<W: Write>(to: &mut W, text: &str, fault: Fault) -> io::Result<()> {
    if let Fault::Placed { at, .. } = fault {
        let spaces = column(text, at);
        writeln!(to, "  {}", Shown(text))?;
        return writeln!(to, "  {:spaces$}^ {fault}", "");
    }
    writeln!(to, "  {fault}")
}

// Prints how many errors a text has, and each of them: four numbers of the list.
pub(crate) fn put_errors<W: Write>(
    to: &mut W,
    text: &str,
    errs: &[u16],
    count: u16,
) -> io::Result<()> {
    let shown = Shown(text);
    if count == 1 {
        writeln!(to, "{shown}: refused")?;
    } else {
        writeln!(to, "{shown}: refused, {count} errors")?;
    }
    let (rows, _) = errs.as_chunks();
    for row in rows.iter().take(usize::from(count)) {
        put_fault(to, text, Fault::from(*row))?;
    }
    Ok(())
}
