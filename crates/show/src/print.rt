// Printing: a text of which nothing but printable characters are shown, and an interval by its name.
use std::fmt;

// A text; a character that is no printable sign is shown as `?`.
#[derive(Clone, Copy)]
pub(crate) struct Shown<'a>(pub(crate) &'a str);

impl fmt::Display for Shown<'_> {
    fn fmt<W: fmt::Write>(&self, f: &mut fmt::Formatter<W>) -> fmt::Result {
        for c in self.0.chars() {
            f.write_char(if c.is_ascii_control() { '?' } else { c })?;
        }
        Ok(())
    }
}

// An interval by its number. Its name is that of `to_chord_notation`, with Maj7 for its Ma7.
#[derive(Clone, Copy)]
pub(crate) struct Interval(pub(crate) u16);

impl fmt::Display for Interval {
    fn fmt<W: fmt::Write>(&self, f: &mut fmt::Formatter<W>) -> fmt::Result {
        f.write_str(match self.0 {
            0 => "1",
            1 => "b2",
            2 => "2",
            3 => "b3",
            4 => "3",
            5 => "4",
            6 => "#4",
            7 => "b5",
            8 => "5",
            9 => "#5",
            10 => "b6",
            11 => "6",
            12 => "bb7",
            13 => "7",
            14 => "Maj7",
            15 => "8",
            16 => "b9",
            17 => "9",
            18 => "#9",
            19 => "11",
            20 => "#11",
            21 => "b13",
            _ => "13",
        })
    }
}
