// The line of an accepted text.
use crate::print::{Interval, Shown};
use chord::Chord;
use intervals::IntervalSet;
use note::{Note, NoteLiteral, RootModifier};
use std::io::Write;
use std::{fmt, io};

// Writes the house spelling of a chord; none where the chord has no text.
fn spelled(chord: Chord, buffer: &mut [u8]) -> Option<&str> {
    let n = writer::write(chord, buffer).ok()?;
    str::from_utf8(buffer.get(..n)?).ok()
}

// The house spelling of a chord.
#[derive(Clone, Copy)]
struct Spelling(Chord);

impl fmt::Display for Spelling {
    fn fmt<W: fmt::Write>(&self, f: &mut fmt::Formatter<W>) -> fmt::Result {
        let mut buffer = [0u8; 112];
        f.write_str(spelled(self.0, &mut buffer).unwrap_or("?"))
    }
}

// A note, as `C#`; the writer's letters are bytes of a spelling, and private.
#[derive(Clone, Copy)]
struct NoteName(Note);

impl fmt::Display for NoteName {
    fn fmt<W: fmt::Write>(&self, f: &mut fmt::Formatter<W>) -> fmt::Result {
        f.write_str(match self.0.literal {
            NoteLiteral::C => "C",
            NoteLiteral::D => "D",
            NoteLiteral::E => "E",
            NoteLiteral::F => "F",
            NoteLiteral::G => "G",
            NoteLiteral::A => "A",
            NoteLiteral::B => "B",
        })?;
        f.write_str(match self.0.modifier {
            RootModifier::Natural => "",
            RootModifier::Sharp => "#",
            RootModifier::Flat => "b",
        })
    }
}

// The slash bass, or that there is none.
#[derive(Clone, Copy)]
struct Bass(Option<Note>);

impl fmt::Display for Bass {
    fn fmt<W: fmt::Write>(&self, f: &mut fmt::Formatter<W>) -> fmt::Result {
        match self.0 {
            None => write!(f, "none"),
            Some(note) => NoteName(note).fmt(f),
        }
    }
}

// The members of a set by name, each behind a space.
#[derive(Clone, Copy)]
struct Members(IntervalSet);

impl fmt::Display for Members {
    fn fmt<W: fmt::Write>(&self, f: &mut fmt::Formatter<W>) -> fmt::Result {
        for i in 0..23 {
            if self.0.contains(i) {
                write!(f, " {}", Interval(u16::from(i)))?;
            }
        }
        Ok(())
    }
}

// The pitch classes that sound, each behind a space.
#[derive(Clone, Copy)]
struct Classes {
    root: Note,
    bass: Option<Note>,
    set: IntervalSet,
}

impl Classes {
    // Does a pitch class sound, as a member above the root or as the bass?
    fn sounds(self, class: u8) -> bool {
        (0..23).any(|i| self.set.contains(i) && self.root.member_class(i) == class)
            || matches!(self.bass, Some(note) if note.pitch_class() == class)
    }
}

impl fmt::Display for Classes {
    fn fmt<W: fmt::Write>(&self, f: &mut fmt::Formatter<W>) -> fmt::Result {
        for class in 0..12 {
            if self.sounds(class) {
                write!(f, " {class}")?;
            }
        }
        Ok(())
    }
}

// The line of a chord, which has a root.
fn put_rooted<W: Write>(to: &mut W, text: &str, root: Note, chord: Chord) -> io::Result<()> {
    let classes = Classes {
        root,
        bass: chord.bass,
        set: chord.normalized,
    };
    writeln!(
        to,
        "{}: {}; root {}; bass {}; intervals{}; pitch classes{classes}",
        Shown(text),
        Spelling(chord),
        NoteName(root),
        Bass(chord.bass),
        Members(chord.normalized)
    )
}

// A blank text is no chord, and has nothing else to show.
pub(crate) fn put_chord<W: Write>(to: &mut W, text: &str, chord: Chord) -> io::Result<()> {
    match chord.root {
        None => writeln!(to, "no chord: the reeds stop"),
        Some(root) => put_rooted(to, text, root, chord),
    }
}
