// The record of a question: root letter (-1 none), alteration, bass letter, alteration, count and members of N, count and members of the
// display list; or `=` and the text that it is read from.
use crate::fault::Fault;
use crate::number::Words;
use chord::Chord;
use intervals::{IntervalList, IntervalSet};
use note::{Note, NoteLiteral, RootModifier};

// The set with one more member. None has it twice, and none one outside the table.
fn with_member(set: IntervalSet, n: u64) -> Option<IntervalSet> {
    if n < 23 && !set.contains(n as u8) {
        Some(set.insert(n as u8))
    } else {
        None
    }
}

// The list with one more number; none has more than 23, or one above 255.
fn with_shown(mut list: IntervalList, n: u64) -> Option<IntervalList> {
    let number = u8::try_from(n).ok()?;
    if list.as_slice().len() < 23 {
        list.push(number);
        Some(list)
    } else {
        None
    }
}

// Two numbers that are neither those of a note nor -1 and 0.
#[derive(Clone, Copy, PartialEq, Eq)]
struct Meaningless;

// The modifier of an alteration, where None is -1.
fn modifier(alteration: Option<u64>) -> Result<RootModifier, Meaningless> {
    match alteration {
        None => Ok(RootModifier::Flat),
        Some(0) => Ok(RootModifier::Natural),
        Some(1) => Ok(RootModifier::Sharp),
        Some(_) => Err(Meaningless),
    }
}

// The note of a letter and an alteration, where None is -1; -1 and 0 say that there is no note.
fn note(letter: Option<u64>, alteration: Option<u64>) -> Result<Option<Note>, Meaningless> {
    match (letter, modifier(alteration)?) {
        (None, RootModifier::Natural) => Ok(None),
        (Some(n), modifier) if n < 7 => Ok(Some(Note {
            literal: NoteLiteral::from_number(n as u8),
            modifier,
        })),
        _ => Err(Meaningless),
    }
}

// The record of these parts, if all are there.
fn chord_of(
    root: Result<Option<Note>, Meaningless>,
    bass: Result<Option<Note>, Meaningless>,
    normalized: Option<IntervalSet>,
    display: Option<IntervalList>,
) -> Option<Chord> {
    Some(Chord {
        root: root.ok()?,
        bass: bass.ok()?,
        normalized: normalized?,
        display: display?,
    })
}

// The record that is read from a text; a text that is refused has none.
fn chord_in(text: &[u8]) -> Option<Chord> {
    let mut errs = [0u16; 1028];
    reader::read(text, &mut errs).ok()
}

impl<'a> Words<'a> {
    // Takes the two numbers of a note.
    fn note(&mut self) -> Result<Result<Option<Note>, Meaningless>, Fault> {
        let letter = self.signed()?;
        let alteration = self.signed()?;
        Ok(note(letter, alteration))
    }

    // Takes a count and so many numbers, which a value grows by; None where one of them cannot be added to it.
    fn counted<T: Copy, F: Fn(T, u64) -> Option<T>>(
        &mut self,
        empty: T,
        with: F,
    ) -> Result<Option<T>, Fault>
        requires { F.IsAlwaysCallable with }
    {
        let mut value = Some(empty);
        for _ in 0..self.number()? {
            let n = self.number()?;
            value = value.and_then(|v| with(v, n));
        }
        Ok(value)
    }

    // Takes the numbers of a record, with which the line ends; None where a part of them is none.
    fn chord(mut self) -> Result<Option<Chord>, Fault> {
        let root = self.note()?;
        let bass = self.note()?;
        let normalized = self.counted(IntervalSet::new(), with_member)?;
        let display = self.counted(IntervalList::new(), with_shown)?;
        self.end()?;
        Ok(chord_of(root, bass, normalized, display))
    }

    // Takes the record that ends the line; None where its numbers are none, or its text is refused.
    pub(crate) fn record(self) -> Result<Option<Chord>, Fault> {
        match self.text() {
            Some(text) => Ok(chord_in(text)),
            None => self.chord(),
        }
    }
}
