// What the listings print: numbers, each right-justified in four columns, one behind another.
#![tactic(auto)]

ghost use Rattle.std.specs.Prelude.{◌≡◌, OnOk};
ghost use Rattle.output.specs.Output.{PutNumber};
ghost use Rattle.columns.specs.Columns.{PutAll, PutAlteration, PutErrors, PutNote, PutNoteOrNone};

use lines::Lines;
use note::{Note, RootModifier};
use output::Output;
use std::io;
use std::io::{Read, Write};

// Appends a number.
pub fn put(out: &mut Output, n: u64)
    ensures { PutNumber n 4 out.old.used out.new.used out.old.buffer.now out.new.buffer.now }
{
    out.put_number(n, 4);
}

// Appends -1, 0 or 1.
fn put_alteration(out: &mut Output, modifier: RootModifier)
    ensures { PutAlteration modifier out.old.used out.new.used out.old.buffer.now out.new.buffer.now }
{
    match modifier {
        RootModifier::Flat => out.put_bytes(b"  -1"),
        RootModifier::Natural => put(out, 0),
        RootModifier::Sharp => put(out, 1),
    }
}

// Appends a note's letter and alteration.
pub fn put_note(out: &mut Output, note: Note)
    ensures { PutNote note out.old.used out.new.used out.old.buffer.now out.new.buffer.now }
{
    put(out, u64::from(u8::from(note.literal)));
    put_alteration(out, note.modifier);
}

// Appends a note, or -1 and 0 where there is none.
pub fn put_note_or_none(out: &mut Output, note: Option<Note>)
    ensures { PutNoteOrNone note out.old.used out.new.used out.old.buffer.now out.new.buffer.now }
{
    match note {
        Some(note) => put_note(out, note),
        None => {
            put_alteration(out, RootModifier::Flat);
            put(out, 0);
        }
    }
}

// Appends the count of the errors, and their numbers, four for each.
pub fn put_errors(out: &mut Output, errors: &[u16])
    ensures { PutErrors errors.now out.old.used out.new.used out.old.buffer.now out.new.buffer.now }
{
    put(out, (errors.len() / 4) as u64);
    put_all(out, errors);
}

fn put_all(out: &mut Output, numbers: &[u16])
    ensures { PutAll numbers.now out.old.used out.new.used out.old.buffer.now out.new.buffer.now }
{
    for number in numbers {
        put(out, *number as u64);
    }
}

// Appends a line: its number, what `put_answer` appends, and the newline.
fn put_line<F: Fn(&mut Output, &[u8])>(out: &mut Output, number: u64, text: &[u8], put_answer: &F)
    requires { F.IsAlwaysCallable put_answer.now }
{
    put(out, number);
    put_answer(out, text);
    out.put(b'\n');
}

// Answers every line of a reader in a line of its own: its number, from 1, and behind it what `put_answer` appends. What waits is written
// where it is much, where a read fails, and at the end.
// The arrays are the caller's, so that it can be said what is left in them: each `main` has its own.
pub fn answer_lines<R: Read, W: Write, F: Fn(&mut Output, &[u8])>(
    lines: &mut Lines,
    from: &mut R,
    to: &mut W,
    out: &mut Output,
    put_answer: F,
) -> io::Result<()>
    requires { F.IsAlwaysCallable put_answer }
    ensures all { OnOk result (lines.new.input.left ≡ 0) }
    ensures none_wait { OnOk result (out.new.used ≡ 0) }
{
    lines.answer_holding(usize::MAX, from, to, out, |_, out, number, text| {
        put_line(out, number, text, &put_answer);
        Ok(())
    })
}
