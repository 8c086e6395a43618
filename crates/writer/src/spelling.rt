// The house spelling in bytes: a note's, the parts' by a table of their texts, and the whole.
ghost use Rattle.std.specs.Prelude.{[], ◌∷◌, ◌≡◌, ◌+◌, ◌<◌, ◌≤◌, length, get_or};
ghost use Rattle.house_text.specs.Spelling.{letter_text, note_text, sign_text, spell};
ghost use Rattle.house_parts.specs.House.{kind_in};
ghost use Rattle.intervals.specs.Stored.{listed, members};
ghost use Rattle.writer.specs.State.{Grew, Put, text_at, written23, bass_text};

use crate::buffer::Buffer;
use chord::Chord;
use house_parts::kind::{SusKind, kind_in};
use house_parts::parts::is_named;
use intervals::IntervalSet;
use note::{Note, NoteLiteral, RootModifier};

// The texts of the parts but for the bass.
const TEXTS: [&[u8]; 23] = [
    b"dim7",
    b"m",
    b",b5",
    b",#5",
    b",7",
    b",susb2",
    b",sus2",
    b",sus#4",
    b",omit3",
    b",omit5",
    b",add2",
    b",add3",
    b",add4",
    b",addb6",
    b",add6",
    b",addMaj7",
    b",addb9",
    b",add9",
    b",add#9",
    b",add11",
    b",add#11",
    b",addb13",
    b",add13",
];

fn text(i: usize) -> &'static [u8]
    requires { i < 23 }
    ensures { result.now ≡ text_at i }
{
    TEXTS[i]
}

fn letter(l: NoteLiteral) -> &'static [u8]
    ensures { result.now ≡ letter_text l }
{
    match l {
        NoteLiteral::C => b"C",
        NoteLiteral::D => b"D",
        NoteLiteral::E => b"E",
        NoteLiteral::F => b"F",
        NoteLiteral::G => b"G",
        NoteLiteral::A => b"A",
        NoteLiteral::B => b"B",
    }
}

// The sign of a note, of which a natural letter has none.
fn sign(sign: RootModifier) -> &'static [u8]
    ensures { result.now ≡ sign_text sign }
{
    match sign {
        RootModifier::Natural => b"",
        RootModifier::Sharp => b"#",
        RootModifier::Flat => b"b",
    }
}

// A note's letter, and its sign if it has one.
fn put_note(out: &mut Buffer, note: Note)
    requires { out.old.len + length (note_text note) ≤ length out.old.bytes.now }
    ensures { Grew out.old out.new (note_text note) }
{
    out.put(letter(note.literal));
    out.put(sign(note.modifier));
}

// The text of part i.
fn put_text(out: &mut Buffer, i: usize)
    requires { (i < 23) × (out.old.len + length (text_at i) ≤ length out.old.bytes.now) }
    ensures { Grew out.old out.new (text_at i) }
{
    out.put(text(i));
}

// The parts that the set and K name, but for the bass.
fn put_parts(out: &mut Buffer, set: IntervalSet, k: SusKind)
    requires { out.old.len + length (written23 (members set) k) ≤ length out.old.bytes.now }
    ensures { Grew out.old out.new (written23 (members set) k) }
{
    for i in 0..23 {
        if is_named(set, k, i) {
            put_text(out, i);
        }
    }
}

// A slash and the bass, if there is one.
fn put_bass(out: &mut Buffer, bass: Option<Note>)
    requires { out.old.len + length (bass_text bass) ≤ length out.old.bytes.now }
    ensures { Grew out.old out.new (bass_text bass) }
{
    if let Some(note) = bass {
        out.put(b"/");
        put_note(out, note);
    }
}

// The whole spelling of a chord with this root, from the first byte of the buffer on; its length is returned.
pub(crate) fn put_spelling(buffer: &mut [u8], root: Note, chord: Chord) -> usize
    requires { 112 ≤ length buffer.old }
    ensures { Put 0 result (spell root chord.bass (members chord.normalized)
        (kind_in (members chord.normalized) (listed chord.display))) buffer.old buffer.new }
{
    let set = chord.normalized;
    let mut out = Buffer::new(buffer);
    put_note(&mut out, root);
    put_parts(&mut out, set, kind_in(set, chord.display));
    put_bass(&mut out, chord.bass);
    out.len
}
