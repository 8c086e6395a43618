// The functions of include/nophtris.h, over bytes; nophtris_c hands them to C. A record is 51 bytes.
#![tactic(auto)]

ghost use Rattle.std.specs.Prelude.{◌≡◌, ◌+◌, ◌≤◌, MatchOption, drop, length, take};
ghost use Rattle.std.proofs.Math.Option.{none, some};
ghost use Rattle.chord.specs.Chord.{four_of};
ghost use Rattle.intervals.specs.Stored.{members, listed};
ghost use Rattle.writer.specs.State.{Grew, WriteGave};
ghost use Rattle.midi.specs.State.{NextGave};
ghost use Rattle.keys.specs.Stored.{keys_bytes};
ghost use Rattle.keys.specs.Stored as stored;
ghost use Rattle.nophtris.specs.Boundary.{alteration_byte, are_bits, chord_bytes, four_in, inside, is_alteration, is_note, line_number, list_bytes, modifier_in, next_from, note_bytes, note_in, set_bytes, values_in, write_in};
ghost use Rattle.nophtris.specs.State.{Bar, Midi, Read, Step, Write};

use bars::Found;
use chord::Chord;
use intervals::{IntervalList, IntervalSet};
use keys::Keys;
use keys::bytes::{byte_of, keys_in};
use note::{Note, NoteLiteral, RootModifier};
use reader::Refusal;
use writer::buffer::Buffer;

// The letter of a note that is none; and flat, -1, as a byte: C has them so (`note_bytes`, `alteration_byte`).
const NONE: u8 = 255;

const FLAT: u8 = 255;

// -1, 0 or 1 as a byte, as C has it (`alteration_byte`): the bytes that `modifier` reads, in a table like its own.
fn alteration(m: RootModifier) -> u8
    ensures { result ≡ alteration_byte m }
{
    match m {
        RootModifier::Natural => 0,
        RootModifier::Sharp => 1,
        RootModifier::Flat => FLAT,
    }
}

fn put_note(out: &mut Buffer, note: Option<Note>)
    requires { out.old.len + 2 ≤ length out.old.bytes.now }
    ensures { Grew out.old out.new (note_bytes note) }
{
    match note {
        None => out.put(&[NONE, 0]),
        Some(x) => out.put(&[u8::from(x.literal), alteration(x.modifier)]),
    }
}

fn put_set(out: &mut Buffer, set: IntervalSet)
    requires { out.old.len + 23 ≤ length out.old.bytes.now }
    ensures { Grew out.old out.new (set_bytes 23 0 (members set)) }
{
    for i in 0..23 {
        out.put(&[u8::from(set.contains(i))]);
    }
}

// The count of the numbers, the numbers, and zeros up to 23.
fn put_list(out: &mut Buffer, list: IntervalList)
    requires { out.old.len + 24 ≤ length out.old.bytes.now }
    ensures { Grew out.old out.new (list_bytes (listed list)) }
{
    let count = list.count();
    out.put(&[count as u8]);
    out.put(&list.numbers[..count]);
    out.put(&[0; 23][count..]);
}

fn encode(chord: Chord, bytes: &mut [u8; 51])
    ensures { bytes.new ≡ chord_bytes (four_of chord) }
{
    let mut out = Buffer::new(bytes);
    put_note(&mut out, chord.root);
    put_note(&mut out, chord.bass);
    put_set(&mut out, chord.normalized);
    put_list(&mut out, chord.display);
}

// Reads any bytes. The number is returned, 0 for an accepted text; `count` is written only with 4 and 5, `chord` only with 0.
pub fn nophtris_read(text: &[u8], errors: &mut [u16], count: &mut u16, chord: &mut [u8; 51]) -> u8
    ensures { Read text.now errors.old errors.new count.old count.new
        chord.old chord.new result }
{
    match reader::read(text, errors) {
        Ok(read) => {
            encode(read, chord);
            0
        }
        Err(unread) => {
            if let Refusal::Parse(n) | Refusal::Validation(n) = unread {
                *count = n;
            }
            u8::from(unread)
        }
    }
}

// Reads the bar at any position of any line. The number of reading it is returned, `position` goes one past it, and its place is written;
// 8 (the line is too long) and 255 (the end) leave all lent memory as it was.
pub fn nophtris_step(
    line: &[u8],
    position: &mut usize,
    errors: &mut [u16],
    count: &mut u16,
    chord: &mut [u8; 51],
    start: &mut usize,
    size: &mut usize,
) -> u8
    ensures { Step line.now position.old position.new errors.old errors.new
        count.old count.new chord.old chord.new start.old start.new
        size.old size.new result }
{
    let place = bars::place_at(line, *position);
    match place.found {
        Found::TooLong => 8,
        Found::End => 255,
        Found::Bar => {
            *position = place.next;
            *start = place.from;
            *size = place.to - place.from;
            nophtris_read(&line[place.from..place.to], errors, count, chord)
        }
    }
}

// The line that has the bar: 0 the body, 1 the ending.
fn line_number(answer: endings::Answer) -> u8
    ensures { result ≡ line_number answer }
{
    u8::from(matches!(answer, endings::Answer::Ending))
}

// Where the bar of any number lies in any body and any ending. With 0 the line that has it, its place in that line and its length are
// written; 8 (a line is too long) and 9 (there is no such bar) leave all lent memory as it was.
pub fn nophtris_bar<'a>(
    body: &'a [u8],
    ending: &'a [u8],
    number: usize,
    line: &mut u8,
    start: &mut usize,
    size: &mut usize,
) -> u8
    ensures { Bar body.now ending.now number line.old line.new start.old
        start.new size.old size.new result }
{
    let spot = endings::spot_of(body, ending, number);
    let said = u8::from(spot.answer);
    if said != 0 {
        return said;
    }
    *line = line_number(spot.answer);
    *start = spot.from;
    *size = spot.to - spot.from;
    0
}

// The modifier of an alteration; natural of a byte that is none.
fn modifier(a: u8) -> RootModifier
    ensures { result ≡ modifier_in a }
{
    match a {
        1 => RootModifier::Sharp,
        FLAT => RootModifier::Flat,
        _ => RootModifier::Natural,
    }
}

fn is_alteration(a: u8) -> bool
    ensures { result ≡ is_alteration a }
{
    matches!(a, 0 | 1 | FLAT)
}

// The note of two bytes; none where the letter is that of none.
fn note(letter: u8, alteration: u8) -> Option<Note>
    ensures { result ≡ note_in letter alteration }
{
    if letter == NONE {
        return None;
    }
    Some(Note {
        literal: NoteLiteral::from_number(letter),
        modifier: modifier(alteration),
    })
}

// Are the two bytes a note? No note has the alteration 0.
fn is_note(letter: u8, alteration: u8) -> bool
    ensures { result ≡ is_note letter alteration }
{
    if letter == NONE {
        return alteration == 0;
    }
    letter < 7 && is_alteration(alteration)
}

// The set whose members have 1.
fn set_in(bytes: &[u8; 51]) -> IntervalSet
    ensures { members result ≡ (values_in bytes.now).normalized }
{
    let mut set = IntervalSet::new();
    for (i, byte) in bytes[4..27].iter().enumerate() {
        if *byte == 1 {
            set = set.insert(i as u8);
        }
    }
    set
}

// The list of the count and the 23 numbers behind it.
#[tactic(auto, unfolding(intervals::specs::Stored::listed, crate::specs::Boundary::values_in))]
fn list_in(bytes: &[u8; 51]) -> IntervalList
    ensures { listed result ≡ (values_in bytes.now).display }
{
    let mut numbers = [0; 23];
    // One by one: what `copy_from_slice` puts here is copied on in other pieces, and waits for them.
    for i in 0..23 {
        numbers[i] = bytes[28 + i];
    }
    IntervalList {
        numbers,
        len: usize::from(bytes[27]),
    }
}

// Is each of the 23 bytes 0 or 1?
fn is_set(bytes: &[u8; 51]) -> bool
    ensures { result ≡ are_bits (take 23 (drop 4 bytes.now)) }
{
    bytes[4..27].iter().all(|b| *b <= 1)
}

// Does each value lie in its range? Not inlined: in `decode` each of the 23 bytes would be kept in a place of its own for `set_in`, which
// takes half as many instructions again (docs/DESIGN-PASS.md).
#[inline(never)]
#[tactic(auto, unfolding(crate::specs::Boundary::inside))]
fn is_inside(bytes: &[u8; 51]) -> bool
    ensures { result ≡ inside bytes.now }
{
    is_note(bytes[0], bytes[1]) && is_note(bytes[2], bytes[3]) && bytes[27] <= 23 && is_set(bytes)
}

// The record that the bytes hold, if they hold one.
#[tactic(auto, unfolding(crate::specs::Boundary::four_in, crate::specs::Boundary::values_in))]
fn decode(bytes: &[u8; 51]) -> Option<Chord>
    ensures { MatchOption result (four_in bytes.now ≡ none) (λ c. four_in bytes.now ≡ some (four_of c)) }
{
    if !is_inside(bytes) {
        return None;
    }
    Some(Chord {
        root: note(bytes[0], bytes[1]),
        bass: note(bytes[2], bytes[3]),
        normalized: set_in(bytes),
        display: list_in(bytes),
    })
}

// Writes the record that the bytes hold; that there is none is asked after the room.
fn write_held(chord: &[u8; 51], buffer: &mut [u8]) -> Result<usize, writer::Refusal>
    ensures { WriteGave (write_in (length buffer.old) chord.now) result buffer.old buffer.new }
{
    if buffer.len() < 112 {
        return Err(writer::Refusal::ShortBuffer);
    }
    match decode(chord) {
        None => Err(writer::Refusal::NoText),
        Some(record) => writer::write(record, buffer),
    }
}

// Writes any record. The number is returned, 0 for a written spelling; only then its length goes to `size`.
pub fn nophtris_write(chord: &[u8; 51], buffer: &mut [u8], size: &mut u16) -> u8
    ensures { Write chord.now buffer.old buffer.new size.old size.new result }
{
    match write_held(chord, buffer) {
        Ok(n) => {
            *size = n as u16;
            0
        }
        Err(unwritten) => u8::from(unwritten),
    }
}

// Writes the 16 bytes of a set of keys.
fn put_sounding(out: &mut [u8; 16], keys: Keys)
    ensures { out.new ≡ keys_bytes (stored.members keys) }
{
    for (i, byte) in out.iter_mut().enumerate() {
        *byte = byte_of(keys, i);
    }
}

// Goes from the keys that sound to the record that the bytes hold.
fn next_held(
    sounding: &mut Keys,
    base: u8,
    chord: &[u8; 51],
    out: &mut [u8],
) -> Result<usize, midi::Refusal>
    ensures { NextGave (next_from (length out.old) (stored.members sounding.old) base (four_in chord.now))
        (record { answer = result; keys = sounding.new }) out.old out.new }
{
    match decode(chord) {
        None => Err(midi::Refusal::NoText),
        Some(record) => midi::next(sounding, base, record, out),
    }
}

// Goes from any keys that sound to any record, over any base key. The number is returned, 0 for a chord that is not refused; only then the
// messages stand in the output, their length in `size`, and the keys that sound now in `sounding`.
#[tactic(auto, unfolding(crate::specs::Boundary::next_in))]
pub fn nophtris_midi(
    sounding: &mut [u8; 16],
    base: u8,
    chord: &[u8; 51],
    out: &mut [u8],
    size: &mut usize,
) -> u8
    ensures { Midi sounding.old sounding.new base chord.now out.old out.new
        size.old size.new result }
{
    let mut keys = keys_in(sounding);
    match next_held(&mut keys, base, chord, out) {
        Ok(n) => {
            put_sounding(sounding, keys);
            *size = n;
            0
        }
        Err(refusal) => u8::from(refusal),
    }
}
