// The functions that C calls, under the names of include/nophtris.h. Each calls the function of nophtris with its name, and says what that
// one says; a record is 51 bytes.
#![tactic(auto)]

ghost use Rattle.nophtris.specs.State.{Bar, Midi, Read, Step, Write};

// Reads any bytes. The number is returned, 0 for an accepted text; `count` is written only with 4 and 5, `chord` only with 0.
#[unsafe(no_mangle)]
pub extern "C" fn nophtris_read(
    text: &[u8],
    errors: &mut [u16],
    count: &mut u16,
    chord: &mut [u8; 51],
) -> u8
    ensures { Read text.now errors.old errors.new count.old count.new
        chord.old chord.new result }
{
    nophtris::nophtris_read(text, errors, count, chord)
}

// Reads the bar at any position of any line. The number of reading it is returned, `position` goes one past it, and its place is written;
// 8 (the line is too long) and 255 (the end) leave all lent memory as it was.
#[unsafe(no_mangle)]
pub extern "C" fn nophtris_step(
    line: &[u8],
    position: &mut usize,
    errors: &mut [u16],
    count: &mut u16,
    chord: &mut [u8; 51],
    start: &mut usize,
    size: &mut usize,
) -> u8
    ensures { Step line.now position.old position.new errors.old errors.new
        count.old count.new chord.old chord.new start.old start.new
        size.old size.new result }
{
    nophtris::nophtris_step(line, position, errors, count, chord, start, size)
}

// Where the bar of any number lies in any body and any ending. With 0 the line that has it, its place in that line and its length are
// written; 8 (a line is too long) and 9 (there is no such bar) leave all lent memory as it was.
#[unsafe(no_mangle)]
pub extern "C" fn nophtris_bar<'a>(
    body: &'a [u8],
    ending: &'a [u8],
    number: usize,
    line: &mut u8,
    start: &mut usize,
    size: &mut usize,
) -> u8
    ensures { Bar body.now ending.now number line.old line.new start.old
        start.new size.old size.new result }
{
    nophtris::nophtris_bar(body, ending, number, line, start, size)
}

// Writes any record. The number is returned, 0 for a written spelling; only then its length goes to `size`.
#[unsafe(no_mangle)]
pub extern "C" fn nophtris_write(chord: &[u8; 51], buffer: &mut [u8], size: &mut u16) -> u8
    ensures { Write chord.now buffer.old buffer.new size.old size.new result }
{
    nophtris::nophtris_write(chord, buffer, size)
}

// Goes from any keys that sound to any record, over any base key. The number is returned, 0 for a chord that is not refused; only then the
// messages stand in the output, their length in `size`, and the keys that sound now in `sounding`.
#[unsafe(no_mangle)]
pub extern "C" fn nophtris_midi(
    sounding: &mut [u8; 16],
    base: u8,
    chord: &[u8; 51],
    out: &mut [u8],
    size: &mut usize,
) -> u8
    ensures { Midi sounding.old sounding.new base chord.now out.old out.new
        size.old size.new result }
{
    nophtris::nophtris_midi(sounding, base, chord, out, size)
}
