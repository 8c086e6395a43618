// Lines of a reader, as standard input, out of blocks. The caller lends a buffer for blocks and one for a line. What the system reads
// cannot be said; all else is.
#![tactic(auto)]

ghost use Rattle.std.specs.Prelude.{true, false, position, ◌==◌, ◌≡◌, ◌+◌, ◌≤◌, ◌<◌, length, take, IfOk, MatchOption, OnOk, OnErr};
ghost use Rattle.std.specs.Io.KnownBytes.{Consumes, Keeps};
ghost use Rattle.lines.specs.Input.{Failed, Inside, Next, Read, Took, kept as Input·kept, nothing_read, to_newline};

use output::Output;
use std::io;
use std::io::{Read, Write};

// So many bytes that wait are written though the block has lines left.
const MUCH: usize = 32768;

// Where reading stands: the bytes of the block from `at` to `end` are not taken yet, and the first `len` bytes of the line's buffer are
// those of the line so far, all of them once it is ready; then `lines` is its number, from 1. A proved loop has to end, so calls are
// counted down from a number that no run uses up; `left` may follow, none at the end of the input. `ready` and `len` and no Option of the
// line: `Next`, `Took` and `Read` speak of them; `Lines::ready` gives an Option.
#[derive(Clone, Copy)]
pub struct Input {
    pub at: usize,
    pub end: usize,
    pub len: usize,
    pub ready: bool,
    pub lines: u64,
    pub left: u64,
}

impl Input {
    // How many bytes of a line that is not handed out yet are there.
    fn kept(self) -> usize
        ensures { result ≡ Input·kept self }
    {
        if self.ready { 0 } else { self.len }
    }

    // The next line is ready, with so many bytes.
    fn with_line(self, len: usize) -> Input
        requires { self.lines < 18446744073709551615 }
        ensures { result ≡ record { at = self.at; end = self.end; len = len; ready = true; lines = self.lines + 1; left = self.left } }
    {
        Input {
            len,
            ready: true,
            lines: self.lines + 1,
            ..self
        }
    }
}

// The place of the first newline.
fn newline(bytes: &[u8]) -> Option<usize>
    ensures { result ≡ position (λ b. b == 10) bytes.now }
{
    bytes.iter().position(|b| *b == b'\n')
}

// How many bytes stand before the first newline.
fn to_newline(bytes: &[u8]) -> usize
    ensures { (result ≡ to_newline bytes.now) × (result ≤ length bytes.now) }
{
    newline(bytes).unwrap_or(bytes.len())
}

// Takes the bytes of the block up to its next newline, with it.
fn take(block: &[u8], line: &mut Output, s: Input) -> Input
    requires { Inside s block.now line.old.buffer.now × (0 < s.left) }
    ensures took { Took s result block.now line.old.buffer.now line.new.buffer.now }
    ensures same_reference { line.new.buffer.ghost_name ≡ line.old.buffer.ghost_name }
{
    let stop = s.at + to_newline(&block[s.at..s.end]);
    line.used = s.kept();
    line.put_bytes(&block[s.at..stop]);
    let taken = Input {
        at: s.end,
        len: line.used,
        ready: false,
        left: s.left - 1,
        ..s
    };
    if stop < s.end {
        return Input {
            at: stop + 1,
            ..taken.with_line(taken.len)
        };
    }
    taken
}

// The state at the end of the input.
fn last(s: Input) -> Input
    requires { s.lines < 18446744073709551615 }
    ensures { Read s result 0 }
{
    let len = s.kept();
    let read = Input {
        at: 0,
        end: 0,
        len,
        ready: false,
        left: 0,
        ..s
    };
    if 0 < len {
        return read.with_line(len);
    }
    read
}

// Reads the next block. At the end of the input a line without its newline is ready, if it has bytes.
fn fill<R: Read>(from: &mut R, block: &mut [u8], s: Input) -> io::Result<Input>
    requires { (0 < s.left) × (s.lines + s.left ≤ 18446744073709551615) }
    ensures read { IfOk result (λ r. Read s r (length block.new)) }
    ensures bytes { IfOk result (λ r. Consumes (R.remaining from.old) (R.remaining from.new) (take r.end block.new)) }
    ensures none_lost { OnErr result (Keeps (R.remaining from.old) (R.remaining from.new)) }
{
    let n = from.read(block)?;
    if n == 0 {
        return Ok(last(s));
    }
    Ok(Input {
        at: 0,
        end: n,
        len: s.kept(),
        ready: false,
        left: s.left - 1,
        ..s
    })
}

// Takes the bytes up to the next newline or the end of the block; where there are none left, reads the next block.
fn next<R: Read>(from: &mut R, block: &mut [u8], line: &mut Output, s: Input) -> io::Result<Input>
    requires { Inside s block.old line.old.buffer.now × (0 < s.left) }
    ensures next { IfOk result (λ r. Next s r block.old block.new line.old.buffer.now line.new.buffer.now) }
    ensures same_reference { line.new.buffer.ghost_name ≡ line.old.buffer.ghost_name }
    ensures bytes { s.at ≡ s.end → IfOk result (λ r. Consumes (R.remaining from.old) (R.remaining from.new) (take r.end block.new)) }
    ensures unread { s.at < s.end → from.new ≡ from.old }
    ensures failed { OnErr result (Failed s block.new line.old.buffer.now line.new.buffer.now) }
    ensures none_lost { OnErr result (Keeps (R.remaining from.old) (R.remaining from.new)) }
{
    if s.at < s.end {
        return Ok(take(block, line, s));
    }
    fill(from, block, s)
}

// Lines out of two lent buffers, of which one is for blocks of the input and one for a line. A longer line is cut to the room it has.
#[derive(Drop)]
pub struct Lines<'a> {
    pub block: &'a mut [u8],
    pub line: Output<'a>,
    pub input: Input,
    pub ghost inside: { Inside input block.now line.buffer.now },
}

impl<'a> Lines<'a> {
    // Nothing is read yet.
    pub fn new(block: &'a mut [u8], line: &'a mut [u8]) -> Lines<'a>
        ensures begun { (result.input ≡ nothing_read) × (result.block.now ≡ block.old) × (result.line.buffer.now ≡ line.old) }
        ensures same_reference { (result.block.ghost_name ≡ block.entry.ghost_name)
            × (result.line.buffer.ghost_name ≡ line.entry.ghost_name) }
    {
        Lines {
            block,
            line: Output::new(line),
            input: Input {
                at: 0,
                end: 0,
                len: 0,
                ready: false,
                lines: 0,
                left: u64::MAX,
            },
        }
    }

    // Takes the bytes up to the next newline or the end of the block; where there are none left, reads the next block. After an error of
    // the reader the same call may follow.
    pub fn next<R: Read>(&mut self, from: &mut R) -> io::Result<()>
        requires { 0 < self.old.input.left }
        ensures next { OnOk result
            (Next self.old.input self.new.input self.old.block.now self.new.block.now self.old.line.buffer.now self.new.line.buffer.now) }
        ensures bytes { self.old.input.at ≡ self.old.input.end →
            OnOk result (Consumes (R.remaining from.old) (R.remaining from.new) (take self.new.input.end self.new.block.now)) }
        ensures unread { self.old.input.at < self.old.input.end → from.new ≡ from.old }
        ensures same_reference { (self.new.block.ghost_name ≡ self.old.block.ghost_name)
            × (self.new.line.buffer.ghost_name ≡ self.old.line.buffer.ghost_name) }
        ensures state { OnErr result (self.new.input ≡ self.old.input) }
        ensures failed { OnErr result (Failed self.old.input self.new.block.now self.old.line.buffer.now self.new.line.buffer.now) }
        ensures none_lost { OnErr result (Keeps (R.remaining from.old) (R.remaining from.new)) }
    {
        self.input = next(from, self.block, &mut self.line, self.input)?;
        Ok(())
    }

    // The line that is ready.
    pub fn ready(&self) -> Option<&[u8]>
        ensures { MatchOption result (self.now.input.ready ≡ false)
            (λ line. (self.now.input.ready ≡ true) × (line.now ≡ take self.now.input.len self.now.line.buffer.now)) }
    {
        if self.input.ready {
            return Some(&self.line.buffer[..self.input.len]);
        }
        None
    }

    // Answers every line of a reader: `answer` is given the number of each, from 1, and its bytes. What waits is written where it is much,
    // before the next block is waited for, so that a failed read loses none of it, and at the end.
    pub fn answer_all<
        R: Read,
        W: Write,
        F: FnMut(&mut W, &mut Output, u64, &[u8]) -> io::Result<()>,
    >(&mut self, from: &mut R, to: &mut W, out: &mut Output, answer: F) -> io::Result<()>
        requires { F.IsAlwaysCallable answer }
        ensures all { OnOk result (self.new.input.left ≡ 0) }
        ensures none_wait { OnOk result (out.new.used ≡ 0) }
    {
        self.answer_holding(0, from, to, out, answer)
    }

    // As `answer_all`, but less than `most` bytes go on waiting while the next block is waited for. A failed read loses none of them.
    pub fn answer_holding<
        R: Read,
        W: Write,
        F: FnMut(&mut W, &mut Output, u64, &[u8]) -> io::Result<()>,
    >(
        &mut self,
        most: usize,
        from: &mut R,
        to: &mut W,
        out: &mut Output,
        mut answer: F,
    ) -> io::Result<()>
        requires { F.IsAlwaysCallable answer }
        ensures all { OnOk result (self.new.input.left ≡ 0) }
        ensures none_wait { OnOk result (out.new.used ≡ 0) }
    {
        // A `while`: a turn takes a line or a block, and says itself whether one may follow.
        while 0 < self.input.left {
            if let Err(error) = self.next(from) {
                out.room(to, 0)?;
                return Err(error);
            }
            let number = self.input.lines;
            if let Some(line) = self.ready() {
                out.room(to, MUCH)?;
                answer(to, out, number, line)?;
            }
            if self.input.at == self.input.end {
                out.room(to, most)?;
            }
        }
        out.flush(to)
    }
}
