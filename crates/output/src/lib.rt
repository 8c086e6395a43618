// Output in a lent buffer. What a writer of the system does with the bytes cannot be said; all else is.
#![tactic(auto)]

ghost use Rattle.std.specs.Prelude.{cond, [], ◌∷◌, ◌≡◌, ◌-◌, ◌<◌, ◌≤◌, ltb, length, replicate, take, IfOk, OnErr, OnOk};
ghost use Rattle.std.specs.Io.KnownBytes.{Appends};
ghost use Rattle.output.specs.Output.{AppendsPart, Put, PutNumber};

use std::io::{Error, ErrorKind, Write};

// Bytes that wait to be written: the first `used` of a lent buffer.
#[derive(Drop)]
pub struct Output<'a> {
    pub buffer: &'a mut [u8],
    pub used: usize,
}

impl<'a> Output<'a> {
    // Nothing waits.
    pub fn new(buffer: &'a mut [u8]) -> Output<'a>
        ensures none { (result.used ≡ 0) × (result.buffer.now ≡ buffer.old) }
        ensures same_reference { result.buffer.ghost_name ≡ buffer.entry.ghost_name }
    {
        Output { buffer, used: 0 }
    }

    // The bytes that wait; none where the buffer has fewer than are counted.
    pub fn waiting(&self) -> &[u8]
        ensures bytes { self.now.used ≤ length self.now.buffer.now → result.now ≡ take self.now.used self.now.buffer.now }
        ensures beyond { length self.now.buffer.now < self.now.used → result.now ≡ [] }
    {
        if self.used <= self.buffer.len() {
            &self.buffer[..self.used]
        } else {
            &[]
        }
    }

    // Appends a byte, while there is room.
    pub fn put(&mut self, byte: u8)
        ensures put { Put (byte ∷ []) self.old.used self.new.used self.old.buffer.now self.new.buffer.now }
        ensures same_reference { self.new.buffer.ghost_name ≡ self.old.buffer.ghost_name }
    {
        if self.used < self.buffer.len() {
            self.buffer[self.used] = byte;
            self.used += 1;
        }
    }

    // Appends bytes, while there is room.
    pub fn put_bytes(&mut self, bytes: &[u8])
        ensures put { Put bytes.now self.old.used self.new.used self.old.buffer.now self.new.buffer.now }
        ensures same_reference { self.new.buffer.ghost_name ≡ self.old.buffer.ghost_name }
    {
        for byte in bytes {
            self.put(*byte);
        }
    }

    // Appends the first n of some bytes, or all where there are fewer.
    pub fn put_first(&mut self, bytes: &[u8], n: usize)
        ensures put { Put (take n bytes.now) self.old.used self.new.used self.old.buffer.now self.new.buffer.now }
        ensures same_reference { self.new.buffer.ghost_name ≡ self.old.buffer.ghost_name }
    {
        self.put_bytes(&bytes[..n.min(bytes.len())]);
    }

    // Appends n spaces.
    fn put_spaces(&mut self, n: usize)
        ensures put { Put (replicate n 32) self.old.used self.new.used self.old.buffer.now self.new.buffer.now }
        ensures same_reference { self.new.buffer.ghost_name ≡ self.old.buffer.ghost_name }
    {
        for _ in 0..n {
            self.put(b' ');
        }
    }

    // Appends a number in decimal, right-justified in so many columns; a wider one in full.
    pub fn put_number(&mut self, n: u64, columns: usize)
        ensures put { PutNumber n columns self.old.used self.new.used self.old.buffer.now self.new.buffer.now }
        ensures same_reference { self.new.buffer.ghost_name ≡ self.old.buffer.ghost_name }
    {
        let mut text = [0u8; 20];
        let k = io::decimal(n, &mut text);
        self.put_spaces(columns.saturating_sub(k));
        self.put_bytes(&text[..k]);
    }

    // Writes all that waits; none waits then. After an error the writer has a first part of it, and it waits as before.
    pub fn flush<W: Write>(&mut self, to: &mut W) -> Result<(), Error>
        ensures none_wait { OnOk result (self.new.used ≡ 0) }
        ensures beyond { length self.old.buffer.now < self.old.used → result ≡ Ok tt }
        ensures buffer { self.new.buffer.now ≡ self.old.buffer.now }
        ensures same_reference { self.new.buffer.ghost_name ≡ self.old.buffer.ghost_name }
        ensures written { self.old.used ≤ length self.old.buffer.now →
            OnOk result (Appends (W.contents to.old) (W.contents to.new) (take self.old.used self.old.buffer.now)) }
        ensures waits { OnErr result (self.new.used ≡ self.old.used) }
        ensures failed { OnErr result (AppendsPart (W.contents to.old) (W.contents to.new) (take self.old.used self.old.buffer.now)) }
    {
        if self.used <= self.buffer.len() {
            write_all(to, self.waiting())?;
        }
        self.used = 0;
        Ok(())
    }

    // Makes room: writes what waits where it is `most` bytes or more. An error is as that of `flush`.
    pub fn room<W: Write>(&mut self, to: &mut W, most: usize) -> Result<(), Error>
        ensures waiting { OnOk result (self.new.used ≡ cond (ltb self.old.used most) self.old.used 0) }
        ensures kept { self.old.used < most → to.new ≡ to.old }
        ensures enough { self.old.used < most → result ≡ Ok tt }
        ensures buffer { self.new.buffer.now ≡ self.old.buffer.now }
        ensures same_reference { self.new.buffer.ghost_name ≡ self.old.buffer.ghost_name }
        ensures written { most ≤ self.old.used → self.old.used ≤ length self.old.buffer.now →
            OnOk result (Appends (W.contents to.old) (W.contents to.new) (take self.old.used self.old.buffer.now)) }
        ensures waits { OnErr result (self.new.used ≡ self.old.used) }
        ensures failed { OnErr result (AppendsPart (W.contents to.old) (W.contents to.new) (take self.old.used self.old.buffer.now)) }
    {
        if self.used < most {
            return Ok(());
        }
        self.flush(to)
    }
}

// Writes all the bytes, in as many calls as it takes. After an error the writer has a first part of them.
fn write_all<W: Write>(to: &mut W, bytes: &[u8]) -> Result<(), Error>
    ensures written { OnOk result (Appends (W.contents to.old) (W.contents to.new) bytes.now) }
    ensures failed { OnErr result (AppendsPart (W.contents to.old) (W.contents to.new) bytes.now) }
{
    let mut at = 0;
    // A `while`: a turn goes on by as many bytes as the writer took.
    while at < bytes.len() {
        let n = to.write(&bytes[at..])?;
        if n == 0 {
            return Err(Error::from(ErrorKind::WriteZero));
        }
        at += n;
    }
    Ok(())
}

// Writes the first `used` of bytes that are lent for reading. None wait then. After an error the writer has a first part of them.
pub fn flush<W: Write>(to: &mut W, out: &[u8], used: usize) -> Result<usize, Error>
    ensures none_wait { IfOk result (λ n. n ≡ 0) }
    ensures beyond { length out.now < used → result ≡ Ok 0 }
    ensures written { used ≤ length out.now → OnOk result (Appends (W.contents to.old) (W.contents to.new) (take used out.now)) }
    ensures failed { OnErr result (AppendsPart (W.contents to.old) (W.contents to.new) (take used out.now)) }
{
    if used <= out.len() {
        write_all(to, &out[..used])?;
    }
    Ok(0)
}

// Makes room: writes the first `used` bytes where they are `most` or more. An error is as that of `flush`.
pub fn room<W: Write>(to: &mut W, out: &[u8], used: usize, most: usize) -> Result<usize, Error>
    ensures waiting { IfOk result (λ n. n ≡ cond (ltb used most) used 0) }
    ensures kept { used < most → to.new ≡ to.old }
    ensures enough { used < most → result ≡ Ok used }
    ensures written { most ≤ used → used ≤ length out.now →
        OnOk result (Appends (W.contents to.old) (W.contents to.new) (take used out.now)) }
    ensures failed { OnErr result (AppendsPart (W.contents to.old) (W.contents to.new) (take used out.now)) }
{
    if used < most {
        return Ok(used);
    }
    flush(to, out, used)
}
