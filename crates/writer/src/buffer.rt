// A lent buffer that is written from its beginning on.
ghost use Rattle.std.specs.Prelude.{◌≡◌, ◌+◌, ◌≤◌, length};
ghost use Rattle.writer.specs.State.{Grew};

// The lent bytes, and how many of them are written. All behind those are as they were.
#[derive(Drop)]
pub struct Buffer<'a> {
    pub bytes: &'a mut [u8],
    pub len: usize,
}

impl<'a> Buffer<'a> {
    // None is written.
    pub fn new(bytes: &'a mut [u8]) -> Buffer<'a>
        ensures { (result.len ≡ 0) × (result.bytes.now ≡ bytes.old) × (result.bytes.ghost_name ≡ bytes.entry.ghost_name) }
    {
        Buffer { bytes, len: 0 }
    }

    // Writes these bytes next.
    pub fn put(&mut self, bytes: &[u8])
        requires { self.old.len + length bytes.now ≤ length self.old.bytes.now }
        ensures { Grew self.old self.new bytes.now }
    {
        // One by one: `copy_from_slice` calls memmove, and of the C library the linked library needs memcpy and memset alone.
        let from = self.len;
        for (i, byte) in bytes.iter().enumerate() {
            self.bytes[from + i] = *byte;
        }
        self.len = from + bytes.len();
    }
}
