// Bytes written into an array from a place on, as far as it reaches. No `Display` prints here: contracts have each byte, and the place that
// they come to where the array has ended, by which a result's length is known before a byte is written.
ghost use Rattle.std.specs.Prelude.{◌≡◌, [], ◌∷◌};
ghost use Rattle.text.specs.Writing.{plain, field, Ends, Wrote};
ghost use Rattle.text.specs.Writers.{Writes};

// The array, and the place of the next byte, which goes on where the array has ended.
#[derive(Drop)]
pub struct Writer<'a> {
    pub out: &'a mut [u8],
    pub at: usize,
}

impl<'a> Writer<'a> {
    pub(crate) fn put_byte(&mut self, byte: u8)
        requires { Ends self.old.at (plain (byte ∷ [])) }
        ensures { Writes self.old (plain (byte ∷ [])) self.new }
    {
        if self.at < self.out.len() {
            self.out[self.at] = byte;
        }
        self.at += 1;
    }

    // Bytes as they stand.
    pub fn put_bytes(&mut self, bytes: &[u8])
        requires { Ends self.old.at (plain bytes.now) }
        ensures { Writes self.old (plain bytes.now) self.new }
    {
        for byte in bytes {
            self.put_byte(*byte);
        }
    }

    // A field, and the tab or the line feed after it.
    pub fn put_field(&mut self, bytes: &[u8], end: u8)
        requires { Ends self.old.at (field bytes.now end) }
        ensures { Writes self.old (field bytes.now end) self.new }
    {
        self.put_bytes(bytes);
        self.put_byte(end);
    }
}
