// An output that is filled from its front on. Uses nothing but the standard library, and allocates nothing.
ghost use Rattle.std.specs.Prelude.{◌≡◌, ◌≤◌};
ghost use Rattle.sheet_format.specs.Bytes.{bytes_of};
ghost use Rattle.sheet_writer.specs.Puts.{Room, Puts};

// An output, and the place where its next byte goes.
#[derive(Drop)]
pub(crate) struct Output<'a> {
    bytes: &'a mut [u8],
    at: usize,
}

impl<'a> Output<'a> {
    // An output in which nothing is put yet.
    pub(crate) fn new(bytes: &'a mut [u8]) -> Output<'a>
        ensures empty { result.at ≡ 0 }
        ensures bytes { result.bytes.now ≡ bytes.old }
        ensures same_reference { result.bytes.ghost_name ≡ bytes.entry.ghost_name }
    {
        Output { bytes, at: 0 }
    }

    // Puts these bytes.
    pub(crate) fn put(&mut self, bytes: &[u8])
        requires { Room self.old bytes.now }
        ensures { Puts self.old bytes.now self.new }
    {
        let end = self.at + bytes.len();
        self.bytes[self.at..end].copy_from_slice(bytes);
        self.at = end;
    }

    // Puts a number in so many bytes, the lowest first.
    pub(crate) fn put_number(&mut self, width: usize, number: u64)
        requires room { Room self.old (bytes_of width number) }
        requires narrow { width ≤ 8 }
        ensures { Puts self.old (bytes_of width number) self.new }
    {
        self.put(&number.to_le_bytes()[..width]);
    }
}
