// Bytes and decimal numbers, put one after the other into a buffer.
ghost use Rattle.std.specs.Prelude.{length};
ghost use Rattle.formula.specs.Spelling.{decimal as spelt};
ghost use Rattle.transcript.specs.Internal.{Put, Room};

// A lent buffer, and the place where the next byte goes.
#[derive(Drop)]
pub(crate) struct Output<'a> {
    pub(crate) buffer: &'a mut [u8],
    pub(crate) at: usize,
}

impl Output<'_> {
    // A number's decimal digits, with no leading zeros, as formula texts spell it. `write!` into fixed memory promises
    // no bytes, and a library's digits would have to be said to be these.
    pub(crate) fn decimal(&mut self, n: u16)
        requires { Room self.old (length (spelt n)) }
        ensures { Put self.old (spelt n) self.new }
    {
        if n >= 10 {
            self.decimal(n / 10);
        }
        self.put(&[b'0' + (n % 10) as u8]);
    }

    // Bytes as they are.
    #[tactic(auto, using(journal::proofs::StoredBytes::run_copied))]
    pub(crate) fn put(&mut self, s: &[u8])
        requires { Room self.old (length s.now) }
        ensures { Put self.old s.now self.new }
    {
        let end = self.at + s.len();
        self.buffer[self.at..end].copy_from_slice(s);
        self.at = end;
    }
}
