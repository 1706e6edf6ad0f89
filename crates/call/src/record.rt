// A call as a journal may hold it: well formed, and with a text of the right length.
ghost use Rattle.std.specs.Prelude.{◌≡◌};
ghost use Rattle.call.specs.Calls.{text_fits, record_fits};

use crate::letters::ADD_LOCK;
use crate::request::Fields;

// The most bytes of a lock's text.
const MOST_TEXT: usize = 96;

impl Fields {
    // Whether the letter is known, the fields that it does not name are 0, and the length of the call's text is right:
    // 1 to 96 bytes with L, else 0.
    pub fn fits(self, size: usize) -> bool
        ensures { result ≡ record_fits self.letter self.a self.b self.c size }
    {
        // The text is judged here alone, so the fields are judged as without one.
        match self.decode(0) {
            Some(_) => text_fits(self.letter, size),
            None => false,
        }
    }
}

fn text_fits(letter: u8, size: usize) -> bool
    ensures { result ≡ text_fits letter size }
{
    if letter == ADD_LOCK {
        (1..=MOST_TEXT).contains(&size)
    } else {
        size == 0
    }
}
