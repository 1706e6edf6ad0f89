// The newest frame (document 01: open call) of a thread that hands a key over: the check asks for it by a code, the key
// search by a key.
ghost use Rattle.std.specs.Prelude.{◌≡◌};
ghost use Rattle.model.specs.Cells.{depth_of};
ghost use Rattle.checking.specs.Newest.{NewestPlace};
ghost use Rattle.checking.specs.Internal.{newest_row, list_code, RowFits, FramesFit};

use model::arrays::{DEFINED_CODES, FRAMES, NO_KEY, Thread};
use model::bounds::MOST_FRAMES;
use product::literal::Key;

// A thread with the count of its frames.
#[derive(Clone, Copy)]
pub(crate) struct Frames<'a> {
    pub(crate) thread: &'a Thread,
    depth: usize,
    ghost counted: { depth ≡ depth_of thread.now },
}

impl<'a> Frames<'a> {
    pub(crate) fn of(thread: &'a Thread) -> Frames<'a>
        ensures { result.thread.now ≡ thread.now }
    {
        let depth = (thread[0][FRAMES] as usize).min(MOST_FRAMES);
        Frames { thread, depth }
    }

    // The row of the newest frame that has the code: the newest is asked first.
    pub(crate) fn newest_row(self, code: u16) -> Option<usize>
        ensures { result ≡ newest_row self.entry.thread.now (depth_of self.entry.thread.now) code }
    {
        for row in (1..=self.depth).rev() {
            if self.thread[row].contains(&code) {
                return Some(row);
            }
        }
        None
    }

    // Every cell of a frame is a number of 16 bits, so no frame has a D key whose code needs more. The proofs learn it
    // of a row that is read as a slice; nothing is left of the loop when it is compiled.
    fn fit(self)
        ensures { FramesFit self.entry.thread.now (depth_of self.entry.thread.now) }
    {
        for row in 1..=self.depth {
            let cells: &[u16] = &self.thread[row];
            let first = cells[0];
        }
    }
}

// The place, 0 for the newest, of the newest frame that hands the key over.
pub fn newest_call(thread: &Thread, key: Key) -> Option<usize>
    ensures { NewestPlace thread.now key result }
{
    let frames = Frames::of(thread);
    frames.fit();
    let code = code_of(key)?;
    let row = frames.newest_row(code)?;
    Some(frames.depth - row)
}

// The key's code in key lists; U and R keys have none, and numbers that no list can hold.
fn code_of(key: Key) -> Option<u16>
    ensures { result ≡ list_code key }
{
    match key {
        Key::User(_) | Key::Thread(_) => None,
        Key::Segment(n) => (n < DEFINED_CODES).then_some(n),
        Key::Defined(n) => n.checked_add(DEFINED_CODES).filter(|&code| code < NO_KEY),
    }
}
