// Document 01: a run's open calls. Each has the key list that was handed over, until it returns; what is taken from it
// meanwhile is in `revocation`.
ghost use Rattle.std.specs.Prelude.{◌≡◌, cond, ltb, set};
ghost use Rattle.model.specs.Limits.{most_frames};
ghost use Rattle.model.specs.Cells.{cell, row_at, frame_count, depth_of};
ghost use Rattle.model.specs.Stores.{push_row};
ghost use Rattle.base.specs.Counts.{Counted};

use model::arrays::{FRAMES, Row, Thread};
use model::bounds::MOST_FRAMES;

// How many frames the thread has.
pub fn depth(thread: &Thread) -> usize
    ensures { Counted (cell (row_at thread.now 0) frame_count) most_frames result }
{
    (thread[0][FRAMES] as usize).min(MOST_FRAMES)
}

// Document 01: a granted call hands the run the segment's key list as it then is. A new frame with that key list, the
// segment's own S key first, where there is room for one.
pub fn push(thread: &mut Thread, list: &Row, segment: u16) -> bool
    ensures room { result ≡ ltb (depth_of thread.old) most_frames }
    ensures rows { thread.new
        ≡ cond (ltb (depth_of thread.old) most_frames)
        (push_row (set list.now 0 segment) thread.old) thread.old }
{
    let frames = depth(thread);
    if MOST_FRAMES <= frames {
        return false;
    }
    let newest = frames + 1;
    thread[newest] = *list;
    thread[newest][0] = segment;
    thread[0][FRAMES] = newest as u16;
    true
}
