// Request P5: an accepted T withdraws the key from every open call of that segment, of every thread.
ghost use Rattle.std.specs.Prelude.{◌≡◌, cond, map, ◌+◌, ◌<◌, eqb};
ghost use Rattle.std.specs.List.{list_all};
ghost use Rattle.model.specs.Cells.{no_key};
ghost use Rattle.model.specs.Stores.{revoke_row, revoke_code};
ghost use Rattle.threads.specs.Internal.{is_idle};

use crate::frames::depth;
use model::arrays::{FRAMES, NO_KEY, Row, Thread, Threads};

// The key with that code goes from every frame of the segment. Most threads have no frame, so four are asked at a time.
// `chunks_exact_mut(4)` and `chunks_mut(4)` were tried: neither says what the slice ends as, so `returns` stayed open.
pub fn revoke(threads: &mut Threads, segment: u16, code: u16)
    ensures { threads.new ≡ map (revoke_code segment code) threads.old }
{
    for group in 0..threads.len() / 4 {
        let first = group * 4;
        revoke_each(&mut threads[first..first + 4], segment, code);
    }
}

// From each of the threads, unless none of them has a frame.
fn revoke_each(threads: &mut [Thread], segment: u16, code: u16)
    ensures { threads.new ≡ map (revoke_code segment code) threads.old }
{
    if are_idle(threads) {
        return;
    }
    for thread in threads.iter_mut() {
        revoke_in(thread, segment, code);
    }
}

fn are_idle(threads: &[Thread]) -> bool
    ensures { result ≡ list_all is_idle threads.now }
{
    threads.iter().all(|thread| thread[0][FRAMES] == 0)
}

// From the newest frame to the oldest.
fn revoke_in(thread: &mut Thread, segment: u16, code: u16)
    ensures { thread.new ≡ revoke_code segment code thread.old }
{
    for frame in (0..depth(thread)).rev() {
        revoke_row(&mut thread[frame + 1], segment, code);
    }
}

fn revoke_row(row: &mut Row, segment: u16, code: u16)
    ensures { row.new ≡ revoke_row segment code row.old }
{
    if row[0] == segment {
        strike(row, code);
    }
}

// The key goes from every cell: eight without a jump.
fn strike(row: &mut Row, code: u16)
    ensures { row.new ≡ map (λ x. cond (eqb code x) no_key x) row.old }
{
    for cell in row.iter_mut() {
        *cell = if *cell == code { NO_KEY } else { *cell };
    }
}
