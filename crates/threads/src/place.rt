// The place of a live thread (document 01: live run), and a free place for a new one. A thread stands at its number's
// remainder by 64 if that was free when it started.
ghost use Rattle.std.specs.Prelude.{◌≡◌, Bool};
ghost use Rattle.model.specs.State.{Place, is_free, is_thread};
ghost use Rattle.model.specs.Cells.{place_in};
ghost use Rattle.threads.specs.Internal.{TestsPlaces};
ghost use Rattle.threads.specs.Places.{Placed};

use model::arrays::{LIVE, NUMBER, Thread, Threads};

// The place of the live thread with that number.
pub fn find(threads: &Threads, number: u16) -> Option<usize>
    ensures { Placed threads.now number (is_thread number) result }
{
    place_for(threads, number, |thread| is_thread(thread, number))
}

// A free place for a thread with that number.
pub(crate) fn find_free(threads: &Threads, number: u16) -> Option<usize>
    ensures { Placed threads.now number is_free result }
{
    place_for(threads, number, is_free)
}

// The thread's own place before all others, then the first that passes the test.
fn place_for<F: Fn(&Thread) -> bool>(threads: &Threads, number: u16, passes: F) -> Option<usize>
    requires { F.IsAlwaysCallable passes }
    ensures { (p : Place → Bool) → TestsPlaces F.Fn p passes → Placed threads.now number p result }
{
    let home = number as usize % threads.len();
    if passes(&threads[home]) {
        return Some(home);
    }
    threads.iter().position(passes)
}

fn is_thread(thread: &Thread, number: u16) -> bool
    ensures { result ≡ is_thread number (place_in thread.now) }
{
    (thread[0][LIVE] != 0) & (number == thread[0][NUMBER])
}

fn is_free(thread: &Thread) -> bool
    ensures { result ≡ is_free (place_in thread.now) }
{
    thread[0][LIVE] == 0
}
