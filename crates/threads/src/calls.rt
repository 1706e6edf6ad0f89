// S, E and R.
ghost use Rattle.call.specs.declared.request.Request.TheVariants.{StartThread, EndThread, ReturnCall};
ghost use Rattle.model.specs.Cells.{registry_is, threads_are, ◌and◌};
ghost use Rattle.model.specs.Serving.{ServesLent};

use crate::frames::depth;
use crate::place::{find, find_free};
use model::answer::{Answer, Refusal};
use model::arrays::{FRAMES, LIVE, Registry, THREADS, Threads};
use model::bounds::MOST_NUMBERS;
use registry::is_user;

// S, start thread (document 01: run).
pub fn start_thread(registry: &mut Registry, threads: &mut Threads, user: u16) -> Answer
    ensures { ServesLent
        (registry_is registry.old and threads_are threads.old)
        (StartThread user) result
        (registry_is registry.new and threads_are threads.new) }
{
    if !is_user(registry, user) {
        return Err(Refusal::UnknownUser);
    }
    let numbers = registry[THREADS];
    if MOST_NUMBERS <= numbers {
        return Err(Refusal::Full);
    }
    let number = numbers as u16;
    let free = find_free(threads, number).ok_or(Refusal::Full)?;
    registry[THREADS] = numbers + 1;
    threads[free][0] = [number, user, 0, 1, 0, 0, 0, 0];
    Ok(number)
}

// E, end thread. The answer is how many open calls were closed.
pub fn end_thread(threads: &mut Threads, number: u16) -> Answer
    ensures { ServesLent
        (threads_are threads.old)
        (EndThread number) result
        (threads_are threads.new) }
{
    let place = find(threads, number).ok_or(Refusal::NoThread)?;
    let frames = depth(&threads[place]);
    threads[place][0][LIVE] = 0;
    Ok(frames as u16)
}

// R, return from the newest open call. The answer is its segment.
pub fn return_call(threads: &mut Threads, number: u16) -> Answer
    ensures { ServesLent
        (threads_are threads.old)
        (ReturnCall number) result
        (threads_are threads.new) }
{
    let place = find(threads, number).ok_or(Refusal::NoThread)?;
    let frames = depth(&threads[place]);
    if frames == 0 {
        return Err(Refusal::NotPresent);
    }
    let segment = threads[place][frames][0];
    threads[place][0][FRAMES] = (frames - 1) as u16;
    Ok(segment)
}
