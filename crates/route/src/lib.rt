// Access route control: C and A, granted by the keys that the thread's open calls have handed over.
#![tactic(auto)]

ghost use Rattle.call.specs.declared.request.Request.TheVariants.{CallSegment, Access};
ghost use Rattle.model.specs.Cells.{registry_is, segments_are, locks_are, threads_are, unchanged, ◌and◌};
ghost use Rattle.model.specs.Serving.{ServesLent};

use checking::check;
use model::answer::{Answer, Refusal};
use model::arrays::{KIND, Locks, Registry, Segments, Threads};
use model::operations::{Operations, is_access, is_taken};
use threads::frames::push;
use threads::place::find;

// C, call.
pub fn call_segment(
    registry: &Registry,
    segments: &Segments,
    locks: &Locks,
    threads: &mut Threads,
    number: u16,
    segment: u16,
) -> Answer
    ensures { ServesLent
        (registry_is registry.now and segments_are segments.now
        and locks_are locks.now and threads_are threads.old)
        (CallSegment number segment) result
        (threads_are threads.new) }
{
    let place = find(threads, number).ok_or(Refusal::NoThread)?;
    let s = segment as usize;
    if registry::segments(registry) <= s {
        return Err(Refusal::NoSegment);
    }
    if !is_taken(Operations::EXECUTE, segments[s][0][KIND]) {
        return Err(Refusal::Unfit);
    }
    let lock = check(&threads[place], &locks[s], Operations::EXECUTE)?;
    if push(&mut threads[place], &segments[s][1], segment) {
        Ok(lock)
    } else {
        Err(Refusal::Full)
    }
}

// A, access.
pub fn access(
    registry: &Registry,
    segments: &Segments,
    locks: &Locks,
    threads: &Threads,
    number: u16,
    segment: u16,
    operation: u16,
) -> Answer
    ensures { ServesLent
        (registry_is registry.now and segments_are segments.now
        and locks_are locks.now and threads_are threads.now)
        (Access number segment operation) result
        unchanged }
{
    let place = find(threads, number).ok_or(Refusal::NoThread)?;
    let s = segment as usize;
    if registry::segments(registry) <= s {
        return Err(Refusal::NoSegment);
    }
    let n = operation as u32;
    if !(is_access(n) & is_taken(n, segments[s][0][KIND])) {
        return Err(Refusal::Unfit);
    }
    Ok(check(&threads[place], &locks[s], n)?)
}
