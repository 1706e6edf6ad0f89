// The guard: the one entry for the twelve calls, on the arrays that the host lends.
#![tactic(auto)]

ghost use Rattle.call.specs.Calls.{call_from};
ghost use Rattle.model.specs.Cells.{cells_with};
ghost use Rattle.model.specs.Serving.{Serves, Answers};

use call::request::{Fields, Request};
use locks::calls::{add_lock, drop_lock};
use model::answer::{Answer, Refusal};
use model::arrays::{Locks, Makers, Registry, Segments, Threads};
use registry::new_user;
use route::{access, call_segment};
use segments::calls::{give_key, new_key, new_segment, take_key};
use threads::calls::{end_thread, return_call, start_thread};

// A call: its letter and fields, and its text. One that is not well formed is refused before all else.
pub fn call(
    registry: &mut Registry,
    makers: &mut Makers,
    segments: &mut Segments,
    locks: &mut Locks,
    threads: &mut Threads,
    fields: Fields,
    text: &[u8],
) -> Answer
    ensures { Answers
        (cells_with registry.old makers.old segments.old locks.old
        threads.old)
        (call_from fields text.now) result
        (cells_with registry.new makers.new segments.new locks.new
        threads.new) }
{
    let request = fields.decode(text.len()).ok_or(Refusal::Corrupt)?;
    serve(registry, makers, segments, locks, threads, request, text)
}

// A well formed call. Each function is lent the arrays that it needs, and mutably those that it may write.
fn serve(
    registry: &mut Registry,
    makers: &mut Makers,
    segments: &mut Segments,
    locks: &mut Locks,
    threads: &mut Threads,
    request: Request,
    text: &[u8],
) -> Answer
    ensures { Serves
        (cells_with registry.old makers.old segments.old locks.old
        threads.old)
        request text.now result
        (cells_with registry.new makers.new segments.new locks.new
        threads.new) }
{
    match request {
        Request::NewUser => new_user(registry),
        Request::StartThread(user) => start_thread(registry, threads, user),
        Request::EndThread(number) => end_thread(threads, number),
        Request::NewSegment(thread, kind) => new_segment(
            registry, segments, locks, threads, thread, kind,
        ),
        Request::NewKey(thread) => new_key(registry, makers, threads, thread),
        Request::GiveKey(thread, segment, key) => give_key(
            registry, makers, segments, threads, thread, segment, key,
        ),
        Request::TakeKey(thread, segment, key) => take_key(
            registry, makers, segments, threads, thread, segment, key,
        ),
        Request::AddLock(thread, segment, operations) => add_lock(
            registry, makers, segments, locks, threads, thread, segment, operations, text,
        ),
        Request::DropLock(thread, lock) => drop_lock(
            registry, segments, locks, threads, thread, lock,
        ),
        Request::CallSegment(number, segment) => call_segment(
            registry, segments, locks, threads, number, segment,
        ),
        Request::ReturnCall(number) => return_call(threads, number),
        Request::Access(number, segment, operation) => access(
            registry, segments, locks, threads, number, segment, operation,
        ),
    }
}
