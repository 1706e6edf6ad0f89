// The guard for C: the state is in arrays that the caller lends, and an answer is one number.
ghost use Rattle.std.specs.Prelude.{◌≡◌};
ghost use Rattle.formula.specs.Outcome.{outcome_of};
ghost use Rattle.call.specs.declared.request.Request.TheVariants.{CallSegment, ReturnCall, Access};
ghost use Rattle.call.specs.Calls.{call_with};
ghost use Rattle.model.specs.Cells.{cells_with, empty_cells};
ghost use Rattle.model.specs.Cells.{registry_is, segments_are, locks_are, threads_are, unchanged, ◌and◌};
ghost use Rattle.model.specs.Stores.{step_cells};
ghost use Rattle.abi.specs.Calls.{answer_code, Tells, TellsLent};

use call::request::Fields;
use guard::call;
use model::answer::Answer;
use model::arrays::{Locks, Makers, Registry, Segments, Threads};
use route::{access, call_segment};
use threads::calls::return_call;

// The empty state.
#[unsafe(no_mangle)]
pub extern "C" fn rotundaaloe_raw_empty(
    registry: &mut Registry,
    makers: &mut Makers,
    segments: &mut Segments,
    locks: &mut Locks,
    threads: &mut Threads,
)
    ensures { cells_with registry.new makers.new segments.new locks.new
        threads.new
        ≡ empty_cells }
{
    *registry = [0; 8];
    *makers = [0; 1024];
    *segments = [[[0; 8]; 2]; 64];
    *locks = [[[0; 8]; 8]; 64];
    *threads = [[[0; 8]; 17]; 64];
}

// One call: the answer if it is accepted, else the refusal's number * 65536 + its second number, and then no cell is
// changed.
#[unsafe(no_mangle)]
pub extern "C" fn rotundaaloe_raw_call(
    registry: &mut Registry,
    makers: &mut Makers,
    segments: &mut Segments,
    locks: &mut Locks,
    threads: &mut Threads,
    letter: u8,
    a: u16,
    b: u16,
    c: u16,
    text: &[u8],
) -> u32
    ensures { Tells (step_cells outcome_of
        (cells_with registry.old makers.old segments.old locks.old
        threads.old)
        (call_with letter a b c text.now)) result
        (cells_with registry.new makers.new segments.new locks.new
        threads.new) }
{
    let fields = Fields { letter, a, b, c };
    answer_code(call(registry, makers, segments, locks, threads, fields, text))
}

// C, R and A by themselves, for a host's hot path: what the call with that letter does.
#[unsafe(no_mangle)]
pub extern "C" fn rotundaaloe_raw_call_segment(
    registry: &Registry,
    segments: &Segments,
    locks: &Locks,
    threads: &mut Threads,
    a: u16,
    b: u16,
) -> u32
    ensures { TellsLent
        (registry_is registry.now and segments_are segments.now
        and locks_are locks.now and threads_are threads.old)
        (CallSegment a b) result
        (threads_are threads.new) }
{
    answer_code(call_segment(registry, segments, locks, threads, a, b))
}

#[unsafe(no_mangle)]
pub extern "C" fn rotundaaloe_raw_return_call(threads: &mut Threads, a: u16) -> u32
    ensures { TellsLent
        (threads_are threads.old)
        (ReturnCall a) result
        (threads_are threads.new) }
{
    answer_code(return_call(threads, a))
}

#[unsafe(no_mangle)]
pub extern "C" fn rotundaaloe_raw_access(
    registry: &Registry,
    segments: &Segments,
    locks: &Locks,
    threads: &Threads,
    a: u16,
    b: u16,
    c: u16,
) -> u32
    ensures { TellsLent
        (registry_is registry.now and segments_are segments.now
        and locks_are locks.now and threads_are threads.now)
        (Access a b c) result
        unchanged }
{
    answer_code(access(registry, segments, locks, threads, a, b, c))
}

// One number for C.
pub(crate) fn answer_code(answer: Answer) -> u32
    ensures { result ≡ answer_code answer }
{
    match answer {
        Ok(n) => u32::from(n),
        Err(refusal) => u32::from(refusal.number()) * 65536 + u32::from(refusal.second()),
    }
}
