// L and D. C lends the arrays one by one.
ghost use Rattle.std.specs.Prelude.{◌≡◌, ◌<◌};
ghost use Rattle.call.specs.declared.request.Request.TheVariants.{AddLock, DropLock};
ghost use Rattle.model.specs.Cells.{registry_is, makers_are, segments_are, locks_are, threads_are, ◌and◌};
ghost use Rattle.model.specs.Serving.{ServesText, ServesLent};
ghost use Rattle.locks.specs.Internal.{set_limit, issued_in, LockStored};

use crate::cells::Lock;
use crate::rows::{add_rows, drop_rows, segment_of, used};
use formula::text::{Compiled, Issued, compile};
use model::answer::{Answer, Refusal};
use model::arrays::{
    KIND, LOCKS, Locks, Makers, OWNER, Products, Registry, Segments, THREADS, Threads, USERS,
};
use model::bounds::{MOST_NUMBERS, MOST_STANDING};
use model::operations::Operations;
use registry::{defined as defined_in, segments as segments_in};
use threads::editor::editor;

// L, add lock. The answer is the lock number.
pub fn add_lock(
    registry: &mut Registry,
    makers: &Makers,
    segments: &Segments,
    locks: &mut Locks,
    threads: &Threads,
    thread: u16,
    segment: u16,
    operations: u16,
    text: &[u8],
) -> Answer
    ensures { ServesText
        (registry_is registry.old and makers_are makers.now
        and segments_are segments.now and locks_are locks.old and threads_are threads.now)
        (AddLock thread segment operations) text.now result
        (registry_is registry.new and locks_are locks.new) }
{
    let user = editor(threads, thread)?;
    let s = segment as usize;
    if segments_in(registry) <= s {
        return Err(Refusal::NoSegment);
    }
    let owner = segments[s][0][OWNER];
    if owner != user {
        return Err(Refusal::NotOwner);
    }
    let operations = Operations {
        bits: operations as u32,
    };
    if !operations.fits(segments[s][0][KIND]) {
        return Err(Refusal::Unfit);
    }
    let compiled = compile(text, issued(registry, makers))?;
    store_lock(registry, &mut locks[s], operations, compiled)
}

// The keys that a text may name: those handed out.
fn issued(registry: &Registry, makers: &[u16]) -> Issued
    ensures { result ≡ issued_in registry.now makers.now }
{
    Issued {
        users: registry[USERS],
        threads: registry[THREADS],
        segments: segments_in(registry) as u32,
        defined: defined_in(registry, makers) as u32,
    }
}

// The next lock, with the compiled products, goes into the segment's rows.
fn store_lock(
    registry: &mut Registry,
    products: &mut Products,
    operations: Operations,
    compiled: Compiled,
) -> Answer
    requires { operations.bits < set_limit }
    ensures { LockStored registry.old products.old operations.bits compiled result
        registry.new products.new }
{
    let from = used(products);
    if MOST_STANDING - from < compiled.count {
        return Err(Refusal::Full);
    }
    let number = registry[LOCKS];
    if MOST_NUMBERS <= number {
        return Err(Refusal::Full);
    }
    let lock = Lock {
        number: number as u16,
        operations,
    };
    add_rows(products, from, lock, compiled);
    registry[LOCKS] = number + 1;
    Ok(number as u16)
}

// D, drop lock. The answer is how many products were removed.
pub fn drop_lock(
    registry: &Registry,
    segments: &Segments,
    locks: &mut Locks,
    threads: &Threads,
    thread: u16,
    lock: u16,
) -> Answer
    ensures { ServesLent
        (registry_is registry.now and segments_are segments.now and locks_are locks.old
        and threads_are threads.now)
        (DropLock thread lock) result
        (locks_are locks.new) }
{
    let user = editor(threads, thread)?;
    let n = segments_in(registry);
    let s = segment_of(&locks[..n], lock).ok_or(Refusal::NoLock)?;
    let owner = segments[s][0][OWNER];
    if owner != user {
        return Err(Refusal::NotOwner);
    }
    let dropped = drop_rows(&mut locks[s], lock);
    Ok(dropped as u16)
}
