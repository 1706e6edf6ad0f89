// K, N, G and T. C lends the arrays one by one.
ghost use Rattle.call.specs.declared.request.Request.TheVariants.{NewSegment, NewKey, GiveKey, TakeKey};
ghost use Rattle.model.specs.Cells.{registry_is, makers_are, segments_are, locks_are, threads_are, ◌and◌};
ghost use Rattle.model.specs.Serving.{ServesLent};

use crate::list::{Kept, is_listed, key_list, without};
use crate::names::test_names;
use model::answer::{Answer, Refusal};
use model::arrays::{
    DEFINED, DEFINED_CODES, Locks, Makers, NO_KEY, OWNER, Registry, SEGMENTS, Segments, Threads,
};
use model::bounds::{MOST_DEFINED, MOST_LISTED, MOST_SEGMENTS};
use registry::defined;
use threads::editor::editor;
use threads::revocation::revoke;

// The greatest kind: 0 is code, 1 a sheet. A number, since a call may name any and a lent cell hold any.
const SHEET: u16 = 1;

// K, new D key (document 01); the thread's user is its maker.
pub fn new_key(
    registry: &mut Registry,
    makers: &mut Makers,
    threads: &Threads,
    thread: u16,
) -> Answer
    ensures { ServesLent
        (registry_is registry.old and makers_are makers.old and threads_are threads.now)
        (NewKey thread) result
        (registry_is registry.new and makers_are makers.new) }
{
    let user = editor(threads, thread)?;
    let key = defined(registry, makers);
    if MOST_DEFINED <= key {
        return Err(Refusal::Full);
    }
    makers[key] = user;
    registry[DEFINED] = key as u32 + 1;
    Ok(key as u16)
}

// N, new segment; the thread's user is its owner, and its key list starts with its own S key.
pub fn new_segment(
    registry: &mut Registry,
    segments: &mut Segments,
    locks: &mut Locks,
    threads: &Threads,
    thread: u16,
    kind: u16,
) -> Answer
    ensures { ServesLent
        (registry_is registry.old and segments_are segments.old and locks_are locks.old
        and threads_are threads.now)
        (NewSegment thread kind) result
        (registry_is registry.new and segments_are segments.new and locks_are locks.new) }
{
    let user = editor(threads, thread)?;
    if SHEET < kind {
        return Err(Refusal::Unfit);
    }
    let segment = registry[SEGMENTS];
    if MOST_SEGMENTS as u32 <= segment {
        return Err(Refusal::Full);
    }
    let s = segment as usize;
    let own = segment as u16;
    segments[s] = [
        [user, kind, 0, 0, 0, 0, 0, 0],
        [own, NO_KEY, NO_KEY, NO_KEY, NO_KEY, NO_KEY, NO_KEY, NO_KEY],
    ];
    locks[s][0][0] = 0;
    registry[SEGMENTS] = segment + 1;
    Ok(own)
}

// G, give key: a D key that the owner made goes into the segment's key list.
pub fn give_key(
    registry: &Registry,
    makers: &Makers,
    segments: &mut Segments,
    threads: &Threads,
    thread: u16,
    segment: u16,
    key: u16,
) -> Answer
    ensures { ServesLent
        (registry_is registry.now and makers_are makers.now and segments_are segments.old
        and threads_are threads.now)
        (GiveKey thread segment key) result
        (segments_are segments.new) }
{
    let user = editor(threads, thread)?;
    test_names(registry, makers, segment, key)?;
    let owner = segments[segment as usize][0][OWNER];
    let maker = makers[key as usize];
    if owner != user || maker != user {
        return Err(Refusal::NotOwner);
    }
    let list = key_list(segments, segment);
    let code = DEFINED_CODES + key;
    if is_listed(&list, code) {
        return Err(Refusal::AlreadyPresent);
    }
    let Kept { mut cells, count } = without(&list, code);
    if MOST_LISTED <= count {
        return Err(Refusal::Full);
    }
    cells[count] = code;
    segments[segment as usize][1] = cells;
    Ok(count as u16 + 1)
}

// T, take key: the owner takes a D key out of the list, and every open call of the segment loses it.
pub fn take_key(
    registry: &Registry,
    makers: &Makers,
    segments: &mut Segments,
    threads: &mut Threads,
    thread: u16,
    segment: u16,
    key: u16,
) -> Answer
    ensures { ServesLent
        (registry_is registry.now and makers_are makers.now and segments_are segments.old
        and threads_are threads.old)
        (TakeKey thread segment key) result
        (segments_are segments.new and threads_are threads.new) }
{
    let user = editor(threads, thread)?;
    test_names(registry, makers, segment, key)?;
    let owner = segments[segment as usize][0][OWNER];
    if owner != user {
        return Err(Refusal::NotOwner);
    }
    let list = key_list(segments, segment);
    let code = DEFINED_CODES + key;
    if !is_listed(&list, code) {
        return Err(Refusal::NotPresent);
    }
    let Kept { cells, count } = without(&list, code);
    segments[segment as usize][1] = cells;
    revoke(threads, segment, code);
    Ok(count as u16)
}
