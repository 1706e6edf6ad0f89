// The list of a segment's locks for C: rows of numbers that the caller lends.
ghost use Rattle.model.specs.Cells.{registry_is, segments_are, locks_are, ◌and◌};
ghost use Rattle.abi.specs.LockList.{TellsLocks};

use crate::calls::answer_code;
use listing::numbers::list_numbers;
use model::arrays::{Locks, Registry, Segments};

// The number of rows filled, or a refusal's number * 65536, and then no row is changed.
#[unsafe(no_mangle)]
pub extern "C" fn rotundaaloe_raw_list_locks(
    registry: &Registry,
    segments: &Segments,
    locks: &Locks,
    user: u16,
    segment: u16,
    rows: &mut [[[u16; 3]; 7]],
) -> u32
    ensures { TellsLocks
        (registry_is registry.now and segments_are segments.now and locks_are locks.now)
        user segment rows.old result rows.new }
{
    answer_code(list_numbers(registry, segments, locks, user, segment, rows))
}
