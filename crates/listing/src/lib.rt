// The list of a segment's locks in rows that the caller lends: thin functions over the row maker of the crate below.
#![tactic(auto)]

ghost use Rattle.model.specs.Cells.{registry_is, segments_are, locks_are, ◌and◌};
ghost use Rattle.rows.specs.Listing.{ListsLent};

use crate::lent::list;
use model::answer::Answer;
use model::arrays::{Locks, Registry, Segments};
use rows::row::Row;

mod lent;
pub mod numbers;

// Writes the locks of a segment into the lent rows, as the user may see them. The answer is the number of rows filled.
pub fn list_locks(
    registry: &Registry,
    segments: &Segments,
    locks: &Locks,
    user: u16,
    segment: u16,
    rows: &mut [Row],
) -> Answer
    ensures { ListsLent
        (registry_is registry.now and segments_are segments.now and locks_are locks.now)
        user segment rows.old result rows.new }
{
    list(registry, segments, locks, user, segment, rows)
}
