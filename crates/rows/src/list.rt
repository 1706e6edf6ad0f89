// The row maker: the rows of a listing, or what refuses it.
ghost use Rattle.std.specs.Prelude.{◌≡◌, [], ◌<◌};
ghost use Rattle.model.specs.Limits.{most_standing};
ghost use Rattle.model.specs.Cells.{registry_is, segments_are, locks_are, ◌and◌};
ghost use Rattle.rows.specs.Making.{listing_of, Makes};
ghost use Rattle.rows.specs.Internal.{Gathered, with_row};

use crate::row::{Row, row_of};
use model::answer::Refusal;
use model::arrays::{LOCK_UNIT, Locks, OWNER, Products, Registry, Segments};
use registry::{is_user, segments as segments_in};

// The first `count` of the rows; the others are spare. An array and its count, since the guard has no heap.
#[derive(Clone, Copy)]
pub struct Listing {
    pub count: usize,
    pub rows: [Row; 8],
}

impl Listing {
    fn empty() -> Listing
        ensures { result ≡ listing_of [] }
    {
        let row = Row {
            lock: 0,
            operations: 0,
            deny: false,
            keys: [None; 6],
        };
        Listing {
            count: 0,
            rows: [row; 8],
        }
    }

    fn push(&mut self, row: Row)
        requires { self.old.count < most_standing }
        ensures { self.new ≡ with_row self.old row }
    {
        self.rows[self.count] = row;
        self.count += 1;
    }
}

// The listing of the segment's locks for the user, who lends that many rows.
pub fn make(
    registry: &Registry,
    segments: &Segments,
    locks: &Locks,
    user: u16,
    segment: u16,
    lent: usize,
) -> Result<Listing, Refusal>
    ensures { Makes
        (registry_is registry.now and segments_are segments.now and locks_are locks.now)
        user segment lent result }
{
    if !is_user(registry, user) {
        return Err(Refusal::UnknownUser);
    }
    let s = segment as usize;
    if segments_in(registry) <= s {
        return Err(Refusal::NoSegment);
    }
    let owner = segments[s][0][OWNER];
    let listing = gather(&locks[s], owner == user);
    if lent < listing.count {
        return Err(Refusal::TooFewRows);
    }
    Ok(listing)
}

// The rows of a segment's products: shown, one for each, and else a blank one for each lock, whose products stand
// together.
fn gather(products: &Products, shown: bool) -> Listing
    ensures { Gathered shown products.now result }
{
    let mut listing = Listing::empty();
    let mut last = None;
    for product in products {
        let head = product[0];
        if head == 0 {
            return listing;
        }
        let lock = head / LOCK_UNIT;
        if shown || Some(lock) != last {
            listing.push(row_of(product, shown));
        }
        last = Some(lock);
    }
    listing
}
