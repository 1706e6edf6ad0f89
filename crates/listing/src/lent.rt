// A listing in lent rows of any form.
ghost use Rattle.std.specs.Prelude.{◌≡◌, ◌≤◌, map, length};
ghost use Rattle.model.specs.Cells.{registry_is, segments_are, locks_are, ◌and◌};
ghost use Rattle.rows.specs.declared.row.Row.{Row};
ghost use Rattle.listing.specs.Internal.{midway, ListsTold};

use model::answer::Answer;
use model::arrays::{Locks, Registry, Segments};
use rows::list::make;
use rows::row::Row;

// A form of rows that a caller lends: what a row is told as. Not std's `From`, which another crate's row and an array
// can't be given here.
pub(crate) trait LentRow: Copy {
    ghost told: { Row → Self };

    fn tell(row: Row) -> Self
        ensures { result ≡ told row };
}

// A row as it is.
impl LentRow for Row {
    ghost told = { λ r. r };

    fn tell(row: Row) -> Row {
        row
    }
}

// Writes the locks of a segment into the lent rows. The answer is the number of rows filled. The arrays and what is
// asked stay apart, as C lends them: a struct would be made here only for `make` to take apart.
pub(crate) fn list<R: LentRow>(
    registry: &Registry,
    segments: &Segments,
    locks: &Locks,
    user: u16,
    segment: u16,
    rows: &mut [R],
) -> Answer
    ensures { ListsTold R.told
        (registry_is registry.now and segments_are segments.now and locks_are locks.now)
        user segment rows.old result rows.new }
{
    let listing = make(registry, segments, locks, user, segment, rows.len())?;
    let n = listing.count;
    fill(rows, &listing.rows[..n]);
    Ok(n as u16)
}

// Tells the rows in the first of the lent ones, and leaves those after them.
fn fill<R: LentRow>(rows: &mut [R], made: &[Row])
    requires { length made.now ≤ length rows.old }
    ensures { rows.new ≡ midway (map R.told made.now) rows.old (length made.now) }
{
    for (i, row) in made.iter().enumerate() {
        rows[i] = R::tell(*row);
    }
}
