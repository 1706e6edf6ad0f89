// Document 01: a segment's key list. A row of 8 cells, each a key or none.
ghost use Rattle.std.specs.Prelude.{◌≡◌, ◌<◌, eqb};
ghost use Rattle.std.specs.List.{list_any};
ghost use Rattle.model.specs.Limits.{most_segments};
ghost use Rattle.model.specs.Cells.{table_at, list_row};
ghost use Rattle.segments.specs.Internal.{Without};

use model::arrays::{NO_KEY, Row, Segments};

// The row of the segment's list. Its own S key is the segment's number, whatever stands in the first cell.
pub(crate) fn key_list(segments: &Segments, segment: u16) -> Row
    requires { segment < most_segments }
    ensures { result ≡ list_row segment (table_at segments.now segment) }
{
    let mut list = segments[segment as usize][1];
    list[0] = segment;
    list
}

// Cell by cell: `contains` reads the eight at once, and waits for the first, which was just written.
pub(crate) fn is_listed(list: &Row, code: u16) -> bool
    ensures { result ≡ list_any (λ x. eqb x code) list.now }
{
    list.iter().any(|&x| x == code)
}

// Keys closed up in a row's first cells, and how many they are: no `Vec`, since the guard has no heap.
#[derive(Clone, Copy)]
pub(crate) struct Kept {
    pub(crate) cells: Row,
    pub(crate) count: usize,
}

// The keys of the list but for that one.
pub(crate) fn without(list: &Row, code: u16) -> Kept
    ensures { Without list.now code result }
{
    let mut cells = [NO_KEY; 8];
    let mut count = 0;
    for x in list {
        if *x != NO_KEY && *x != code {
            cells[count] = *x;
            count += 1;
        }
    }
    Kept { cells, count }
}
