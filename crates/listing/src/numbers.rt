// The same list in rows of numbers: an exported function can't be lent rows that hold an enum.
ghost use Rattle.std.specs.Prelude.{◌≡◌};
ghost use Rattle.model.specs.Cells.{registry_is, segments_are, locks_are, ◌and◌};
ghost use Rattle.listing.specs.Numbers.{ListsNumbers, row_numbers, slot_numbers, key_numbers};

use crate::lent::{LentRow, list};
use model::answer::Answer;
use model::arrays::{Locks, Registry, Segments};
use product::literal::{Key, Literal};
use rows::row::Row;

// The lock, the operations and 1 where it is a deny lock; then for each slot the letter of the key, which is 0 where
// it is blank, its number, and 1 where it is barred.
pub type Numbers = [[u16; 3]; 7];

// Writes the locks of a segment into the lent rows, as the user may see them. The answer is the number of rows filled.
#[tactic(auto, unfolding(crate::specs::Numbers::listed_numbers))]
pub fn list_numbers(
    registry: &Registry,
    segments: &Segments,
    locks: &Locks,
    user: u16,
    segment: u16,
    rows: &mut [Numbers],
) -> Answer
    ensures { ListsNumbers
        (registry_is registry.now and segments_are segments.now and locks_are locks.now)
        user segment rows.old result rows.new }
{
    list(registry, segments, locks, user, segment, rows)
}

impl LentRow for Numbers {
    ghost told = { row_numbers };

    fn tell(row: Row) -> Numbers {
        let [a, b, c, d, e, f] = row.keys.map(slot_numbers);
        [
            [row.lock, row.operations, u16::from(row.deny)],
            a,
            b,
            c,
            d,
            e,
            f,
        ]
    }
}

// No `From`: neither an Option nor an array is of this crate.
fn slot_numbers(slot: Option<Literal>) -> [u16; 3]
    ensures { result ≡ slot_numbers slot }
{
    match slot {
        None => [0; 3],
        Some(Literal::Plain(key)) => key_numbers(key, 0),
        Some(Literal::Barred(key)) => key_numbers(key, 1),
    }
}

// The letter as a text spells it.
fn key_numbers(key: Key, barred: u16) -> [u16; 3]
    ensures { result ≡ key_numbers key barred }
{
    let (letter, n) = match key {
        Key::User(n) => (b'U', n),
        Key::Thread(n) => (b'R', n),
        Key::Segment(n) => (b'S', n),
        Key::Defined(n) => (b'D', n),
    };
    [u16::from(letter), n, barred]
}
