// A row of a lock list, and the row that a product row of the arrays makes.
ghost use Rattle.std.specs.Prelude.{◌≡◌, ◌<◌};
ghost use Rattle.product.specs.Sum.{most_literals};
ghost use Rattle.model.specs.Cells.{product_in};
ghost use Rattle.rows.specs.Internal.{key_in, row_in};

use checking::keys::literal_in;
use model::arrays::{LITERAL_COUNTS, LITERAL_UNIT, LOCK_UNIT};
use model::operations::Operations;
use product::literal::Literal;
use std::array;

#[derive(Clone, Copy)]
pub struct Row {
    pub lock: u16,
    // of 1, 2 and 4; whether it is a deny lock is said beside them
    pub operations: u16,
    pub deny: bool,
    // document 01: signed keys; in the product's order, and blank beyond the last
    pub keys: [Option<Literal>; 6],
}

// The row of the product in those cells; where it isn't shown, with blank keys.
pub(crate) fn row_of(cells: &[u32; 8], shown: bool) -> Row
    ensures { result ≡ row_in shown (product_in cells.now) }
{
    let head = cells[0];
    let set = Operations {
        bits: head % LITERAL_UNIT,
    };
    let n = if shown {
        head / LITERAL_UNIT % LITERAL_COUNTS
    } else {
        0
    };
    Row {
        lock: (head / LOCK_UNIT) as u16,
        operations: (set.bits % Operations::DENY) as u16,
        deny: set.has(Operations::DENY),
        keys: array::from_fn(|i| key_at(cells, n, i)),
    }
}

// Key i of n.
#[tactic(auto, unfolding(crate::specs::Internal::key_in))]
fn key_at(cells: &[u32; 8], n: u32, i: usize) -> Option<Literal>
    requires { i < most_literals }
    ensures { result ≡ key_in n cells.now i }
{
    if i < n as usize {
        Some(literal_in(cells[i + 1]))
    } else {
        None
    }
}
