// The product rows of one segment's standing locks, each with its lock number: the used ones are those before the first
// that begins with 0.
ghost use Rattle.std.specs.Prelude.{◌≡◌, ◌+◌, ◌≤◌, position};
ghost use Rattle.model.specs.Limits.{most_standing};
ghost use Rattle.model.specs.Stores.{end_rows, store_rows};
ghost use Rattle.locks.specs.Internal.{ends, UsedCount, is_of, has_row, segment_of_lock};
ghost use Rattle.locks.specs.Internal.{ClosedUp, Dropped, rows_from};

use crate::cells::Lock;
use formula::text::Compiled;
use model::arrays::{LOCK_UNIT, Products};

// How many rows are used.
pub(crate) fn used(products: &Products) -> usize
    ensures { UsedCount products.now result }
{
    end(products).unwrap_or(products.len())
}

fn end(products: &Products) -> Option<usize>
    ensures { result ≡ position ends products.now }
{
    products.iter().position(|row| row[0] == 0)
}

// Whether a used row is of the lock.
fn has_row(products: &Products, lock: u16) -> bool
    ensures { result ≡ has_row lock products.now }
{
    // one pass: over the rows that `used` counts, a D takes up to three times as long
    products
        .iter()
        .take_while(|row| row[0] != 0)
        .any(|row| is_of(row, lock))
}

fn is_of(row: &[u32; 8], lock: u16) -> bool
    ensures { result ≡ is_of lock row.now }
{
    row[0] / LOCK_UNIT == lock as u32
}

// The first of the segments that has a row of the lock.
pub(crate) fn segment_of(locks: &[Products], lock: u16) -> Option<usize>
    ensures { result ≡ segment_of_lock lock locks.now }
{
    locks.iter().position(|products| has_row(products, lock))
}

// Drops the rows of the lock, closes up the others, and answers how many went.
pub(crate) fn drop_rows(products: &mut Products, lock: u16) -> usize
    ensures { Dropped lock products.old products.new result }
{
    let n = used(products);
    let kept = close_up(products, n, lock);
    end_rows(products, kept);
    n - kept
}

// Stores the rows of a lock's products from row `from` on.
pub(crate) fn add_rows(products: &mut Products, from: usize, lock: Lock, compiled: Compiled)
    requires { from + compiled.count ≤ most_standing }
    ensures { products.new
        ≡ store_rows from (rows_from lock.number lock.operations.bits compiled) products.old }
{
    for k in 0..compiled.count {
        products[from + k] = lock.row(&compiled.rows[k]);
    }
    end_rows(products, from + compiled.count);
}

// Marks the end of the rows before row n; after the last row there is no mark.
pub(crate) fn end_rows(products: &mut Products, n: usize)
    ensures { products.new ≡ end_rows products.old n }
{
    if n < products.len() {
        products[n][0] = 0;
    }
}

// Moves those of the first n rows that are not of the lock to the front, and answers how many they are.
fn close_up(products: &mut Products, n: usize, lock: u16) -> usize
    requires { n ≤ most_standing }
    ensures { ClosedUp lock n products.old products.new result }
{
    let mut to = 0;
    for from in 0..n {
        if !is_of(&products[from], lock) {
            products[to] = products[from];
            to += 1;
        }
    }
    to
}
