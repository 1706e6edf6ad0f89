// Document 01: key sets, here given by their keys' numbers, and whether one opens a sum.
ghost use Rattle.std.specs.Prelude.{◌≡◌};
ghost use Rattle.product.specs.Atom.{agrees};
ghost use Rattle.product.specs.Product.{opens};
ghost use Rattle.product.specs.Cells.{product_of, sum_of};
ghost use Rattle.product.specs.Held.{held_by, opens_sum};

use crate::literal::{Key, Literal};
use crate::row::{Cells, size};
use crate::sum::{MOST_PRODUCTS, Rows};

// Whether a key set, given by its keys' numbers, opens some product of the sum: the first one that opens decides.
// C lends the rows and how many there are.
pub fn opens(rows: &Rows, n: usize, keys: &[u32]) -> bool
    ensures { result ≡ opens_sum (held_by keys.now) (sum_of n rows.now) }
{
    n <= MOST_PRODUCTS && rows[..n].iter().any(|row| product_opens(row, keys))
}

// Every literal agrees.
fn product_opens(row: &Cells, keys: &[u32]) -> bool
    ensures { result ≡ opens (held_by keys.now) (product_of row.now) }
{
    row[..size(row)]
        .iter()
        .all(|&x| agrees(Literal::from(x), keys))
}

// A plain key agrees where it is held, a barred one where it is not.
fn agrees(l: Literal, keys: &[u32]) -> bool
    ensures { result ≡ agrees (held_by keys.now) l }
{
    match l {
        Literal::Plain(key) => is_held(key, keys),
        Literal::Barred(key) => !is_held(key, keys),
    }
}

// With fewer keys a call of `contains` costs more than it saves.
const MANY_KEYS: usize = 8;

// The key's number is among those of the key set.
fn is_held(key: Key, keys: &[u32]) -> bool
    ensures { result ≡ held_by keys.now key }
{
    let number = u32::from(key);
    if keys.len() < MANY_KEYS {
        return keys.iter().any(|&x| x == number);
    }
    keys.contains(&number)
}
