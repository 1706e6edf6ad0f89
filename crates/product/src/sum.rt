// Sums of products in 8 rows: the sum of one literal, and two sums joined by AND and by OR.
ghost use Rattle.std.specs.Prelude.{◌≡◌, [], ◌∷◌, map, None, Some};
ghost use Rattle.product.specs.Sum.{Sum?, conjoin, disjoin, joined, present, join_each};
ghost use Rattle.product.specs.Cells.{product_of, sum_of, HoldsSum};
ghost use Rattle.product.specs.Internal.{Clean, add_to, add_each};

use crate::literal::Literal;
use crate::row;
use crate::row::{Cells, Wide};
use std::marker::Model;

// Document 01: list of products. A sum's rows, each of them a product: its literals from cell 0 on, and how many they
// are.
pub type Rows = [[u32; 8]; 8];

pub const COUNT_CELL: usize = 7;

// Document 01: a node fits with at most 8 products of at most 6 signed keys. Then the count of a sum that is too wide:
// a number, since C lends rows and a count (`opens`), and an Option beside them would be a second form of a sum.
pub const MOST_LITERALS: usize = 6;

pub const MOST_PRODUCTS: usize = 8;

pub const TOO_WIDE: usize = 9;

// The sum of one literal.
pub fn single(l: Literal, rows: &mut Rows) -> usize
    ensures { HoldsSum (Some ((l ∷ []) ∷ [])) rows.new result }
{
    *rows = [[0u32; 8]; 8];
    let cell = u32::from(l);
    rows[0] = [cell, 0, 0, 0, 0, 0, 0, 1];
    1
}

// The list of an AND node: each left product, in order, joined with each right one.
pub fn conjoin(left: &Rows, n: usize, right: &Rows, m: usize, rows: &mut Rows) -> usize
    ensures { HoldsSum
        (joined conjoin (sum_of n left.now) (sum_of m right.now)) rows.new result }
{
    if MOST_PRODUCTS < n || MOST_PRODUCTS < m {
        return store_too_wide(rows);
    }
    let mut sum = SumRows::new();
    for p in &left[..n] {
        sum.add_joined(p, &right[..m]);
    }
    sum.store(rows)
}

// The list of an OR node: the left products, then the right ones.
pub fn disjoin(left: &Rows, n: usize, right: &Rows, m: usize, rows: &mut Rows) -> usize
    ensures { HoldsSum
        (joined disjoin (sum_of n left.now) (sum_of m right.now)) rows.new result }
{
    if MOST_PRODUCTS < n || MOST_PRODUCTS < m {
        return store_too_wide(rows);
    }
    let mut sum = SumRows::new();
    for p in left[..n].iter().chain(&right[..m]) {
        sum.add(&Wide::widen(p));
    }
    sum.store(rows)
}

// A sum that is being made: its rows, and how many products they have, 9 where the sum is too wide. No heap, so no Vec.
#[derive(Drop)]
struct SumRows {
    rows: Rows,
    count: usize,
}

// Clauses see the sum.
impl Model for SumRows {
    ghost Value = { Sum? };

    ghost view = { λ s. sum_of s.count s.rows };

    ghost invariant = { λ s. Clean s.rows s.count };
}

impl SumRows {
    fn new() -> SumRows
        ensures { result ≡ Some [] }
    {
        SumRows {
            rows: [[0u32; 8]; 8],
            count: 0,
        }
    }

    // Adds p joined with each product of another sum.
    fn add_joined(&mut self, p: &Cells, more: &[Cells])
        ensures { self.new
            ≡ add_each self.old (join_each (product_of p.now) (map product_of more.now)) }
    {
        for q in more {
            self.add(&Wide::join(p, q));
        }
    }

    // Adds a product, unless it is contradictory or there already.
    fn add(&mut self, product: &Wide)
        ensures { self.new ≡ add_to self.old product.now }
    {
        if MOST_PRODUCTS < self.count {
            return;
        }
        if product.is_contradictory() {
            return;
        }
        if MOST_LITERALS < product.size() {
            self.count = TOO_WIDE;
            return;
        }
        let row = product.narrow();
        if is_present(&row, &self.rows[..self.count]) {
            return;
        }
        if self.count == MOST_PRODUCTS {
            self.count = TOO_WIDE;
            return;
        }
        self.rows[self.count] = row;
        self.count += 1;
    }

    // Leaves no cell of a sum that is too wide.
    fn store(&self, rows: &mut Rows) -> usize
        ensures { HoldsSum self.now rows.new result }
    {
        if MOST_PRODUCTS < self.count {
            return store_too_wide(rows);
        }
        rows.copy_from_slice(&self.rows);
        self.count
    }
}

fn store_too_wide(rows: &mut Rows) -> usize
    ensures { HoldsSum None rows.new result }
{
    *rows = [[0u32; 8]; 8];
    TOO_WIDE
}

// The row's product is among those of the rows.
fn is_present(row: &Cells, rows: &[Cells]) -> bool
    ensures { result ≡ present (product_of row.now) (map product_of rows.now) }
{
    rows.iter().any(|other| row::same(row, other))
}
