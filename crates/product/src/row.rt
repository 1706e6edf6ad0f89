// Products: rows of 8 cells, and sixteen cells while two are being joined, since two products of 6 literals are joined
// before their contradictions and their width are judged.
ghost use Rattle.std.specs.Prelude.{◌≡◌, ◌+◌, ◌≤◌, ◌<◌, length, drop};
ghost use Rattle.product.specs.Product.{Product, insert, union, clashes, contradictory, same_product};
ghost use Rattle.product.specs.Sum.{most_literals};
ghost use Rattle.product.specs.Cells.{product_of};
ghost use Rattle.product.specs.Internal.{Size, Blank, Row, most_joined, wide_of};

use crate::literal::Literal;
use crate::sum::{COUNT_CELL, MOST_LITERALS};
use std::marker::Model;

// Document 01: product. Its cells.
pub(crate) type Cells = [u32; 8];

// A product of up to 12 literals: the first `size` of sixteen cells. Every other cell is 0. No heap, so no Vec.
#[derive(Drop)]
pub(crate) struct Wide {
    cells: [u32; 16],
    size: usize,
}

// Clauses see the product.
impl Model for Wide {
    ghost Value = { Product };

    ghost view = { λ w. wide_of w.size w.cells };

    ghost invariant = { λ w. Blank w.cells w.size };
}

impl Wide {
    // The row's product.
    pub(crate) fn widen(row: &Cells) -> Wide
        ensures product { result ≡ product_of row.now }
        ensures few { length result ≤ most_literals }
    {
        let size = size(row);
        let mut cells = [0u32; 16];
        for i in 0..size {
            cells[i] = u32::from(Literal::from(row[i]));
        }
        Wide { cells, size }
    }

    // The literals of both rows.
    pub(crate) fn join(p: &Cells, q: &Cells) -> Wide
        ensures { result ≡ union (product_of p.now) (product_of q.now) }
    {
        let mut joined = Wide::widen(p);
        for i in 0..size(q) {
            joined.insert(Literal::from(q[i]));
        }
        joined
    }

    // Some key is both plain and barred.
    pub(crate) fn is_contradictory(&self) -> bool
        ensures { result ≡ contradictory self.now }
    {
        for i in 0..self.size {
            if self.clashes(i + 1, Literal::from(self.cells[i])) {
                return true;
            }
        }
        false
    }

    pub(crate) fn size(&self) -> usize
        ensures { result ≡ length self.now }
    {
        self.size
    }

    // The row of a product that has at most 6 literals.
    pub(crate) fn narrow(&self) -> Cells
        requires { length self.now ≤ most_literals }
        ensures { Row self.now result }
    {
        let c = &self.cells;
        [c[0], c[1], c[2], c[3], c[4], c[5], 0, self.size as u32]
    }

    // Puts x in its place among the literals, unless it is there.
    fn insert(&mut self, x: Literal)
        requires { length self.old < most_joined }
        ensures product { self.new ≡ insert x self.old }
        ensures few { length self.new ≤ length self.old + 1 }
    {
        let mut carried = x;
        for i in 0..self.size {
            let y = Literal::from(self.cells[i]);
            if carried == y {
                return;
            }
            if carried.is_before(y) {
                self.cells[i] = u32::from(carried);
                carried = y;
            }
        }
        self.cells[self.size] = u32::from(carried);
        self.size += 1;
    }

    // Some literal from place `from` on is opposed to x.
    fn clashes(&self, from: usize, x: Literal) -> bool
        ensures { result ≡ clashes x (drop from self.now) }
    {
        for i in from..self.size {
            if x.is_opposed_to(Literal::from(self.cells[i])) {
                return true;
            }
        }
        false
    }
}

// The same literals, in the same places: not `==` of the rows, whose other cells don't count.
pub(crate) fn same(p: &Cells, q: &Cells) -> bool
    ensures { result ≡ same_product (product_of p.now) (product_of q.now) }
{
    let n = size(p);
    if n != size(q) {
        return false;
    }
    for i in 0..n {
        if Literal::from(p[i]) != Literal::from(q[i]) {
            return false;
        }
    }
    true
}

// How many literals a row holds.
pub(crate) fn size(row: &Cells) -> usize
    ensures { Size row.now result }
{
    (row[COUNT_CELL] as usize).min(MOST_LITERALS)
}
