// A compiled product as a product row: each literal becomes the cell that the check compares.
ghost use Rattle.std.specs.Prelude.{◌≡◌, ◌<◌};
ghost use Rattle.model.specs.Cells.{key_cell, barred_by, literal_cell};
ghost use Rattle.locks.specs.Internal.{Below, key_cell_limit, barred_limit, set_limit, row_from};

use model::arrays::{
    BARRED_LISTED, BARRED_OWN, DEFINED_CODES, LITERAL_UNIT, LOCK_UNIT, THREAD_CELLS, USER_CELLS,
};
use model::operations::Operations;
use product::literal::{Key, Literal};
use product::sum::{COUNT_CELL, MOST_LITERALS};

// A lock as its rows name it.
#[derive(Clone, Copy)]
pub(crate) struct Lock {
    pub(crate) number: u16,
    pub(crate) operations: Operations,
    ghost low: { operations.bits < set_limit },
}

impl Lock {
    // The row of the product in the cells that the compiler gives.
    pub(crate) fn row(self, cells: &[u32; 8]) -> [u32; 8]
        ensures { result ≡ row_from self.number self.operations.bits cells.now }
    {
        let n = (cells[COUNT_CELL] as usize).min(MOST_LITERALS);
        let mut row = [0; 8];
        row[0] = self.number as u32 * LOCK_UNIT + n as u32 * LITERAL_UNIT + self.operations.bits;
        for i in 0..n {
            row[i + 1] = literal_cell(Literal::from(cells[i]));
        }
        row
    }
}

// The cell that the check compares: no `From`, since `u32::from` is the literal's number in a compiled product.
fn literal_cell(l: Literal) -> u32
    ensures { result ≡ literal_cell l }
{
    match l {
        Literal::Plain(k) => key_cell(k),
        Literal::Barred(k) => key_cell(k) + barred_by(k),
    }
}

// The cells of S keys begin at 0, those of D keys where the codes do.
fn key_cell(k: Key) -> u32
    ensures { Below key_cell_limit (key_cell k) result }
{
    match k {
        Key::User(n) => USER_CELLS + n as u32,
        Key::Thread(n) => THREAD_CELLS + n as u32,
        Key::Segment(n) => n as u32,
        Key::Defined(n) => DEFINED_CODES as u32 + n as u32,
    }
}

// How much more the cell of the barred key is.
fn barred_by(k: Key) -> u32
    ensures { Below barred_limit (barred_by k) result }
{
    match k {
        Key::User(_) | Key::Thread(_) => BARRED_OWN,
        Key::Segment(_) | Key::Defined(_) => BARRED_LISTED,
    }
}
