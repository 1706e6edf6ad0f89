// Keys, literals, products and sums of products, how AND and OR join sums, and whether a key set opens one.
// A sum lives in 8 rows of 8 cells that the caller lends (specs/Cells). Nothing here knows of formula texts.
#![tactic(auto)]

pub mod held;
pub mod literal;
mod row;
pub mod sum;
