// A segment's locks: their product rows, and the calls that add and drop a lock, L and D.
#![tactic(auto)]

pub mod calls;
mod cells;
mod rows;
