// Document 01 as definitions and theorems (specs/). The code is no more than what they name: refusals and answers
// with their numbers, operations, limits, and the types of the arrays.
#![tactic(auto)]

pub mod answer;
pub mod arrays;
pub mod bounds;
pub mod operations;
