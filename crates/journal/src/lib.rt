// The journal (document 01: desk file): checking a whole file, reading its records, appending one. What a call does
// is not known here.
#![tactic(auto)]

pub mod append;
mod bytes;
pub mod file;
pub mod reader;
pub mod record;
