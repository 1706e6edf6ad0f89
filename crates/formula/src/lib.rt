// Formula texts (document 01: lock texts): the readers, and the products of a text.
// What a text means is in specs/ (Tree, Spelling, Text, Nodes, Outcome); layers above use specs/Compiler alone.
#![tactic(auto)]

mod number;
mod reader;
pub mod text;
