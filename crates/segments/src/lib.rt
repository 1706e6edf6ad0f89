// Segments, their key lists and the defined keys: K, N, G and T.
#![tactic(auto)]

pub mod calls;
mod list;
mod names;
