// The guard for C and Rust: thin exported functions over the proved crates, which host/include/rotundaaloe_raw.h
// declares.
#![tactic(auto)]

pub mod calls;
pub mod file;
pub mod held;
pub mod key_search;
pub mod left;
pub mod lock_list;
pub mod text;
pub mod version;
