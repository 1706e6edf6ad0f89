// The rows of a lock list, and who gets which: the owner of a segment a row for each product of its standing locks,
// anyone else a row for each lock.
#![tactic(auto)]

pub mod list;
pub mod row;
