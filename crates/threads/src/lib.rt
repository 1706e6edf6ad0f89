// Live threads (document 01: live runs): where they stand, whose they are, their frames (open calls), keys withdrawn
// from these, and the calls S, E and R.
#![tactic(auto)]

pub mod calls;
pub mod editor;
pub mod frames;
pub mod place;
pub mod revocation;
