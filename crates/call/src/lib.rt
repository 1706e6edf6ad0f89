// The twelve calls (document 01: 'Twelve calls'): which fields each letter names, and the request that a well formed
// call makes. What a request does is not known here.
#![tactic(auto)]

pub mod letters;
pub mod record;
pub mod request;
