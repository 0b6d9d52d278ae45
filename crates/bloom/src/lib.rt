// Bloom filters: made and asked.
#![tactic(auto)]

pub mod filter;
