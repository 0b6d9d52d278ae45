// The pieces of a table as a static library for C. Each function hands its arguments to the one of its name in the crate `pieces`.
#![tactic(auto)]

pub mod block;
pub mod filter;
pub mod rest;
