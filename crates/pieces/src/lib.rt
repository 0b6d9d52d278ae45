// The pieces of a table for C: checksums, keys, footers, filters and blocks, over numbers, slices (a pointer and a length each)
// and structs by value. Each function hands its arguments to the crate below that answers, and gives the answer in numbers.
#![tactic(auto)]

pub mod block;
pub mod filter;
pub mod numbers;
pub mod pieces;
