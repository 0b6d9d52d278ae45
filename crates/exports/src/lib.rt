// Whole tables for C: checked, read and built, over numbers, slices (a pointer and a length each) and structs by value. Each
// function hands its arguments to the crate below that answers, and gives the answer in numbers.
#![tactic(auto)]

pub mod building;
pub mod reads;
