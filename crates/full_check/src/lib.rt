// The full check of a table.
#![tactic(auto)]

pub mod check;
