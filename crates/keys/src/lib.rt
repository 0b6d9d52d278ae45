// Internal keys, their order, separators and successors.
#![tactic(auto)]

pub mod cmp;
pub mod key_types;
