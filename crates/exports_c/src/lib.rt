// Whole tables as a static library for C. Each function hands its arguments to the one of its name in the crate `exports`.
#![tactic(auto)]

pub mod building;
pub mod reads;
