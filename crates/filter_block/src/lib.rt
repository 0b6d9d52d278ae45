// The filter block: made and asked.
#![tactic(auto)]

pub mod filter_block;
