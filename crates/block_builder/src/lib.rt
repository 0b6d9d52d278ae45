// Building a block into lent runs.
#![tactic(auto)]

pub mod block_builder;
