// Reading a block: one entry, the check of one block, a walk and a search.
#![tactic(auto)]

pub mod block;
