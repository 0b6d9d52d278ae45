// What stands at a table's end, where its blocks may stand, and the filter that the metaindex names; and why a table is refused.
#![tactic(auto)]

pub mod footer;
pub mod refusal;
pub mod table_block;
