// Building a table, addition by addition, over lent runs.
#![tactic(auto)]

pub mod table_builder;
