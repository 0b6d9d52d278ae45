// Writing the parts of a table into lent runs.
#![tactic(auto)]

pub mod table_write;
