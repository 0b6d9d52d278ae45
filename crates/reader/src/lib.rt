// Reads of a table: seek, lookup, step, and the value of an entry.
#![tactic(auto)]

pub mod table_reader;
