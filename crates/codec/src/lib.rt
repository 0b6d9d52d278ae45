// The bytes of numbers in a LevelDB table: varints, numbers of 4 and 8 bytes, block handles. Readers read from the start of what
// is lent to them, writers write at a place of a lent run; none asks anything of its caller.
#![tactic(auto)]

pub mod blockhandle;
pub mod fixed;
pub mod limits;
pub mod put;
pub mod varint;
