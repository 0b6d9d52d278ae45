// The checksum of bytes, and the trailer that follows each block of a table.
#![tactic(auto)]

pub mod crc;
pub mod trailer;
