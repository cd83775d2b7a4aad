// Parquet's codes for the types and repetitions of a slot: those of the public parquet.thrift, and 255 or 0 for none. Each number
// stands once here, and once in `specs/`.
#![tactic(auto)]

pub mod converted; // converted types
pub mod logical; // logical types
pub mod physical; // physical types, and a group
pub mod repetition; // repetitions
