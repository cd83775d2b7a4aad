// Single values: one value of a column, checked for refusals 21, 20, 15 and 16 and read.
#![tactic(auto)]

mod annotations; // annotations.rt: which values keep the annotation of their column
pub mod codes; // codes.rt: the codes of a column type
mod lengths; // lengths.rt: the lengths that values have
mod numbers; // numbers.rt: the numbers that bytes stand for
pub mod reading; // reading.rt: reading a value
mod refusals; // refusals.rt: the refusals of a value
pub mod value; // value.rt: a value that was read, and what reading two answers

pub use lengths::MOST_BYTES;
pub use reading::{read, read_both};
pub use value::{Both, Value};
