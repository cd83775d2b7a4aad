// How a call of the C interface answers: a refusal's number and place, or a result's value, in one number.
#![tactic(auto)]

mod output; // output.rt: numbers written into an output
mod packing; // packing.rt: numbers into an answer

pub use output::write;
pub use packing::{RESULT, faulted, packed, refused};
