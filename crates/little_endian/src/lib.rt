// Numbers in bytes, the least significant byte first.
#![tactic(auto)]

mod numbers; // numbers.rt: a number read from bytes, and stored in them

pub use numbers::{number, store};
