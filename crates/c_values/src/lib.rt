// Calls of the C interface on single values.
#![tactic(auto)]

mod values; // values.rt: values read and ordered

pub use values::{order, read};
