// Calls of the C interface on sheets.
#![tactic(auto)]

mod sheets; // sheets.rt: a sheet resolved and rewritten, and two compared

pub use sheets::{compare, resolve, rewrite};
