// The check of a block of a sheet: a weighted sum of its bytes, reduced.
#![tactic(auto)]

mod layout; // layout.rt: how many bytes a block has, and where it stores its check
mod check; // check.rt: the check, and the sum that it reduces
mod lanes; // lanes.rt: the numbers that the sum is made of, sixteen at a time

pub use check::check_of;
pub use layout::{BLOCK_SIZE, STORED_CHECK};
