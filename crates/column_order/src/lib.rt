// The order of two single values of a column, by refusals 20 and 17 and those of the values.
#![tactic(auto)]

mod answer; // answer.rt: the refusals that are laid on neither value
mod decimals; // decimals.rt: the order of two decimals in bytes
pub mod ordering; // ordering.rt: ordering two values

pub use ordering::order;
