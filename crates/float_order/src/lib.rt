// The order of two floats.
#![tactic(auto)]

mod pairs; // pairs.rt: the order of two floats

pub use pairs::Ordered;
