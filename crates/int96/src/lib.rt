// Times of the retired INT96 columns: twelve bytes as a count of nanoseconds, and back.
#![tactic(auto)]

mod conversion; // conversion.rt: both ways
mod refusals; // refusals.rt: the refusals of conversion alone

pub use conversion::{decode, encode};
