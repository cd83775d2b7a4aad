// Calls of the C interface on timestamps.
#![tactic(auto)]

mod timestamps; // timestamps.rt: counts decoded and fields encoded
mod int96_values; // int96_values.rt: INT96 values turned into counts, and back

pub use int96_values::{from_int96, to_int96};
pub use timestamps::{decode, encode};
