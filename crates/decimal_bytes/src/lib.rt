// Decimals by their bytes, big-endian two's complement: how many there can be and which precision they hold, and numbers of any length
// compared and held to a precision.
#![tactic(auto)]

mod fit; // fit.rt: whether |number| < 10^precision
mod number; // number.rt: the sign of a number, and the bytes that it needs
mod order; // order.rt: the order of two numbers of any two lengths
mod power; // power.rt: powers of ten, as words and as bytes
mod precision; // precision.rt: the lengths, and the greatest precision of each

pub use fit::fits_by_bytes;
pub use order::compare_by_bytes;
pub use power::{BEYOND_WORD, is_below_power, power_of_ten};
pub use precision::{WrongLength, greatest_precision, is_length};
