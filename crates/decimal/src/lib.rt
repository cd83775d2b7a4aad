// Decimals: whole numbers as big-endian two's complement of 1 to 256 bytes. Those of up to 16 bytes go by a number of 128 bits, the others by their bytes.
#![tactic(auto)]

mod fit; // fit.rt: whether |number| < 10^precision
mod order; // order.rt: the order of two numbers of any two lengths
mod short; // short.rt: numbers of up to 16 bytes, as numbers of 128 bits
mod within; // within.rt: the order of two numbers held to a precision

// The error of fits_precision and of compare.
pub use decimal_bytes::WrongLength;
pub use fit::fits_precision;
pub use order::compare;
pub use within::{Unfit, compare_within};
