// Whether a decimal keeps to its precision, by its bytes.
ghost use Rattle.std.specs.Prelude.{◌≡◌, true, ◌≤◌, length, Ok};
ghost use Rattle.decimal_bytes.specs.Precision.{greatest_length, is_length, greatest_precision};
ghost use Rattle.decimal_bytes.specs.Significant.{significant};
ghost use Rattle.decimal_bytes.specs.Fit.{fit_of};

use crate::precision::WrongLength;
use crate::{number, order, power, precision};
use std::cmp::Ordering;

// Whether |number| < 10^precision, by the bytes of a number of any length. A length outside 1 to 256 is wrong.
pub fn fits_by_bytes(number: &[u8], precision: u32) -> Result<bool, WrongLength>
    ensures { result ≡ fit_of number.now precision }
{
    if !precision::is_length(number.len()) {
        return Err(WrongLength);
    }
    Ok(fits_by_length(number::significant(number), precision))
}

// The number has n bytes, all needed, so |number| is at least 2^(8(n-1)-1), where n is not 1, and at most 2^(8n-1), which is no power
// of ten. So it is within every precision above the greatest of n bytes, and beyond each up to the greatest of n - 1 bytes. The two or
// three precisions between are left to the number itself.
fn fits_by_length(number: &[u8], precision: u32) -> bool
    requires { (is_length (length number.now) ≡ true) × (significant number.now ≡ number.now) }
    ensures { Ok result ≡ fit_of number.now precision }
{
    let length = number.len() as u32;
    if precision > precision::greatest_precision(length) {
        return true;
    }
    if length > 1 && precision <= precision::greatest_precision(length - 1) {
        return false;
    }
    fits_exactly(number, precision)
}

// Compares with 10^precision, or with its negative, which the number's length holds.
fn fits_exactly(number: &[u8], precision: u32) -> bool
    requires { (is_length (length number.now) ≡ true) × (precision ≤ greatest_precision (length number.now)) }
    ensures { Ok result ≡ fit_of number.now precision }
{
    let n = number.len();
    let negative = number::is_negative(number);
    let mut bound = room();
    power::write_power(&mut bound[..n], negative, precision);
    match order::compare_numbers(number, &bound[..n]) {
        Ordering::Less => !negative,
        Ordering::Equal => false,
        Ordering::Greater => negative,
    }
}

// Room for a number of the greatest length, whose length callers cite by this clause.
fn room() -> [u8; precision::GREATEST_LENGTH]
    ensures { length result ≡ greatest_length }
{
    [0; precision::GREATEST_LENGTH]
}
