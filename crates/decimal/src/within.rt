// The order of two decimals that are both held to a precision.
ghost use Rattle.std.specs.Prelude.{◌≡◌, length, ◌≤◌};
ghost use Rattle.decimal.specs.declared.within.Unfit as unfit;
ghost use Rattle.decimal.specs.Within.{compared_within, comparing_within, order_within};

use crate::{order, short};
use decimal_bytes::WrongLength;
use std::cmp::Ordering;

// Why two numbers are not compared.
#[derive(Clone, Copy, Debug, PartialEq, Eq)]
pub enum Unfit {
    // |number| < 10^precision does not hold.
    Beyond,
    // A length outside 1 to 256.
    WrongLength,
}

impl From<WrongLength> for Unfit {
    ghost from_gives = { λ _ e. e ≡ unfit.Unfit.WrongLength };

    fn from(_wrong: WrongLength) -> Unfit {
        Unfit::WrongLength
    }
}

// Compares two numbers of any two lengths, once the first, and then the second, is held to the precision. What a short number is
// serves both.
pub fn compare_within(a: &[u8], b: &[u8], precision: u32) -> Result<Ordering, Unfit>
    ensures value { result ≡ order_within a.now b.now precision }
    ensures result_value { compared_within result ≡ comparing_within a.now b.now precision }
{
    if short::is_short(a.len()) && short::is_short(b.len()) {
        return compare_short(a, b, precision);
    }
    compare_by_bytes(a, b, precision)
}

// Compares two short numbers.
fn compare_short(a: &[u8], b: &[u8], precision: u32) -> Result<Ordering, Unfit>
    requires { (1 ≤ length a.now) × (length a.now ≤ 16) × (1 ≤ length b.now) × (length b.now ≤ 16) }
    ensures { result ≡ order_within a.now b.now precision }
{
    let m = short::raised(a);
    let n = short::raised(b);
    if short::keeps_to(m, precision) & short::keeps_to(n, precision) {
        return Ok(m.cmp(&n));
    }
    Err(Unfit::Beyond)
}

// Compares two numbers of any two lengths by their bytes.
fn compare_by_bytes(a: &[u8], b: &[u8], precision: u32) -> Result<Ordering, Unfit>
    ensures { result ≡ order_within a.now b.now precision }
{
    if !decimal_bytes::fits_by_bytes(a, precision)? {
        return Err(Unfit::Beyond);
    }
    if !decimal_bytes::fits_by_bytes(b, precision)? {
        return Err(Unfit::Beyond);
    }
    Ok(order::compare(a, b)?)
}
