// The order of two decimals, as the numbers that they stand for.
ghost use Rattle.std.specs.Prelude.{◌≡◌};
ghost use Rattle.decimal_bytes.specs.Order.{order_of};
ghost use Rattle.decimal.specs.Outcome.{compared, comparing};

use crate::short;
use decimal_bytes::WrongLength;
use std::cmp::Ordering;

// Compares two numbers of any two lengths.
pub fn compare(a: &[u8], b: &[u8]) -> Result<Ordering, WrongLength>
    ensures value { result ≡ order_of a.now b.now }
    ensures result_value { compared result ≡ comparing a.now b.now }
{
    if short::is_short(a.len()) && short::is_short(b.len()) {
        return Ok(short::raised(a).cmp(&short::raised(b)));
    }
    decimal_bytes::compare_by_bytes(a, b)
}
