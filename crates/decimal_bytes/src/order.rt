// The order of two decimals by their bytes, as the numbers that they stand for.
ghost use Rattle.std.specs.Prelude.{◌≡◌, ◌++◌, ◌+◌, ◌<◌, length, get_or, replicate};
ghost use Rattle.decimal_bytes.specs.Number.{number};
ghost use Rattle.decimal_bytes.specs.Significant.{sign_byte};
ghost use Rattle.decimal_bytes.specs.Order.{order, order_of};

use crate::precision::WrongLength;
use crate::{number, precision};
use std::cmp::Ordering;

// Compares two numbers of any two lengths by their bytes. A length outside 1 to 256 is wrong, in either.
pub fn compare_by_bytes(a: &[u8], b: &[u8]) -> Result<Ordering, WrongLength>
    ensures { result ≡ order_of a.now b.now }
{
    if !precision::is_length(a.len()) {
        return Err(WrongLength);
    }
    if !precision::is_length(b.len()) {
        return Err(WrongLength);
    }
    Ok(compare_numbers(a, b))
}

// Compares the numbers of any bytes: first their signs.
pub(crate) fn compare_numbers(a: &[u8], b: &[u8]) -> Ordering
    ensures { result ≡ order (number a.now) (number b.now) }
{
    let sign = number::sign_byte(a);
    let other = number::sign_byte(b);
    if sign > other {
        return Ordering::Less;
    }
    if sign < other {
        return Ordering::Greater;
    }
    compare_alike(a, b, sign)
}

// Compares two numbers of one sign: once the shorter has its sign in front, the first byte that differs decides.
fn compare_alike(a: &[u8], b: &[u8], sign: u8) -> Ordering
    requires sign_value { sign ≡ sign_byte a.now }
    requires sign_value_2 { sign ≡ sign_byte b.now }
    ensures { result ≡ order (number a.now) (number b.now) }
{
    let width = a.len().max(b.len());
    let before_a = width - a.len();
    let before_b = width - b.len();
    for at in 0..width {
        let x = extended(a, sign, before_a, at);
        let y = extended(b, sign, before_b, at);
        if x < y {
            return Ordering::Less;
        }
        if x > y {
            return Ordering::Greater;
        }
    }
    Ordering::Equal
}

// The byte at `at` of a number with `before` bytes of its sign in front.
fn extended(number: &[u8], sign: u8, before: usize, at: usize) -> u8
    requires { at < before + length number.now }
    ensures { result ≡ get_or (replicate before sign ++ number.now) at 0 }
{
    if at < before {
        return sign;
    }
    number[at - before]
}
