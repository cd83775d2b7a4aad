// Rule 11: precision and scale of a DECIMAL, by edition.
ghost use Rattle.std.specs.Prelude.{◌≡◌};
ghost use Rattle.annotation.specs.Rule11.{scale_allowed, ordered, physical_holds, fixed_holds, decimal_holds};

use crate::slot::{Annotated, natural};
use decimal_bytes::{greatest_precision, is_length};
use edition::scale_may_equal;
use parquet::physical;

// The greatest precisions on INT32 and INT64.
pub const INT32_DIGITS: u32 = 9;

pub const INT64_DIGITS: u32 = 18;

// What rule 11 asks of a DECIMAL.
#[tactic(auto, unfolding(crate::specs::Rule11::decimal_holds))]
#[inline(always)]
pub(crate) fn digits_hold(edition: u32, n: Annotated) -> bool
    ensures { result ≡ decimal_holds edition n }
{
    ordered(edition, n.precision, n.scale)
        && physical_holds(n.physical, natural(n.type_length), natural(n.precision))
}

#[tactic(auto, unfolding(crate::specs::Rule11::ordered))]
fn ordered(edition: u32, precision: i32, scale: i32) -> bool
    ensures { result ≡ ordered edition precision scale }
{
    1 <= precision && 0 <= scale && scale_allowed(edition, i64::from(precision), i64::from(scale))
}

// Whether a scale may stand beside a precision, of whichever sign and width.
#[tactic(auto, unfolding(crate::specs::Rule11::scale_allowed))]
pub fn scale_allowed(edition: u32, precision: i64, scale: i64) -> bool
    ensures { result ≡ scale_allowed edition precision scale }
{
    if scale_may_equal(edition) {
        return scale <= precision;
    }
    scale < precision
}

// Whether a physical type of a length holds a precision.
#[tactic(auto, unfolding(crate::specs::Rule11::physical_holds))]
fn physical_holds(physical: u8, length: u32, precision: u32) -> bool
    ensures { result ≡ physical_holds physical length precision }
{
    match physical {
        physical::INT32 => precision <= INT32_DIGITS,
        physical::INT64 => precision <= INT64_DIGITS,
        physical::FIXED_LEN_BYTE_ARRAY => fixed_holds(length, precision),
        _ => true,
    }
}

// Whether a FIXED_LEN_BYTE_ARRAY of a length holds a precision.
pub fn fixed_holds(length: u32, precision: u32) -> bool
    ensures { result ≡ fixed_holds length precision }
{
    is_length(length as usize) && precision <= greatest_precision(length)
}
