// Whether a decimal keeps to its precision.
ghost use Rattle.std.specs.Prelude.{◌≡◌};
ghost use Rattle.decimal_bytes.specs.Fit.{fit_of};
ghost use Rattle.decimal.specs.Outcome.{fitted, fitting};

use crate::short;
use decimal_bytes::WrongLength;

// Whether |number| < 10^precision, for a number that may be longer than it needs to be.
pub fn fits_precision(number: &[u8], precision: u32) -> Result<bool, WrongLength>
    ensures value { result ≡ fit_of number.now precision }
    ensures result_value { fitted result ≡ fitting number.now precision }
{
    if short::is_short(number.len()) {
        return Ok(short::keeps_to(short::raised(number), precision));
    }
    decimal_bytes::fits_by_bytes(number, precision)
}
