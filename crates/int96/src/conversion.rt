// From twelve bytes to a count of nanoseconds, and back.
ghost use Rattle.std.specs.Prelude.{◌≡◌, ◌++◌, ◌≤◌, pos, ◌-ℤ◌, length, drop};
ghost use Rattle.int96.specs.Value.{VALUE_BYTES, DAY_OF_1970 as FIRST_DAY_OF_1970, nanos_in, day_in, value_of};
ghost use Rattle.int96.specs.Outcomes.{converted, decoding, encoding, encoded};

use crate::refusals::{BEYOND_DAY, WRONG_LENGTH};
use little_endian::{number, store};
use refusal::{Refusal, short_output};
use timestamp::{EncodeError, Nanos, Unit};

// The bytes of a value, and of its nanoseconds, which stand before its day.
const VALUE_SIZE: usize = 12;

const NANOS_SIZE: usize = 8;

// The Julian day of 1 January 1970.
const DAY_OF_1970: i64 = 2_440_588;

// The count of a value: the nanoseconds from the start of 1 January 1970, negative before it.
pub fn decode(value: &[u8]) -> Result<i64, Refusal>
    ensures { converted result ≡ decoding value.now }
{
    if value.len() != VALUE_SIZE {
        return Err(WRONG_LENGTH);
    }
    match Nanos::join(day_in(value), nanos_in(value)) {
        Ok(count) => Ok(count),
        Err(error) => match error {
            EncodeError::NoDateTime => Err(BEYOND_DAY),
            _ => Err(error.into()),
        },
    }
}

// Writes the value of a count, which every count has, at the start of the output, and answers how many bytes it has.
pub fn encode(count: i64, out: &mut [u8]) -> Result<usize, Refusal>
    ensures value { result ≡ encoding (length out.old) }
    ensures out_after { out.new ≡ encoded count out.old }
{
    if out.len() < VALUE_SIZE {
        return Err(short_output());
    }
    write_value(count, out);
    Ok(VALUE_SIZE)
}

// The nanoseconds of a value in its day.
fn nanos_in(value: &[u8]) -> u64
    requires { length value.now ≡ VALUE_BYTES }
    ensures { result ≡ nanos_in value.now }
{
    number(&value[..NANOS_SIZE])
}

// The day of a value, from 1 January 1970 on.
fn day_in(value: &[u8]) -> i64
    requires { length value.now ≡ VALUE_BYTES }
    ensures { result ≡ pos (day_in value.now) -ℤ pos FIRST_DAY_OF_1970 }
{
    number(&value[NANOS_SIZE..]) as i64 - DAY_OF_1970
}

// Writes the value of a count where there is room.
fn write_value(count: i64, out: &mut [u8])
    requires { VALUE_BYTES ≤ length out.old }
    ensures { out.new ≡ value_of count ++ drop VALUE_BYTES out.old }
{
    let parts = Nanos::divide(count);
    store(parts.rest, &mut out[..NANOS_SIZE]);
    store(
        (parts.day + DAY_OF_1970) as u64,
        &mut out[NANOS_SIZE..VALUE_SIZE],
    );
}
