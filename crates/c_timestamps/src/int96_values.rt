// INT96 values turned into counts of nanoseconds, and back.
ghost use Rattle.std.specs.Prelude.{◌≡◌, length};
ghost use Rattle.int96.specs.Outcomes.{encoding, encoded};
ghost use Rattle.c_answer.specs.Answers.{counted_answer, answer, left};
ghost use Rattle.c_timestamps.specs.Int96.{from_int96};

use crate::timestamps::COUNTS;
use c_answer::{RESULT, packed, refused};

// Writes the count of an INT96 value. The value is 1.
pub fn from_int96(value: &[u8], count: &mut [i64]) -> u64
    ensures value { result ≡ answer (from_int96 value.now (length count.old)) }
    ensures count_after { count.new ≡ left (from_int96 value.now (length count.old)) count.old }
{
    match int96::decode(value) {
        Ok(n) => c_answer::write(COUNTS, [n], count),
        Err(r) => refused(r),
    }
}

// Writes the INT96 value of a count. The value is 12.
pub fn to_int96(count: i64, value: &mut [u8]) -> u64
    ensures value { result ≡ counted_answer (encoding (length value.old)) }
    ensures value_after { value.new ≡ encoded count value.old }
{
    match int96::encode(count, value) {
        Ok(n) => packed(RESULT, n as u32),
        Err(r) => refused(r),
    }
}
