// Counts decoded and fields encoded, in the unit of a number.
ghost use Rattle.std.specs.Prelude.{◌≡◌, true, cond, ◌&&◌, [], ℕ, pos, nat_abs, Some, None, IfSome, length};
ghost use Rattle.std.proofs.Math.Option.{Option};
ghost use Rattle.std.specs.Int.Signed.{le_z};
ghost use Rattle.logical_type.specs.declared.types.TimeUnit.{TimeUnit};
ghost use Rattle.c_answer.specs.Answers.{answer, left};
ghost use Rattle.c_timestamps.specs.Timestamps.{field_numbers, are_fields, fields_of, Decoding, encoding_of, encoding_read, encoding};

use c_answer::{packed, refused};
use refusal::numbers;
use timestamp::Fields;

// How many numbers are written of a date and time, and of a count.
const FIELDS: u32 = 7;

pub(crate) const COUNTS: u32 = 1;

// The greatest numbers that a date and time has, in any month and unit.
const GREATEST_MONTH: u32 = 12;

const GREATEST_DAY: u32 = 31;

const GREATEST_HOUR: u32 = 23;

const GREATEST_MINUTE: u32 = 59;

const GREATEST_SECOND: u32 = 59;

const GREATEST_FRACTION: u32 = 999_999_999;

// The first tick of a day, which it has in every unit that there is.
const FIRST_TICK: u64 = 0;

// Writes the fields of a count: year, month, day, hour, minute, second, fraction. The value is 7.
pub fn decode(unit: u32, count: i64, fields: &mut [i64]) -> u64
    ensures { Decoding unit count fields.old result fields.new }
{
    match timestamp::decode(unit, count) {
        Ok(f) => c_answer::write(FIELDS, numbers_of(f), fields),
        Err(r) => refused(r),
    }
}

// Writes the count of fields, of which there are seven in the order of decoding; further numbers are not looked at. The value is 1.
pub fn encode(unit: u32, fields: &[i64], count: &mut [i64]) -> u64
    ensures value { result ≡ answer (encoding unit fields.now (length count.old)) }
    ensures count_after { count.new ≡ left (encoding unit fields.now (length count.old)) count.old }
{
    let Some(read) = fields_of(fields) else {
        return no_date_time(unit);
    };
    match timestamp::encode(unit, read) {
        Ok(n) => c_answer::write(COUNTS, [n], count),
        Err(e) => refused(e.into()),
    }
}

// The numbers of fields: year, month, day, hour, minute, second, fraction.
fn numbers_of(f: Fields) -> [i64; 7]
    ensures { result ≡ field_numbers f }
{
    [
        f.year,
        i64::from(f.month),
        i64::from(f.day),
        i64::from(f.hour),
        i64::from(f.minute),
        i64::from(f.second),
        i64::from(f.fraction),
    ]
}

// The fields of seven numbers, each but the year within bounds that no date and time leaves. Others form none in any unit.
fn fields_of(numbers: &[i64]) -> Option<Fields>
    ensures fields { IfSome result (λ f. (are_fields numbers.now ≡ true) × (f ≡ fields_of numbers.now)) }
    ensures encoded { (u : Option TimeUnit) → encoding_read u result ≡ encoding_of u numbers.now }
{
    let [year, month, day, hour, minute, second, fraction, ..] = *numbers else {
        return None;
    };
    let month = within(month, 1, GREATEST_MONTH)?;
    let day = within(day, 0, GREATEST_DAY)?;
    let hour = within(hour, 0, GREATEST_HOUR)?;
    let minute = within(minute, 0, GREATEST_MINUTE)?;
    let second = within(second, 0, GREATEST_SECOND)?;
    let fraction = within(fraction, 0, GREATEST_FRACTION)?;
    Some(Fields {
        year,
        month,
        day,
        hour,
        minute,
        second,
        fraction,
    })
}

// A number from `least` to `most`. By `u32::try_from` the encoding of fields would cost twice the instructions.
fn within(x: i64, least: u32, most: u32) -> Option<u32>
    ensures { result ≡ cond (le_z (pos least) x && le_z x (pos most)) (Some (nat_abs x)) None }
{
    if (i64::from(least) <= x) & (x <= i64::from(most)) {
        return Some(x as u32);
    }
    None
}

// The answer to fields that form no date or time: a unit that there is not comes first.
fn no_date_time(unit: u32) -> u64
    ensures { (lent : ℕ) → result ≡ answer (encoding unit [] lent) }
{
    match timestamp::in_day(unit, FIRST_TICK) {
        Ok(_) => packed(numbers::NO_DATE_TIME, 0),
        Err(r) => refused(r),
    }
}
