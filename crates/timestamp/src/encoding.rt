// From fields to the count of their date and time.

ghost use Rattle.std.specs.Prelude.{◌≡◌, ◌<◌, ◌^◌, pos, ◌+ℤ◌, ◌*ℤ◌};
ghost use Rattle.std.specs.Int.Signed.{mag};
ghost use Rattle.timestamp.specs.Units.{ticks_per_second_of, unit_of};
ghost use Rattle.timestamp.specs.Outcomes.{refusal_of, encoded, counting, encoding, joining};
ghost use Rattle.timestamp.specs.Steps.{seconds_reached, encoding_at, encoding_for};
ghost use Rattle.timestamp.specs.declared.moment.Moment;

use crate::division::{joined, turned};
use crate::fields::Fields;
use crate::moment::{Moment, moment_of};
use crate::near;
use crate::signed::{folded, signed};
use crate::units::{Micros, Millis, Nanos, Unit, find_unit};
use logical_type::TimeUnit;
use refusal::{Refusal, numbers};

// Why encoding gives no count. It is no `Refusal` yet. Tried: the number and place of one share words with the count, and each count costs a
// sixth more instructions.
#[derive(Clone, Copy, Debug, PartialEq, Eq)]
pub enum EncodeError {
    // Refusal 18: the fields form no date or time.
    NoDateTime,
    // Refusal 19: no signed number of 64 bits is their count.
    NotRepresentable,
    // Refusal 20: the unit is not 1 to 3.
    UnknownUnit,
}

impl From<EncodeError> for Refusal {
    ghost from_gives = { λ e r. r ≡ refusal_of e };

    // The refusal of an error, which has no place.
    fn from(error: EncodeError) -> Refusal {
        let number = match error {
            EncodeError::NoDateTime => numbers::NO_DATE_TIME,
            EncodeError::NotRepresentable => numbers::NOT_REPRESENTABLE,
            EncodeError::UnknownUnit => numbers::UNKNOWN_TYPE,
        };
        Refusal { number, place: 0 }
    }
}

// The greatest count, as a signed number of 64 bits: each count folds onto a number that is not above it.
const GREATEST_COUNT: u64 = i64::MAX as u64;

// The count of the fields, as ticks since 1 January 1970 in the unit of that number.
pub fn encode(unit: u32, fields: Fields) -> Result<i64, EncodeError>
    ensures { encoded result ≡ encoding (unit_of unit) fields }
{
    match near::second_of(fields) {
        Some(second) => encode_near(unit, second, fields.fraction),
        None => encode_any(unit, moment_of(fields), fields.fraction),
    }
}

// The count at a fraction of a near second, in the unit of that number. The unit is found here and not before the second, so that what is the
// same in every unit stands once in the code.
fn encode_near(unit: u32, second: i64, fraction: u32) -> Result<i64, EncodeError>
    requires { mag second < seconds_reached }
    ensures { encoded result ≡ encoding_for (unit_of unit) (Moment.Second second) fraction }
{
    match find_unit(unit) {
        Some(TimeUnit::Millis) => encode_near_at::<Millis>(second, fraction),
        Some(TimeUnit::Micros) => encode_near_at::<Micros>(second, fraction),
        Some(TimeUnit::Nanos) => encode_near_at::<Nanos>(second, fraction),
        None => Err(EncodeError::UnknownUnit),
    }
}

// The count at a fraction of a moment's second, in the unit of that number.
fn encode_any(unit: u32, moment: Moment, fraction: u32) -> Result<i64, EncodeError>
    ensures { encoded result ≡ encoding_for (unit_of unit) moment fraction }
{
    match find_unit(unit) {
        Some(TimeUnit::Millis) => encode_at::<Millis>(moment, fraction),
        Some(TimeUnit::Micros) => encode_at::<Micros>(moment, fraction),
        Some(TimeUnit::Nanos) => encode_at::<Nanos>(moment, fraction),
        None => Err(EncodeError::UnknownUnit),
    }
}

// The count at a fraction of a near second, in a unit.
fn encode_near_at<U: Unit>(second: i64, fraction: u32) -> Result<i64, EncodeError>
    requires { mag second < seconds_reached }
    ensures { encoded result ≡ encoding_at (ticks_per_second_of U.unit) (Moment.Second second) fraction }
{
    if U::TICKS_PER_SECOND <= fraction as u64 {
        return Err(EncodeError::NoDateTime);
    }
    Ok(joined(second, U::TICKS_PER_SECOND, fraction as u64))
}

// The count at a fraction of a moment's second, in a unit.
fn encode_at<U: Unit>(moment: Moment, fraction: u32) -> Result<i64, EncodeError>
    ensures { encoded result ≡ encoding_at (ticks_per_second_of U.unit) moment fraction }
{
    if U::TICKS_PER_SECOND <= fraction as u64 {
        return Err(EncodeError::NoDateTime);
    }
    match moment {
        Moment::Second(second) => count_of(second, fraction as u64, U::TICKS_PER_SECOND),
        Moment::Far => Err(EncodeError::NotRepresentable),
        Moment::NoDateTime => Err(EncodeError::NoDateTime),
    }
}

// The count of a day and a tick of it, at so many ticks in a day.
pub(crate) fn join_at(day: i64, tick: u64, ticks_per_day: u64) -> Result<i64, EncodeError>
    requires { ticks_per_day < 2 ^ 63 }
    ensures { encoded result ≡ joining ticks_per_day day tick }
{
    if ticks_per_day <= tick {
        return Err(EncodeError::NoDateTime);
    }
    count_of(day, tick, ticks_per_day)
}

// The count at a fraction of any second, by the number that the count folds onto; or in the same way at a tick of a day.
fn count_of(second: i64, fraction: u64, ticks_per_second: u64) -> Result<i64, EncodeError>
    requires { (fraction < ticks_per_second) × (ticks_per_second < 2 ^ 63) }
    ensures { encoded result ≡ counting (second *ℤ pos ticks_per_second +ℤ pos fraction) }
{
    let negative = second.is_negative();
    let seconds = folded(second);
    if GREATEST_COUNT / ticks_per_second < seconds {
        return Err(EncodeError::NotRepresentable);
    }
    let size = seconds * ticks_per_second + turned(negative, fraction, ticks_per_second);
    if GREATEST_COUNT < size {
        return Err(EncodeError::NotRepresentable);
    }
    Ok(signed(negative, size))
}
