// From a count to the fields of its date and time.

ghost use Rattle.std.specs.Prelude.{◌≡◌};
ghost use Rattle.refusal.specs.Outcome.{Outcome};
ghost use Rattle.timestamp.specs.Units.{ticks_per_second_of, unit_of};
ghost use Rattle.timestamp.specs.Count.{FieldsOf};
ghost use Rattle.timestamp.specs.Outcomes.{Decodes, decoded};
ghost use Rattle.timestamp.specs.declared.fields.Fields.{Fields};

use crate::calendar::date_of;
use crate::clock::time_of;
use crate::fields::Fields;
use crate::refusals::UNKNOWN_UNIT;
use crate::units::{Micros, Millis, Nanos, Unit, find_unit};
use logical_type::TimeUnit;
use refusal::Refusal;

// The fields of a count of ticks since 1 January 1970, in the unit of that number. Every count has them, and no others.
pub fn decode(unit: u32, count: i64) -> Result<Fields, Refusal>
    ensures decodes { Decodes (unit_of unit) count (decoded result) }
    ensures o_value { (o : Outcome Fields) → Decodes (unit_of unit) count o → o ≡ decoded result }
{
    match find_unit(unit) {
        Some(TimeUnit::Millis) => Ok(decode_in::<Millis>(count)),
        Some(TimeUnit::Micros) => Ok(decode_in::<Micros>(count)),
        Some(TimeUnit::Nanos) => Ok(decode_in::<Nanos>(count)),
        None => Err(UNKNOWN_UNIT),
    }
}

// The fields of a count in a unit.
fn decode_in<U: Unit>(count: i64) -> Fields
    ensures { FieldsOf (ticks_per_second_of U.unit) count result }
{
    let division = U::divide(count);
    let date = date_of(division.day);
    let time = time_of(U::TICKS_PER_SECOND, division.rest);
    Fields {
        year: date.year,
        month: date.month,
        day: date.day,
        hour: time.hour,
        minute: time.minute,
        second: time.second,
        fraction: time.fraction,
    }
}
