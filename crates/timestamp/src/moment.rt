// The second of a date and time, which is the same in every unit.

ghost use Rattle.timestamp.specs.Steps.{IsMoment};

use crate::calendar::{YEARS_REACHED, day_number, is_date};
use crate::clock::{is_clock, second_of_day};
use crate::division::joined;
use crate::fields::Fields;
use crate::signed::folded;
use crate::units::SECONDS_PER_DAY;

// What fields are, whatever their fraction is.
#[derive(Clone, Copy)]
pub(crate) enum Moment {
    // So many seconds since 1 January 1970.
    Second(i64),
    // A date and time of a year that no count reaches.
    Far,
    NoDateTime,
}

// The moment of the fields.
pub(crate) fn moment_of(fields: Fields) -> Moment
    ensures { IsMoment fields result }
{
    let date = fields.date();
    let time = fields.time();
    if !(is_date(date) & is_clock(time)) {
        return Moment::NoDateTime;
    }
    if folded(fields.year) >= YEARS_REACHED {
        return Moment::Far;
    }
    Moment::Second(joined(
        day_number(date),
        SECONDS_PER_DAY,
        second_of_day(time) as u64,
    ))
}
