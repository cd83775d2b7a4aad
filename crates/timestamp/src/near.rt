// Fields of years that counts of every unit reach, on days that a month has in every year: their second, by small numbers.

ghost use Rattle.std.specs.Prelude.{◌≡◌, true, ◌<◌, ◌≤◌, pos};
ghost use Rattle.std.specs.Int.Signed.{mag};
ghost use Rattle.timestamp.specs.Calendar.{day_number, is_date};
ghost use Rattle.timestamp.specs.Steps.{IsNear, days_reached, offset_of};

use crate::calendar::month_at;
use crate::clock::{is_clock, second_of_day};
use crate::division::joined;
use crate::eras::{days_before_year, years_before_march};
use crate::fields::Fields;
use crate::units::SECONDS_PER_DAY;

// Counts of nanoseconds, which reach least far, go from September 1677 to April 2262.
const FIRST_YEAR: i64 = 1_680;

const LAST_YEAR: i64 = 2_260;

// The second of such fields, in seconds since 1 January 1970. Others may have a second or none.
pub(crate) fn second_of(fields: Fields) -> Option<i64>
    ensures { IsNear fields result }
{
    if fields.year < FIRST_YEAR {
        return None;
    }
    if LAST_YEAR < fields.year {
        return None;
    }
    let year = fields.year as u64;
    let month = month_at(fields.month);
    if fields.day < 1 {
        return None;
    }
    if month.days < fields.day {
        return None;
    }
    let time = fields.time();
    if !is_clock(time) {
        return None;
    }
    let day = day_number(year, fields.month, month.offset, fields.day);
    Some(joined(day, SECONDS_PER_DAY, second_of_day(time) as u64))
}

// The day number of a date of such a year.
fn day_number(year: u64, month: u32, offset: i64, day: u32) -> i64
    requires { (1680 ≤ year) × (year ≤ 2260) × (is_date (pos year) month day ≡ true) × (offset ≡ offset_of month) }
    ensures { (result ≡ day_number (pos year) month day) × (mag result < days_reached) }
{
    days_before_year(year - years_before_march(month)) as i64 + offset + day as i64
}
