// The Gregorian calendar: which dates there are, and their day numbers from 1 January 1970 on, both ways.

ghost use Rattle.std.specs.Prelude.{◌≡◌, true, ◌<◌, ◌^◌};
ghost use Rattle.std.specs.Int.Signed.{mag};
ghost use Rattle.timestamp.specs.Calendar.{is_leap, day_number, is_date};
ghost use Rattle.timestamp.specs.Steps.{IsMonth, years_reached};

use crate::eras;
use crate::eras::{DAYS_PER_ERA, YEARS_PER_CENTURY, YEARS_PER_ERA, YEARS_PER_FOUR};
use crate::signed::{lowered, raised};

// The eras before year 0 from which dates are counted, so that no number on the way is negative.
const ERAS: u64 = 1_000_000;

// The years of those eras.
const YEARS_BEFORE: u64 = ERAS * YEARS_PER_ERA;

// A year as far from year 0 as this or farther, before it or after, has no count of 64 bits in any unit.
pub(crate) const YEARS_REACHED: u64 = 300_000_000;

// The days from 1 March of year 0 to 1 January 1970.
const MARCH_TO_EPOCH: u64 = 719_468;

// The days from 1 March of the first year to 1 January 1970.
const DAYS_BEFORE: u64 = ERAS * DAYS_PER_ERA + MARCH_TO_EPOCH;

const FEBRUARY: u32 = 2;

// The day of February that only a leap year has.
const LEAP_DAY: u32 = 29;

// A date, whose years are signed, or are those of year 0 and later.
#[derive(Clone, Copy)]
pub(crate) struct Date<Year> {
    pub(crate) year: Year,
    pub(crate) month: u32,
    pub(crate) day: u32,
}

// Whether there is such a month, and such a day in it.
pub(crate) fn is_date(date: Date<i64>) -> bool
    ensures { result ≡ is_date date.year date.month date.day }
{
    let month = month_at(date.month);
    if (1 <= date.day) & (date.day <= month.days) {
        return true;
    }
    (date.month == FEBRUARY) & (date.day == LEAP_DAY) & is_leap(date.year)
}

// The date of a day number.
pub(crate) fn date_of(day: i64) -> Date<i64>
    requires { mag day < 2 ^ 37 }
    ensures { (is_date result.year result.month result.day ≡ true) × (day_number result.year result.month result.day ≡ day) }
{
    let date = eras::date_of(raised(day, DAYS_BEFORE));
    Date {
        year: lowered(date.year, YEARS_BEFORE),
        month: date.month,
        day: date.day,
    }
}

// The day number of a date.
pub(crate) fn day_number(date: Date<i64>) -> i64
    requires { (mag date.year < years_reached) × (is_date date.year date.month date.day ≡ true) }
    ensures { (result ≡ day_number date.year date.month date.day) × (mag result < 2 ^ 43) }
{
    let era_date = Date {
        year: raised(date.year, YEARS_BEFORE),
        month: date.month,
        day: date.day,
    };
    lowered(eras::day_of(era_date), DAYS_BEFORE)
}

// A month: its days in a common year, and the day number of the day before its first in the year from 1 March of year 0 on.
#[derive(Clone, Copy)]
pub(crate) struct Month {
    pub(crate) days: u32,
    pub(crate) offset: i64,
}

// The month of that number. There is none of 0 days. It is a match, which needs no index: a table would need the test and the cast too.
pub(crate) fn month_at(month: u32) -> Month
    ensures { IsMonth month result }
{
    let (days, offset) = match month {
        1 => (31, -719_163),
        2 => (28, -719_132),
        3 => (31, -719_469),
        4 => (30, -719_438),
        5 => (31, -719_408),
        6 => (30, -719_377),
        7 => (31, -719_347),
        8 => (31, -719_316),
        9 => (30, -719_285),
        10 => (31, -719_255),
        11 => (30, -719_224),
        12 => (31, -719_194),
        _ => (0, 0),
    };
    Month { days, offset }
}

// Whether a year is a leap year. A year before 0 is one where its distance from 0 would be.
fn is_leap(year: i64) -> bool
    ensures { result ≡ is_leap year }
{
    let years = year.unsigned_abs();
    (years % YEARS_PER_FOUR == 0)
        & ((years % YEARS_PER_CENTURY != 0) | (years % YEARS_PER_ERA == 0))
}
