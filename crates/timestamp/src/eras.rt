// Dates of year 0 and later as arithmetic on days, by eras of 400 years.
//
// A year here begins in March, so that a leap day is its last day, and days are counted from 1 March of year 0. An era
// has a leap day in each fourth year but for three of its centuries: 146,097 days. So a century has a quarter of that on
// average, 36,524 and a quarter, and `(146,097 * c) / 4` days lie before the c-th: the day `d` is of the century
// `(4 * d + 3) / 146,097`. In the same way the day `d` of a century is of its year `(4 * d + 3) / 1,461`.
// From March on the months have 31, 30, 31, 30 and 31 days, again and again: 153 days in five of them, and
// `(153 * m + 2) / 5` days before the m-th, which for a month of a year is `(979 * m + 18) / 32`. The tenth and the
// eleventh from March are January and February of the next year.

ghost use Rattle.std.specs.Prelude.{◌≡◌, true, ◌+◌, ◌*◌, ◌-◌, ◌/◌, ◌%◌, ◌<◌, ◌≤◌, ◌^◌, pos};
ghost use Rattle.timestamp.specs.Calendar.{day_of, days_of_year, is_date};

use crate::calendar::Date;

pub(crate) const YEARS_PER_ERA: u64 = 400;

pub(crate) const DAYS_PER_ERA: u64 = 146_097;

pub(crate) const YEARS_PER_CENTURY: u64 = 100;

const CENTURIES_PER_ERA: u64 = 4;

pub(crate) const YEARS_PER_FOUR: u64 = 4;

const DAYS_PER_FOUR: u64 = 1_461;

// The century of a year below 2 ^ 32 is the year times this number ..
const CENTURY_FACTOR: u64 = 1_374_389_535;

// .. divided by this one, which is 2 ^ 37.
const CENTURY_DIVISOR: u64 = 137_438_953_472;

const MONTHS_PER_FIVE: u64 = 5;

const DAYS_PER_FIVE: u64 = 153;

pub(crate) const MONTHS_PER_YEAR: u32 = 12;

const MARCH: u32 = 3;

// The months from March to December.
const MONTHS_TO_JANUARY: u64 = 10;

// A year that begins in March, and a day of it, from 0.
#[derive(Clone, Copy)]
struct YearDay {
    year: u64,
    day: u64,
}

// The date of a day. 1 March of year 0 is day 0 here, and day 61 of its year.
pub(crate) fn date_of(day: u64) -> Date<u64>
    requires { day < 2 ^ 62 }
    ensures { (is_date (pos result.year) result.month result.day ≡ true) × (day_of (pos result.year) result.month result.day ≡ pos (day + 61)) × (result.year ≤ day + 1) }
{
    let at = year_of(day);
    let from_march = month_of(at.day);
    Date {
        year: at.year + years_begun(from_march),
        month: month_named(from_march),
        day: (at.day - days_before_month(from_march) + 1) as u32,
    }
}

// The day of a date, which is of year 1 or later.
pub(crate) fn day_of(date: Date<u64>) -> u64
    requires { (1 ≤ date.year) × (date.year < 2 ^ 32) × (is_date (pos date.year) date.month date.day ≡ true) }
    ensures { (day_of (pos date.year) date.month date.day ≡ pos (result + 61)) × (result < 2 ^ 42) }
{
    let from_march = months_from_march(date.month);
    let year = date.year - years_begun(from_march);
    days_before_year(year) + days_before_month(from_march) + (date.day - 1) as u64
}

// The year and the day of the year that a day is.
fn year_of(day: u64) -> YearDay
    requires { day < 2 ^ 62 }
    ensures { (day_of (pos result.year) 3 (result.day + 1) ≡ pos (day + 61)) × (result.day < days_of_year (pos (result.year + 1))) × (result.year ≤ day) }
{
    let quarters = CENTURIES_PER_ERA * day + 3;
    let of_century = quarters % DAYS_PER_ERA / CENTURIES_PER_ERA;
    let rest = YEARS_PER_FOUR * of_century + 3;
    YearDay {
        year: YEARS_PER_CENTURY * (quarters / DAYS_PER_ERA) + rest / DAYS_PER_FOUR,
        day: rest % DAYS_PER_FOUR / YEARS_PER_FOUR,
    }
}

// The days before a year.
pub(crate) fn days_before_year(year: u64) -> u64
    requires { year < 2 ^ 32 }
    ensures { (day_of (pos year) 3 1 ≡ pos (result + 61)) × (result < 2 ^ 41) }
{
    let century = CENTURY_FACTOR * year / CENTURY_DIVISOR;
    DAYS_PER_FOUR * year / YEARS_PER_FOUR + century / CENTURIES_PER_ERA - century
}

// The month that a day of a year is in, where March is 0.
fn month_of(day: u64) -> u64
    requires { day ≤ 365 }
    ensures { result ≡ (5 * day + 2) / 153 }
{
    (MONTHS_PER_FIVE * day + 2) / DAYS_PER_FIVE
}

// The days of a year before a month, where March is 0.
fn days_before_month(month: u64) -> u64
    requires { month ≤ 11 }
    ensures { result ≡ (153 * month + 2) / 5 }
{
    (979 * month + 18) / 32
}

// The months from March to a month, which is 1 to 12.
fn months_from_march(month: u32) -> u64
    requires { (1 ≤ month) × (month ≤ 12) }
    ensures { result ≡ (month + 12 - 3) % 12 }
{
    if month < MARCH {
        return (month + MONTHS_PER_YEAR - MARCH) as u64;
    }
    (month - MARCH) as u64
}

// Whether a month, which is 1 to 12, is of the year that began in the March before: 1 or 0.
pub(crate) fn years_before_march(month: u32) -> u64
    requires { (1 ≤ month) × (month ≤ 12) }
    ensures { result ≡ (month + 12 - 3) % 12 / 10 }
{
    if month < MARCH {
        return 1;
    }
    0
}

// The month that so many months from March is.
fn month_named(from_march: u64) -> u32
    requires { from_march ≤ 11 }
    ensures { result ≡ (from_march + 3 - 1) % 12 + 1 }
{
    let month = from_march as u32 + MARCH;
    if from_march < MONTHS_TO_JANUARY {
        return month;
    }
    month - MONTHS_PER_YEAR
}

// Whether so many months from March is in the next year: 1 or 0.
fn years_begun(from_march: u64) -> u64
    requires { from_march ≤ 11 }
    ensures { result ≡ from_march / 10 }
{
    if from_march < MONTHS_TO_JANUARY {
        return 0;
    }
    1
}
