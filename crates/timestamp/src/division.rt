// The floor division of a count into days and a rest that is never negative.
//
// Where a count before 0 folds onto `q * d + r`, d being the ticks in a day, the count is
// `(-1 - q) * d + (d - 1 - r)`: the same division, with the rest counted from the day's other end.

ghost use Rattle.std.specs.Prelude.{◌≡◌, cond, suc, ◌*◌, ◌-◌, ◌<◌, ◌^◌, pos, ◌+ℤ◌, ◌*ℤ◌};
ghost use Rattle.std.specs.Int.Signed.{mag};
ghost use Rattle.timestamp.specs.FloorDivision.{FloorDivision};

use crate::signed::{folded, signed};

// Whole days since 1 January 1970, negative before it, and the ticks of the day that have passed.
#[derive(Clone, Copy)]
pub struct Division {
    pub day: i64,
    pub rest: u64,
}

// The days of a count, rounded down, and the ticks left, at so many ticks in a day. By `div_euclid` and `rem_euclid` it would be two
// divisions, one of them of signed numbers; both halves of a number that is folded come from one.
pub(crate) fn floor_divide(count: i64, ticks_per_day: u64) -> Division
    requires { 0 < ticks_per_day }
    ensures { FloorDivision count ticks_per_day result }
{
    let negative = count.is_negative();
    let size = folded(count);
    Division {
        day: signed(negative, size / ticks_per_day),
        rest: turned(negative, size % ticks_per_day, ticks_per_day),
    }
}

// The count of days and a rest, at so many ticks in a day; or in the same way seconds of days, and the ticks of seconds and a fraction.
pub(crate) fn joined(day: i64, ticks_per_day: u64, rest: u64) -> i64
    requires { (rest < ticks_per_day) × (suc (mag day) * ticks_per_day < 2 ^ 63) }
    ensures { result ≡ day *ℤ pos ticks_per_day +ℤ pos rest }
{
    day * ticks_per_day as i64 + rest as i64
}

// The rest itself, or counted from the day's other end; or in the same way a fraction, from the second's.
pub(crate) fn turned(negative: bool, rest: u64, ticks_per_day: u64) -> u64
    requires { rest < ticks_per_day }
    ensures { result ≡ cond negative (ticks_per_day - 1 - rest) rest }
{
    if negative {
        return ticks_per_day - 1 - rest;
    }
    rest
}
