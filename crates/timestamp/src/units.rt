// The three time units, each a type that says its ticks in a second and in a day. What they do is written once, over any of them.

ghost use Rattle.std.specs.Prelude.{◌≡◌, ℕ, ltb, refl};
ghost use Rattle.refusal.specs.Outcome.{given};
ghost use Rattle.logical_type.specs.declared.types.TimeUnit.{TimeUnit};
ghost use Rattle.timestamp.specs.Units.{ticks_per_second_of, ticks_per_day_of, unit_of};
ghost use Rattle.timestamp.specs.FloorDivision.{FloorDivision};
ghost use Rattle.timestamp.specs.declared.division.Division.{Division};
ghost use Rattle.timestamp.specs.Outcomes.{encoded, joining, day_answer, day_has};
ghost use Rattle.timestamp.specs.Steps.{unit_found};

use crate::division::{Division, floor_divide};
use crate::encoding::{EncodeError, join_at};
use crate::refusals::UNKNOWN_UNIT;
use logical_type::TimeUnit;
use refusal::Refusal;

// The seconds of a day.
pub(crate) const SECONDS_PER_DAY: u64 = 86_400;

// A time unit: it divides a count into days, joins a day and a tick of it, and tells which ticks a day has.
pub trait Unit {
    // The unit as contracts name it, and its ticks in a second and in a day, which are those of that unit.
    ghost unit: { TimeUnit };

    ghost TICKS_PER_SECOND: { ℕ };

    ghost TICKS_PER_DAY: { ℕ };

    ghost second_ticks: { TICKS_PER_SECOND ≡ ticks_per_second_of unit };

    ghost day_ticks: { TICKS_PER_DAY ≡ ticks_per_day_of (ticks_per_second_of unit) };

    // The number that names the unit, as C gives it: `find_unit` alone reads it.
    const NUMBER: u32;

    const TICKS_PER_SECOND: u64;

    const TICKS_PER_DAY: u64;

    // The days of a count, rounded down, and the ticks left. There is one such division.
    final fn divide(count: i64) -> Division
        ensures floor_division { FloorDivision count (ticks_per_day_of (ticks_per_second_of unit)) result }
        ensures d_value { (d : Division) → FloorDivision count (ticks_per_day_of (ticks_per_second_of unit)) d → d ≡ result }
    {
        floor_divide(count, Self::TICKS_PER_DAY)
    }

    // The count of a day and a tick of it, as divide parts it. A tick that no day has is told as fields that form no time are.
    final fn join(day: i64, tick: u64) -> Result<i64, EncodeError>
        ensures { encoded result ≡ joining (ticks_per_day_of (ticks_per_second_of unit)) day tick }
    {
        join_at(day, tick, Self::TICKS_PER_DAY)
    }

    // Whether a day has this tick, the first being 0.
    final fn has_tick(tick: u64) -> bool
        ensures { result ≡ ltb tick (ticks_per_day_of (ticks_per_second_of unit)) }
    {
        tick < Self::TICKS_PER_DAY
    }
}

// Thousandths of a second.
#[derive(Clone, Copy)]
pub struct Millis;

impl Unit for Millis {
    ghost unit = { TimeUnit.Millis };

    ghost TICKS_PER_SECOND = { 1000 };

    ghost TICKS_PER_DAY = { 86400000 };

    ghost second_ticks = { refl };

    ghost day_ticks = { refl };

    const NUMBER: u32 = 1;

    const TICKS_PER_SECOND: u64 = 1_000;

    const TICKS_PER_DAY: u64 = Self::TICKS_PER_SECOND * SECONDS_PER_DAY;
}

// Millionths of a second.
#[derive(Clone, Copy)]
pub struct Micros;

impl Unit for Micros {
    ghost unit = { TimeUnit.Micros };

    ghost TICKS_PER_SECOND = { 1000000 };

    ghost TICKS_PER_DAY = { 86400000000 };

    ghost second_ticks = { refl };

    ghost day_ticks = { refl };

    const NUMBER: u32 = 2;

    const TICKS_PER_SECOND: u64 = 1_000_000;

    const TICKS_PER_DAY: u64 = Self::TICKS_PER_SECOND * SECONDS_PER_DAY;
}

// Thousand-millionths of a second.
#[derive(Clone, Copy)]
pub struct Nanos;

impl Unit for Nanos {
    ghost unit = { TimeUnit.Nanos };

    ghost TICKS_PER_SECOND = { 1000000000 };

    ghost TICKS_PER_DAY = { 86400000000000 };

    ghost second_ticks = { refl };

    ghost day_ticks = { refl };

    const NUMBER: u32 = 3;

    const TICKS_PER_SECOND: u64 = 1_000_000_000;

    const TICKS_PER_DAY: u64 = Self::TICKS_PER_SECOND * SECONDS_PER_DAY;
}

// Reads a unit's number, here and nowhere else: the unit that it names, or that it names none. A caller matches the unit with the three types
// itself: no closure is generic in the unit, and a visitor would be a trait, and a type of its own for each of four callers.
pub(crate) fn find_unit(number: u32) -> Option<TimeUnit>
    ensures { unit_found result ≡ unit_of number }
{
    match number {
        Millis::NUMBER => Some(TimeUnit::Millis),
        Micros::NUMBER => Some(TimeUnit::Micros),
        Nanos::NUMBER => Some(TimeUnit::Nanos),
        _ => None,
    }
}

// Whether a day has this tick, the first being 0, in the unit of that number.
pub fn in_day(unit: u32, tick: u64) -> Result<bool, Refusal>
    ensures { day_answer result ≡ day_has (unit_of unit) tick }
{
    match find_unit(unit) {
        Some(TimeUnit::Millis) => Ok(Millis::has_tick(tick)),
        Some(TimeUnit::Micros) => Ok(Micros::has_tick(tick)),
        Some(TimeUnit::Nanos) => Ok(Nanos::has_tick(tick)),
        None => Err(UNKNOWN_UNIT),
    }
}
