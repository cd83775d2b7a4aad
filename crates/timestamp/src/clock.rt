// The time of a day: its hour, minute, second and fraction, and the seconds that have passed.

ghost use Rattle.std.specs.Prelude.{◌≡◌, true, ◌+◌, ◌*◌, ◌<◌, ◌≤◌};
ghost use Rattle.timestamp.specs.Clock.{hours_per_day, minutes_per_hour, seconds_per_minute, seconds_per_day, is_time, tick_of_day};
ghost use Rattle.timestamp.specs.Steps.{is_clock};
ghost use Rattle.logical_type.specs.declared.types.TimeUnit.{TimeUnit};
ghost use Rattle.timestamp.specs.Units.{ticks_per_second_of, ticks_per_day_of};

const HOURS_PER_DAY: u32 = 24;

const MINUTES_PER_HOUR: u32 = 60;

const SECONDS_PER_MINUTE: u32 = 60;

#[derive(Clone, Copy)]
pub(crate) struct Time {
    pub(crate) hour: u32,
    pub(crate) minute: u32,
    pub(crate) second: u32,
    // In ticks of the unit.
    pub(crate) fraction: u32,
}

// Whether there is such an hour, minute and second.
pub(crate) fn is_clock(time: Time) -> bool
    ensures { result ≡ is_clock time.hour time.minute time.second }
{
    (time.hour < HOURS_PER_DAY)
        & (time.minute < MINUTES_PER_HOUR)
        & (time.second < SECONDS_PER_MINUTE)
}

// The time at a tick of the day.
pub(crate) fn time_of(ticks_per_second: u64, tick: u64) -> Time
    requires { (0 < ticks_per_second) × (ticks_per_second ≤ ticks_per_second_of TimeUnit.Nanos) × (tick < ticks_per_day_of ticks_per_second) }
    ensures { (is_time ticks_per_second result.hour result.minute result.second result.fraction ≡ true) × (tick_of_day ticks_per_second result.hour result.minute result.second result.fraction ≡ tick) }
{
    let seconds = (tick / ticks_per_second) as u32;
    let minutes = seconds / SECONDS_PER_MINUTE;
    Time {
        hour: minutes / MINUTES_PER_HOUR,
        minute: minutes % MINUTES_PER_HOUR,
        second: seconds % SECONDS_PER_MINUTE,
        fraction: (tick % ticks_per_second) as u32,
    }
}

// The seconds of the day that have passed at a time.
pub(crate) fn second_of_day(time: Time) -> u32
    requires { (time.hour < hours_per_day) × (time.minute < minutes_per_hour) × (time.second < seconds_per_minute) }
    ensures { (result ≡ (time.hour * minutes_per_hour + time.minute) * seconds_per_minute + time.second) × (result < seconds_per_day) }
{
    let minutes = time.hour * MINUTES_PER_HOUR + time.minute;
    minutes * SECONDS_PER_MINUTE + time.second
}
