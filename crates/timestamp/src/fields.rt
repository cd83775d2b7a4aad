// The fields of a date and time.

ghost use Rattle.std.specs.Prelude.{◌≡◌};

use crate::calendar::Date;
use crate::clock::Time;

// A date and time, as fields that may each hold any number of its type.
#[derive(Clone, Copy)]
pub struct Fields {
    pub year: i64,
    // From 1.
    pub month: u32,
    // From 1.
    pub day: u32,
    pub hour: u32,
    pub minute: u32,
    pub second: u32,
    // In ticks of the unit, of which a second has `TICKS_PER_SECOND`.
    pub fraction: u32,
}

impl Fields {
    // Their date, which there need not be.
    pub(crate) fn date(self) -> Date<i64>
        ensures { (result.year ≡ self.year) × (result.month ≡ self.month) × (result.day ≡ self.day) }
    {
        Date {
            year: self.year,
            month: self.month,
            day: self.day,
        }
    }

    // Their time, which there need not be.
    pub(crate) fn time(self) -> Time
        ensures { (result.hour ≡ self.hour) × (result.minute ≡ self.minute) × (result.second ≡ self.second) × (result.fraction ≡ self.fraction) }
    {
        Time {
            hour: self.hour,
            minute: self.minute,
            second: self.second,
            fraction: self.fraction,
        }
    }
}
