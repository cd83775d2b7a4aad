// Timestamps: counts of ticks since 1 January 1970 in three units, and the dates and times that they stand for.
#![tactic(auto)]

mod calendar; // calendar.rt: which dates there are, and their day numbers
mod clock; // clock.rt: the time of a day
pub mod decoding; // decoding.rt: from a count to the fields of its date and time
pub mod division; // division.rt: the floor division of a count into days
pub mod encoding; // encoding.rt: from fields to the count of their date and time
mod eras; // eras.rt: dates as arithmetic on days, by eras of 400 years
pub mod fields; // fields.rt: the fields of a date and time
mod moment; // moment.rt: the second of a date and time
mod near; // near.rt: the same for years that counts of every unit reach
mod refusals; // refusals.rt: the refusal of a unit that there is not
mod signed; // signed.rt: signed numbers as natural ones
pub mod units; // units.rt: the three time units

pub use decoding::decode;
pub use division::Division;
pub use encoding::{EncodeError, encode};
pub use fields::Fields;
pub use refusal::Refusal;
pub use units::{Micros, Millis, Nanos, Unit, in_day};
