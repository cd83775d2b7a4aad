// Parameters a and b of a logical type as one number, a the lower byte. Resolving a sheet is the entry whose speed is measured, and it
// judges every slot: as a tuple whose two parts each `match` reads, judging a slot was tried and took 4.8% more instructions.
ghost use Rattle.std.specs.Prelude.{◌≡◌};
ghost use Rattle.annotation.specs.Pairs.{pair_a, pair_b};

use logical_type::parameters::{
    ANDOYER, BITS_8, BITS_16, BITS_32, BITS_64, FALSE, KARNEY, MICROS, MILLIS, NANOS, THOMAS, TRUE,
    UNUSED, VINCENTY,
};

// What b is multiplied by.
const B_WEIGHT: u32 = 256;

pub(crate) const NO_PAIR: u32 = UNUSED as u32 + B_WEIGHT * UNUSED as u32;

pub(crate) const LOCAL_MILLIS: u32 = MILLIS as u32 + B_WEIGHT * FALSE as u32;

pub(crate) const LOCAL_MICROS: u32 = MICROS as u32 + B_WEIGHT * FALSE as u32;

pub(crate) const LOCAL_NANOS: u32 = NANOS as u32 + B_WEIGHT * FALSE as u32;

pub(crate) const UTC_MILLIS: u32 = MILLIS as u32 + B_WEIGHT * TRUE as u32;

pub(crate) const UTC_MICROS: u32 = MICROS as u32 + B_WEIGHT * TRUE as u32;

pub(crate) const UTC_NANOS: u32 = NANOS as u32 + B_WEIGHT * TRUE as u32;

pub(crate) const UNSIGNED_8: u32 = BITS_8 as u32 + B_WEIGHT * FALSE as u32;

pub(crate) const UNSIGNED_16: u32 = BITS_16 as u32 + B_WEIGHT * FALSE as u32;

pub(crate) const UNSIGNED_32: u32 = BITS_32 as u32 + B_WEIGHT * FALSE as u32;

pub(crate) const UNSIGNED_64: u32 = BITS_64 as u32 + B_WEIGHT * FALSE as u32;

pub(crate) const SIGNED_8: u32 = BITS_8 as u32 + B_WEIGHT * TRUE as u32;

pub(crate) const SIGNED_16: u32 = BITS_16 as u32 + B_WEIGHT * TRUE as u32;

pub(crate) const SIGNED_32: u32 = BITS_32 as u32 + B_WEIGHT * TRUE as u32;

pub(crate) const SIGNED_64: u32 = BITS_64 as u32 + B_WEIGHT * TRUE as u32;

pub(crate) const VINCENTY_EDGES: u32 = VINCENTY as u32 + B_WEIGHT * UNUSED as u32;

pub(crate) const THOMAS_EDGES: u32 = THOMAS as u32 + B_WEIGHT * UNUSED as u32;

pub(crate) const ANDOYER_EDGES: u32 = ANDOYER as u32 + B_WEIGHT * UNUSED as u32;

pub(crate) const KARNEY_EDGES: u32 = KARNEY as u32 + B_WEIGHT * UNUSED as u32;

// a and b as one number.
pub(crate) fn paired(a: u8, b: u8) -> u32
    ensures result_value { pair_a result ≡ a }
    ensures result_value_2 { pair_b result ≡ b }
{
    a as u32 + B_WEIGHT * b as u32
}
