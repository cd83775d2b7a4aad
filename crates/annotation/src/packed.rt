// Packed annotations: one number that stands for an annotation together with the physical type that rule 10 demands of it. Its four
// lower bytes are what is written for the annotation (converted, logical, a and b, converted the lowest), and above them stands the
// demand. Resolving a sheet is the entry whose speed is measured, and it judges every slot: as a struct of these parts with an enum for the
// demand, judging a slot was tried and took 3.5% more instructions than this one number.
ghost use Rattle.std.specs.Prelude.{◌≡◌};
ghost use Rattle.annotation.specs.Packed.{converted_part, logical_part, a_part, b_part, demand_part};

use logical_type::parameters;
use parquet::{converted, logical, physical};

// How many numbers a byte has, and the weight of each part above the lowest.
const BYTE: u64 = 256;

const LOGICAL_WEIGHT: u64 = 256;

const A_WEIGHT: u64 = 65536;

const B_WEIGHT: u64 = 16777216;

const DEMAND_WEIGHT: u64 = 4294967296;

// What is demanded where it is not one physical type: any will do, none will do, or a rule of the annotation's own says which.
pub(crate) const ANY_PHYSICAL: u64 = 256;

const NO_PHYSICAL: u64 = 257;

pub(crate) const OWN_RULE: u64 = 258;

// What a demand of one physical type adds.
const ON_BYTE_ARRAY: u64 = DEMAND_WEIGHT * physical::BYTE_ARRAY as u64;

const ON_GROUP: u64 = DEMAND_WEIGHT * physical::GROUP as u64;

const ON_INT32: u64 = DEMAND_WEIGHT * physical::INT32 as u64;

const ON_INT64: u64 = DEMAND_WEIGHT * physical::INT64 as u64;

// No converted type is written.
const NO_IMAGE: u64 = converted::NONE as u64;

// What the flags add: that a time is adjusted to UTC, and that an integer is signed, which changes its image too.
const UTC: u64 = B_WEIGHT * parameters::TRUE as u64;

const SIGNED: u64 = B_WEIGHT * parameters::TRUE as u64 + converted::INT_8 as u64
    - converted::UINT_8 as u64;

// The annotations, those with a flag without it.
pub(crate) const PLAIN: u64 = NO_IMAGE + DEMAND_WEIGHT * ANY_PHYSICAL;

pub(crate) const INTERVAL: u64 = converted::INTERVAL as u64 + DEMAND_WEIGHT * OWN_RULE;

pub(crate) const UNREADABLE: u64 = NO_IMAGE + DEMAND_WEIGHT * NO_PHYSICAL;

pub(crate) const STRING: u64 = converted::UTF8 as u64
    + LOGICAL_WEIGHT * logical::STRING as u64
    + ON_BYTE_ARRAY;

pub(crate) const MAP: u64 = converted::MAP as u64 + LOGICAL_WEIGHT * logical::MAP as u64 + ON_GROUP;

pub(crate) const LIST: u64 = converted::LIST as u64
    + LOGICAL_WEIGHT * logical::LIST as u64
    + ON_GROUP;

pub(crate) const ENUM: u64 = converted::ENUM as u64
    + LOGICAL_WEIGHT * logical::ENUM as u64
    + ON_BYTE_ARRAY;

pub(crate) const DECIMAL: u64 = converted::DECIMAL as u64
    + LOGICAL_WEIGHT * logical::DECIMAL as u64
    + DEMAND_WEIGHT * OWN_RULE;

pub(crate) const DATE: u64 = converted::DATE as u64
    + LOGICAL_WEIGHT * logical::DATE as u64
    + ON_INT32;

const TIME: u64 = LOGICAL_WEIGHT * logical::TIME as u64;

pub(crate) const TIME_MILLIS: u64 = converted::TIME_MILLIS as u64
    + TIME
    + A_WEIGHT * parameters::MILLIS as u64
    + ON_INT32;

pub(crate) const TIME_MICROS: u64 = converted::TIME_MICROS as u64
    + TIME
    + A_WEIGHT * parameters::MICROS as u64
    + ON_INT64;

pub(crate) const TIME_NANOS: u64 = NO_IMAGE + TIME + A_WEIGHT * parameters::NANOS as u64 + ON_INT64;

const TIMESTAMP: u64 = LOGICAL_WEIGHT * logical::TIMESTAMP as u64 + ON_INT64;

pub(crate) const TIMESTAMP_MILLIS: u64 = converted::TIMESTAMP_MILLIS as u64
    + TIMESTAMP
    + A_WEIGHT * parameters::MILLIS as u64;

pub(crate) const TIMESTAMP_MICROS: u64 = converted::TIMESTAMP_MICROS as u64
    + TIMESTAMP
    + A_WEIGHT * parameters::MICROS as u64;

pub(crate) const TIMESTAMP_NANOS: u64 = NO_IMAGE + TIMESTAMP + A_WEIGHT * parameters::NANOS as u64;

const INTEGER: u64 = LOGICAL_WEIGHT * logical::INTEGER as u64;

pub(crate) const UINT_8: u64 = converted::UINT_8 as u64
    + INTEGER
    + A_WEIGHT * parameters::BITS_8 as u64
    + ON_INT32;

pub(crate) const UINT_16: u64 = converted::UINT_16 as u64
    + INTEGER
    + A_WEIGHT * parameters::BITS_16 as u64
    + ON_INT32;

pub(crate) const UINT_32: u64 = converted::UINT_32 as u64
    + INTEGER
    + A_WEIGHT * parameters::BITS_32 as u64
    + ON_INT32;

pub(crate) const UINT_64: u64 = converted::UINT_64 as u64
    + INTEGER
    + A_WEIGHT * parameters::BITS_64 as u64
    + ON_INT64;

pub(crate) const UNKNOWN: u64 = NO_IMAGE
    + LOGICAL_WEIGHT * logical::UNKNOWN as u64
    + DEMAND_WEIGHT * OWN_RULE;

pub(crate) const JSON: u64 = converted::JSON as u64
    + LOGICAL_WEIGHT * logical::JSON as u64
    + ON_BYTE_ARRAY;

pub(crate) const BSON: u64 = converted::BSON as u64
    + LOGICAL_WEIGHT * logical::BSON as u64
    + ON_BYTE_ARRAY;

pub(crate) const UUID: u64 = NO_IMAGE
    + LOGICAL_WEIGHT * logical::UUID as u64
    + DEMAND_WEIGHT * OWN_RULE;

pub(crate) const GEOMETRY: u64 = NO_IMAGE
    + LOGICAL_WEIGHT * logical::GEOMETRY as u64
    + DEMAND_WEIGHT * OWN_RULE;

const GEOGRAPHY: u64 = NO_IMAGE
    + LOGICAL_WEIGHT * logical::GEOGRAPHY as u64
    + DEMAND_WEIGHT * OWN_RULE;

pub(crate) const SPHERICAL_GEOGRAPHY: u64 = GEOGRAPHY + A_WEIGHT * parameters::SPHERICAL as u64;

pub(crate) const VINCENTY_GEOGRAPHY: u64 = GEOGRAPHY + A_WEIGHT * parameters::VINCENTY as u64;

pub(crate) const THOMAS_GEOGRAPHY: u64 = GEOGRAPHY + A_WEIGHT * parameters::THOMAS as u64;

pub(crate) const ANDOYER_GEOGRAPHY: u64 = GEOGRAPHY + A_WEIGHT * parameters::ANDOYER as u64;

pub(crate) const KARNEY_GEOGRAPHY: u64 = GEOGRAPHY + A_WEIGHT * parameters::KARNEY as u64;

// Those with their flag.
pub(crate) const UTC_TIME_MILLIS: u64 = TIME_MILLIS + UTC;

pub(crate) const UTC_TIME_MICROS: u64 = TIME_MICROS + UTC;

pub(crate) const UTC_TIME_NANOS: u64 = TIME_NANOS + UTC;

pub(crate) const UTC_TIMESTAMP_MILLIS: u64 = TIMESTAMP_MILLIS + UTC;

pub(crate) const UTC_TIMESTAMP_MICROS: u64 = TIMESTAMP_MICROS + UTC;

pub(crate) const UTC_TIMESTAMP_NANOS: u64 = TIMESTAMP_NANOS + UTC;

pub(crate) const INT_8: u64 = UINT_8 + SIGNED;

pub(crate) const INT_16: u64 = UINT_16 + SIGNED;

pub(crate) const INT_32: u64 = UINT_32 + SIGNED;

pub(crate) const INT_64: u64 = UINT_64 + SIGNED;

// What is added where the annotations of a slot disagree: it is above every packed annotation.
pub(crate) const DISAGREEMENT_MARK: u64 = 72057594037927936;

// The parts of a packed annotation.
// The parts of a packed number that are written, one byte each: four functions, so that each has the name of its part.
pub(crate) fn converted(packed: u64) -> u8
    ensures { result ≡ converted_part packed }
{
    (packed % BYTE) as u8
}

pub(crate) fn logical(packed: u64) -> u8
    ensures { result ≡ logical_part packed }
{
    (packed / LOGICAL_WEIGHT % BYTE) as u8
}

pub(crate) fn a(packed: u64) -> u8
    ensures { result ≡ a_part packed }
{
    (packed / A_WEIGHT % BYTE) as u8
}

pub(crate) fn b(packed: u64) -> u8
    ensures { result ≡ b_part packed }
{
    (packed / B_WEIGHT % BYTE) as u8
}

pub(crate) fn demand(packed: u64) -> u64
    ensures { result ≡ demand_part packed }
{
    packed / DEMAND_WEIGHT
}
