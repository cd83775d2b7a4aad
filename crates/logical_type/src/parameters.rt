// Codes of the parameters of logical types.
// Bytes and no enum: what a code means hangs on the logical type beside it, and a slot's byte may be none of them.

// Parameter a of INTEGER.
pub const BITS_8: u8 = 8;

pub const BITS_16: u8 = 16;

pub const BITS_32: u8 = 32;

pub const BITS_64: u8 = 64;

// Parameter a of TIME and TIMESTAMP.
pub const MILLIS: u8 = 1;

pub const MICROS: u8 = 2;

pub const NANOS: u8 = 3;

// Parameter a of GEOGRAPHY.
pub const SPHERICAL: u8 = 0;

pub const VINCENTY: u8 = 1;

pub const THOMAS: u8 = 2;

pub const ANDOYER: u8 = 3;

pub const KARNEY: u8 = 4;

// Parameter b of INTEGER, TIME and TIMESTAMP.
pub const FALSE: u8 = 0;

pub const TRUE: u8 = 1;

// A parameter that the logical type does not have.
pub const UNUSED: u8 = 0;
