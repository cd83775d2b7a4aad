// Codes of the logical types.
// Bytes, no enum: a slot's fields are the sheet's bytes as they stand (`sheet::slot_at`), which may be no code, and rules name the codes.
pub const STRING: u8 = 1;

pub const MAP: u8 = 2;

pub const LIST: u8 = 3;

pub const ENUM: u8 = 4;

pub const DECIMAL: u8 = 5;

pub const DATE: u8 = 6;

pub const TIME: u8 = 7;

pub const TIMESTAMP: u8 = 8;

pub const INTEGER: u8 = 10;

pub const UNKNOWN: u8 = 11;

pub const JSON: u8 = 12;

pub const BSON: u8 = 13;

pub const UUID: u8 = 14;

pub const GEOMETRY: u8 = 17;

pub const GEOGRAPHY: u8 = 18;

// No logical type stands.
pub const NONE: u8 = 0;
