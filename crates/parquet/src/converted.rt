// Codes of the converted types.
// Bytes, no enum: a slot's fields are the sheet's bytes as they stand (`sheet::slot_at`), which may be no code, and rules name the codes.
pub const UTF8: u8 = 0;

pub const MAP: u8 = 1;

pub const MAP_KEY_VALUE: u8 = 2;

pub const LIST: u8 = 3;

pub const ENUM: u8 = 4;

pub const DECIMAL: u8 = 5;

pub const DATE: u8 = 6;

pub const TIME_MILLIS: u8 = 7;

pub const TIME_MICROS: u8 = 8;

pub const TIMESTAMP_MILLIS: u8 = 9;

pub const TIMESTAMP_MICROS: u8 = 10;

pub const UINT_8: u8 = 11;

pub const UINT_16: u8 = 12;

pub const UINT_32: u8 = 13;

pub const UINT_64: u8 = 14;

pub const INT_8: u8 = 15;

pub const INT_16: u8 = 16;

pub const INT_32: u8 = 17;

pub const INT_64: u8 = 18;

pub const JSON: u8 = 19;

pub const BSON: u8 = 20;

pub const INTERVAL: u8 = 21;

// No converted type stands.
pub const NONE: u8 = 255;
