// Codes of the physical types.
// Bytes, no enum: a slot's fields are the sheet's bytes as they stand (`sheet::slot_at`), which may be no code, and rules name the codes.
pub const BOOLEAN: u8 = 0;

pub const INT32: u8 = 1;

pub const INT64: u8 = 2;

pub const INT96: u8 = 3;

pub const FLOAT: u8 = 4;

pub const DOUBLE: u8 = 5;

pub const BYTE_ARRAY: u8 = 6;

pub const FIXED_LEN_BYTE_ARRAY: u8 = 7;

// A group, which has no physical type.
pub const GROUP: u8 = 255;
