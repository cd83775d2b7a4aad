// Codes of the repetitions.
// Bytes, no enum: a slot's fields are the sheet's bytes as they stand (`sheet::slot_at`), which may be no code, and rules name the codes.
pub const REQUIRED: u8 = 0;

pub const OPTIONAL: u8 = 1;

pub const REPEATED: u8 = 2;

// No repetition, which the root alone has.
pub const NONE: u8 = 255;
