// The codes of a column type, whose numbers are of 32 bits: its physical types, its kinds, and the parameter of INT.
// They stay numbers: a column type is five numbers from C that may be any, and the definitions of specs/ and of the demands are of all of them.
use logical_type::parameters;
use parquet::{converted, logical, physical};

pub const BOOLEAN: u32 = physical::BOOLEAN as u32;

pub const INT32: u32 = physical::INT32 as u32;

pub const INT64: u32 = physical::INT64 as u32;

pub const INT96: u32 = physical::INT96 as u32;

pub const FLOAT: u32 = physical::FLOAT as u32;

pub const DOUBLE: u32 = physical::DOUBLE as u32;

pub const BYTE_ARRAY: u32 = physical::BYTE_ARRAY as u32;

pub const FIXED_LEN_BYTE_ARRAY: u32 = physical::FIXED_LEN_BYTE_ARRAY as u32;

pub const STRING: u32 = logical::STRING as u32;

pub const ENUM: u32 = logical::ENUM as u32;

pub const DECIMAL: u32 = logical::DECIMAL as u32;

pub const TIME: u32 = logical::TIME as u32;

pub const INTEGER: u32 = logical::INTEGER as u32;

pub const UNKNOWN: u32 = logical::UNKNOWN as u32;

pub const JSON: u32 = logical::JSON as u32;

pub const GEOMETRY: u32 = logical::GEOMETRY as u32;

pub const GEOGRAPHY: u32 = logical::GEOGRAPHY as u32;

pub const INTERVAL: u32 = converted::INTERVAL as u32;

// p2 of INTEGER.
pub const UNSIGNED: u32 = parameters::FALSE as u32;
