// The refusals' numbers. Those of document 01 are judged in their order. They stay numbers: C and the programs' lines name a refusal by
// its number, and `demands/specs/Refusals` says of any number and place whether it is answered.

// A sheet's length is 0, not a multiple of 512, or over 65,536.
pub const SHEET_LENGTH: u8 = 1;

// A block's check differs.
pub const BLOCK_CHECK: u8 = 2;

// A block's header is wrong.
pub const BLOCK_HEADER: u8 = 3;

// A slot is wrong, or an unused slot is not zero.
pub const SLOT: u8 = 4;

// More children are claimed than nodes exist.
pub const MISSING_NODES: u8 = 5;

// Nodes remain after the root's tree.
pub const LEFT_OVER: u8 = 6;

// A node is deeper than 32.
pub const TOO_DEEP: u8 = 7;

// A node's shape.
pub const SHAPE: u8 = 8;

// Converted and logical type disagree.
pub const DISAGREEMENT: u8 = 9;

// An annotation is on the wrong physical type, length or parameters.
pub const MISPLACED: u8 = 10;

// A DECIMAL's scale or precision.
pub const BAD_DECIMAL: u8 = 11;

// A LIST's structure.
pub const BAD_LIST: u8 = 12;

// A MAP's structure.
pub const BAD_MAP: u8 = 13;

// An output is too short, or its start lies beyond its end.
pub const SHORT_OUTPUT: u8 = 14;

// A value has the wrong length, or over 65,536 bytes.
pub const WRONG_LENGTH: u8 = 15;

// A value breaks its annotation.
pub const BREAKS_ANNOTATION: u8 = 16;

// A column has no order.
pub const NO_ORDER: u8 = 17;

// Fields form no date or time.
pub const NO_DATE_TIME: u8 = 18;

// Fields are not representable in a signed count of 64 bits.
pub const NOT_REPRESENTABLE: u8 = 19;

// No accepted sheet has a leaf of this column type, or a time unit is not 1 to 3.
pub const UNKNOWN_TYPE: u8 = 20;

// An edition is unknown: judged before all others.
pub const UNKNOWN_EDITION: u8 = 21;
