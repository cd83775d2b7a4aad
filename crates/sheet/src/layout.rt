// Where each field of a block and of a slot lies, and how many of each there may be.
pub(crate) const BLOCK_SIZE: usize = block_check::BLOCK_SIZE;

pub(crate) const SLOTS_IN_BLOCK: usize = 7;

pub const SLOT_SIZE: usize = 72;

// The most bytes that a sheet has.
pub const MOST_BYTES: usize = 65536;

// The most nodes that a sheet has.
pub const MOST_NODES: usize = 896;

// A block.
pub(crate) const BLOCK_NUMBER: usize = 0;

pub(crate) const NODES_HERE: usize = 2;

pub(crate) const VERSION: usize = 3;

pub(crate) const TOTAL: usize = 4;

pub(crate) const FIRST_SLOT: usize = 6;

pub(crate) const CHECK: usize = block_check::STORED_CHECK;

// A slot.
pub(crate) const PHYSICAL: usize = 0;

pub(crate) const REPETITION: usize = 1;

pub(crate) const CONVERTED: usize = 2;

pub(crate) const LOGICAL: usize = 3;

pub(crate) const PARAMETER_A: usize = 4;

pub(crate) const PARAMETER_B: usize = 5;

pub(crate) const CHILD_COUNT: usize = 6;

pub(crate) const TYPE_LENGTH: usize = 8;

pub(crate) const SCALE: usize = 12;

pub(crate) const PRECISION: usize = 16;

pub(crate) const NAME_LENGTH: usize = 20;

pub(crate) const NAME: usize = 24;

pub(crate) const MOST_NAME_LENGTH: usize = 48;
