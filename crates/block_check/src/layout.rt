// How many bytes a block has, and where it stores its check.
pub const BLOCK_SIZE: usize = 512;

pub const STORED_CHECK: usize = 510;
