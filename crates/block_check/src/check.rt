// The check of a block, and the sum that it reduces.
ghost use Rattle.std.specs.Prelude.{◌≡◌, ◌<◌, length};
ghost use Rattle.block_check.specs.Check.{block_size, check_at, sum_below, weighted, check_of};

use crate::lanes::{CHUNK_SIZE, Lanes};
use crate::layout;

const CHECK_MODULUS: u32 = 65521;

const CHUNKS: usize = layout::BLOCK_SIZE / CHUNK_SIZE;

// So many chunks are added in a turn: LLVM unrolls such turns, and one loop over all chunks it does not. By `chunks_exact`, or one
// chunk a turn, opening 128 blocks took 23% more instructions and 6% more time.
const TURN: usize = 2;

const CHUNK_WEIGHT: u32 = CHUNK_SIZE as u32;

// The weights of the bytes of the stored check.
const LOW_WEIGHT: u32 = layout::STORED_CHECK as u32 + 1;

const HIGH_WEIGHT: u32 = LOW_WEIGHT + 1;

// The check that a block should have, and 0 of bytes that are no block: the sum is below 2^27, so it is reduced once.
#[tactic(auto, unfolding(crate::specs::Check::check_of, crate::specs::Check::check))]
pub fn check_of(block: &[u8]) -> u32
    ensures { result ≡ check_of block.now }
{
    if block.len() != layout::BLOCK_SIZE {
        return 0;
    }
    weighted_sum(block) % CHECK_MODULUS
}

// The sum of (i + 1) times byte i over the bytes before the stored check: that over the whole block, less those of the check.
#[tactic(auto, using(crate::proofs::SumLaws::sum_of_whole))]
fn weighted_sum(block: &[u8]) -> u32
    requires { length block.now ≡ block_size }
    ensures { result ≡ sum_below (weighted block.now) check_at }
{
    let low = u32::from(block[layout::STORED_CHECK]);
    let high = u32::from(block[layout::STORED_CHECK + 1]);
    whole_sum(block) - LOW_WEIGHT * low - HIGH_WEIGHT * high
}

// The sum of (i + 1) times byte i over a whole block. A byte weighs what it would in a chunk behind the block, less a chunk's size
// for its own chunk and for each one after it. So two sums are kept of each lane: a plain one of what was added to it, and a
// cumulative one, to which the plain one is added after each chunk, so that a byte is in it once for its own chunk and for each one
// after it.
fn whole_sum(block: &[u8]) -> u32
    requires { length block.now ≡ block_size }
    ensures { result ≡ sum_below (weighted block.now) block_size }
{
    let mut plain = Lanes::none();
    let mut cumulative = Lanes::none();
    for turn in 0..CHUNKS / TURN {
        for k in 0..TURN {
            let start = CHUNK_SIZE * (TURN * turn + k);
            plain.add(&Lanes::of_chunk(&block[start..start + CHUNK_SIZE]));
            cumulative.add(&plain);
        }
    }
    plain.weighted_behind() - CHUNK_WEIGHT * cumulative.unweighted()
}
