// Sums of a block's words. A block is read by chunks of 32 bytes, which are 16 words of two bytes. The words at one place of their
// chunks are added up in one lane. A lane has 16 bits, so that a register holds eight. Of a sum of words 16 bits alone are kept;
// the sum of their higher bytes is kept beside it, and by both the sum of their lower bytes can be told.
ghost use Rattle.std.specs.Prelude.{◌≡◌, ◌+◌, ◌*◌, ◌≤◌, length};
ghost use Rattle.block_check.specs.Check.{block_size, sum_below};
ghost use Rattle.block_check.specs.Steps.{chunk_size, lanes, low_of, lows_of, highs_of, pair_of, pair_weight, none_of, most_of, OfChunk, AtMost, Added};

use crate::layout;

pub(crate) const CHUNK_SIZE: usize = 32;

const WORD_SIZE: usize = 2;

const LANES: usize = CHUNK_SIZE / WORD_SIZE;

const BYTE: u16 = 256;

// No plain sum reaches this power of two.
const OVER_PLAIN: u16 = 0x8000;

// For each lane a sum of words and the sum of their higher bytes: two arrays and not one of pairs, so that a register holds eight
// sums of one kind.
#[derive(Drop)]
pub(crate) struct Lanes {
    words: [u16; LANES],
    highs: [u16; LANES],
}

impl Lanes {
    // The sums of no word.
    pub(crate) fn none() -> Lanes
        ensures { result ≡ none_of }
    {
        Lanes {
            words: [0; LANES],
            highs: [0; LANES],
        }
    }

    // The words of a chunk and their higher bytes.
    pub(crate) fn of_chunk(chunk: &[u8]) -> Lanes
        requires { length chunk.now ≡ chunk_size }
        ensures { OfChunk chunk.now result }
    {
        let mut lanes = Lanes::none();
        for j in 0..LANES {
            let at = WORD_SIZE * j;
            let word = u16::from_le_bytes([chunk[at], chunk[at + 1]]);
            lanes.words[j] = word;
            lanes.highs[j] = word / BYTE;
        }
        lanes
    }

    // Adds to each lane, of which 16 bits are kept.
    pub(crate) fn add(&mut self, more: &Lanes)
        ensures { Added self.old more.now self.new }
    {
        for j in 0..LANES {
            self.words[j] = self.words[j].wrapping_add(more.words[j]);
            self.highs[j] = self.highs[j].wrapping_add(more.highs[j]);
        }
    }

    // The sum over the lanes, each byte with the weight that it has in a chunk behind the block.
    pub(crate) fn weighted_behind(&self) -> u32
        requires { AtMost (most_of block_size) self.now }
        ensures { result ≡ sum_below (pair_weight block_size (lows_of self.now) (highs_of self.now)) lanes }
    {
        let mut sum: u32 = 0;
        for j in 0..LANES {
            let high = self.highs[j];
            let low = low_of(self.words[j], high);
            let at = layout::BLOCK_SIZE + WORD_SIZE * j;
            sum += weigh(at + 1, low) + weigh(at + WORD_SIZE, high);
        }
        sum
    }

    // The sum over the lanes.
    pub(crate) fn unweighted(&self) -> u32
        ensures value { result ≡ sum_below (pair_of (lows_of self.now) (highs_of self.now)) lanes }
        ensures upper_bound { result ≤ 2 * 65535 * lanes }
    {
        let mut sum: u32 = 0;
        for j in 0..LANES {
            let high = self.highs[j];
            sum += u32::from(low_of(self.words[j], high)) + u32::from(high);
        }
        sum
    }
}

// The lower bytes' sum in a lane, by 16 bits of the words' sum and the higher bytes' sum.
#[tactic(auto, unfolding(crate::specs::Steps::low_of))]
fn low_of(sum: u16, high: u16) -> u16
    ensures { result ≡ low_of sum high }
{
    sum.wrapping_sub(BYTE * (high % BYTE))
}

// A plain sum times its weight. That it is below 2^15 is said again by the remainder, so that products of 16 bits by 16 are made,
// eight at once.
fn weigh(weight: usize, sum: u16) -> u32
    requires weight_bound { weight ≤ block_size + chunk_size }
    requires sum_bound { sum ≤ most_of block_size }
    ensures value { result ≡ weight * sum }
    ensures upper_bound { result ≤ (block_size + chunk_size) * most_of block_size }
{
    weight as u32 * u32::from(sum % OVER_PLAIN)
}
