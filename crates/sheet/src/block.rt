// A block: its bytes, whether its check is right, and whether its header is.
ghost use Rattle.std.specs.Prelude.{◌≡◌, ◌+◌, ◌*◌, ◌^◌, ◌≤◌, ◌<◌, length};
ghost use Rattle.sheet.specs.Block.{block_size, slots_in_block, block_count, block_at, total_of};
ghost use Rattle.sheet.specs.Check.{check_right};
ghost use Rattle.sheet.specs.Header.{nodes_in, total_right, numbers_right, header_right};

use crate::layout;
use crate::number::number16;
use block_check::check_of;

const VERSION_NOW: u8 = 1;

// Whether the stored check of block i is its check.
#[tactic(auto, using(block_check::proofs::CheckLaws::check_of_block), unfolding(crate::specs::Check::check_right, crate::specs::Block::stored_check))]
pub(crate) fn check_right(sheet: &[u8], i: usize) -> bool
    requires { block_size * (i + 1) ≤ length sheet.now }
    ensures { result ≡ check_right sheet.now i }
{
    let block = block_at(sheet, i);
    u32::from(number16(block, layout::CHECK)) == check_of(block)
}

// Whether the header of block i is right, where block 0 says total and there are so many blocks.
#[tactic(auto, unfolding(crate::specs::Header::header_right))]
pub(crate) fn header_right(sheet: &[u8], i: usize, total: usize, blocks: usize) -> bool
    requires i_in_bounds { block_size * (i + 1) ≤ length sheet.now }
    requires total_value { total ≡ total_of sheet.now }
    requires blocks_value { blocks ≡ block_count sheet.now }
    ensures { result ≡ header_right sheet.now i }
{
    fields_right(block_at(sheet, i), i, total) && (i != 0 || total_right(total, blocks))
}

// T, which stands in block 0.
#[tactic(auto, unfolding(crate::specs::Block::total_of, crate::specs::Block::total))]
pub(crate) fn total_of(sheet: &[u8]) -> usize
    requires { block_size ≤ length sheet.now }
    ensures { result ≡ total_of sheet.now }
{
    number16(block_at(sheet, 0), layout::TOTAL) as usize
}

// The bytes of block i.
#[tactic(auto, using(crate::proofs::PartLaws::take_to, crate::proofs::PartLaws::length_part), unfolding(crate::specs::Block::block_at))]
pub(crate) fn block_at(sheet: &[u8], i: usize) -> &[u8]
    requires { block_size * (i + 1) ≤ length sheet.now }
    ensures result_value { result.now ≡ block_at sheet.now i }
    ensures result_len { length result.now ≡ block_size }
{
    let start = layout::BLOCK_SIZE * i;
    &sheet[start..start + layout::BLOCK_SIZE]
}

// Whether a block's header is that of block number i, of total nodes in all.
#[tactic(auto, unfolding(crate::specs::Header::numbers_right, crate::specs::Block::block_number, crate::specs::Block::version, crate::specs::Block::total, crate::specs::Block::nodes_here))]
fn fields_right(block: &[u8], i: usize, total: usize) -> bool
    requires block_len { length block.now ≡ block_size }
    requires i_bound { slots_in_block * i < 2 ^ 64 }
    ensures { result ≡ numbers_right total i block.now }
{
    number16(block, layout::BLOCK_NUMBER) as usize == i
        && block[layout::VERSION] == VERSION_NOW
        && number16(block, layout::TOTAL) as usize == total
        && block[layout::NODES_HERE] as usize == nodes_in(total, i)
}

// How many of total nodes block i holds.
#[tactic(auto, unfolding(crate::specs::Header::nodes_in))]
fn nodes_in(total: usize, i: usize) -> usize
    requires { slots_in_block * i < 2 ^ 64 }
    ensures { result ≡ nodes_in total i }
{
    let before = layout::SLOTS_IN_BLOCK * i;
    layout::SLOTS_IN_BLOCK.min(total.saturating_sub(before))
}

// Whether total is 1 to 896 and needs just so many blocks.
#[tactic(auto, unfolding(crate::specs::Header::total_right, crate::specs::Header::blocks_for))]
fn total_right(total: usize, blocks: usize) -> bool
    ensures { result ≡ total_right total blocks }
{
    1 <= total && total <= layout::MOST_NODES && total.div_ceil(layout::SLOTS_IN_BLOCK) == blocks
}
