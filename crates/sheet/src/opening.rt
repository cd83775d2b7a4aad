// Opening a sheet: refusal 21, then 1 to 4, each judged over the whole sheet before the next.
ghost use Rattle.std.specs.Prelude.{◌≡◌, ℕ, true, false, ◌+◌, ◌*◌, ◌≤◌, ◌<◌, length};
ghost use Rattle.sheet.specs.Block.{block_size, slot_size, most_bytes, most_nodes, slots_in_block, block_count, total_of};
ghost use Rattle.sheet.specs.Slot.{slot_start};
ghost use Rattle.sheet.specs.Check.{check_right};
ghost use Rattle.sheet.specs.Header.{length_right, header_right};
ghost use Rattle.sheet.specs.Sound.{slot_right};
ghost use Rattle.sheet.specs.First.{first_wrong};
ghost use Rattle.sheet.specs.Opening.{open_of, outcome, outcome_of};

use crate::block::{check_right, header_right, total_of};
use crate::layout;
use crate::soundness::slot_right;
use edition::is_known;
use refusal::{Refusal, numbers, unknown_edition};

// The number of nodes of a sheet, or the first refusal that holds of the edition and of it.
#[tactic(auto, using(crate::proofs::HeaderLaws::length_right_least, crate::proofs::HeaderLaws::length_right_most), unfolding(crate::specs::Opening::open_of, crate::specs::Opening::at_first, crate::specs::Opening::outcome, crate::specs::Block::block_count))]
pub fn open(edition: u32, sheet: &[u8]) -> Result<usize, Refusal>
    ensures value { result ≡ open_of edition sheet.now }
    ensures result_value { outcome_of sheet.now result ≡ outcome edition sheet.now }
{
    if !is_known(edition) {
        return Err(unknown_edition());
    }
    if !length_right(sheet.len()) {
        return Err(Refusal {
            number: numbers::SHEET_LENGTH,
            place: 0,
        });
    }
    let blocks = sheet.len() / layout::BLOCK_SIZE;
    let check = first_bad_check(sheet, blocks);
    if check < blocks {
        return Err(Refusal {
            number: numbers::BLOCK_CHECK,
            place: check,
        });
    }
    let total = total_of(sheet);
    let header = first_bad_header(sheet, blocks, total);
    if header < blocks {
        return Err(Refusal {
            number: numbers::BLOCK_HEADER,
            place: header,
        });
    }
    let slots = layout::SLOTS_IN_BLOCK * blocks;
    let slot = first_bad_slot(edition, sheet, slots, total);
    if slot < slots {
        return Err(Refusal {
            number: numbers::SLOT,
            place: slot,
        });
    }
    Ok(total)
}

#[tactic(auto, unfolding(crate::specs::Header::length_right))]
fn length_right(n: usize) -> bool
    ensures { result ≡ length_right n }
{
    1 <= n && n % layout::BLOCK_SIZE == 0 && n <= layout::MOST_BYTES
}

fn first_bad_check(sheet: &[u8], blocks: usize) -> usize
    requires { block_size * blocks ≤ length sheet.now }
    ensures { result ≡ first_wrong (check_right sheet.now) blocks }
{
    first_wrong(
        blocks,
        |i|
            requires { block_size * (i + 1) ≤ length sheet.now }
            ensures { result ≡ check_right sheet.entry.now i }
        { check_right(sheet, i) },
    )
}

fn first_bad_header(sheet: &[u8], blocks: usize, total: usize) -> usize
    requires blocks_in_bounds { block_size * blocks ≤ length sheet.now }
    requires blocks_value { blocks ≡ block_count sheet.now }
    requires total_value { total ≡ total_of sheet.now }
    ensures { result ≡ first_wrong (header_right sheet.now) blocks }
{
    first_wrong(
        blocks,
        |i|
            requires i_in_bounds { block_size * (i + 1) ≤ length sheet.now }
            requires total_value { total ≡ total_of sheet.now }
            requires blocks_value { blocks ≡ block_count sheet.now }
            ensures { result ≡ header_right sheet.entry.now i }
        { header_right(sheet, i, total, blocks) },
    )
}

#[tactic(auto, using(crate::proofs::SlotLaws::slot_start_within, crate::proofs::SlotLaws::block_count_most))]
fn first_bad_slot(edition: u32, sheet: &[u8], slots: usize, total: usize) -> usize
    requires sheet_len_bound { length sheet.now ≤ most_bytes }
    requires slots_value { slots ≡ slots_in_block * block_count sheet.now }
    requires total_value { total ≡ total_of sheet.now }
    ensures { result ≡ first_wrong (slot_right edition sheet.now) slots }
{
    first_wrong(
        slots,
        |k|
            requires k_lt_most_nodes { k < most_nodes }
            requires slot_size_in_bounds { slot_start k + slot_size ≤ length sheet.now }
            requires total_value { total ≡ total_of sheet.now }
            ensures { result ≡ slot_right edition sheet.entry.now k }
        { slot_right(edition, sheet, k, total) },
    )
}

// The first number below n at which a test fails, or n where it fails at none.
fn first_wrong<F: Fn(usize) -> bool>(n: usize, right: F) -> usize
    requires { (i : ℕ) → i < n → F.pre right i }
    ensures within { result ≤ n }
    ensures passed { (i : ℕ) → i < result → F.post right i true }
    ensures failed { result < n → F.post right result false }
{
    for i in 0..n {
        if !right(i) {
            return i;
        }
    }
    n
}
