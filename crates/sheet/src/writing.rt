// Writing into a sheet: other annotations in a slot, and the checks of its blocks.
ghost use Rattle.std.specs.Prelude.{◌≡◌, ◌+◌, ◌*◌, ◌≤◌, length};
ghost use Rattle.sheet.specs.Block.{block_size};
ghost use Rattle.sheet.specs.Check.{with_check, renewed};
ghost use Rattle.sheet.specs.Slot.{with_annotation};

use crate::block::block_at;
use crate::layout;
use crate::slots::start_in;
use block_check::check_of;

// Stores other annotations in the slot of a node, which has its other bytes still. Nothing is stored where the bytes do not
// reach the slot. Four numbers and no struct: README names them, and the struct of them is `annotation`'s, a crate beside this one.
#[tactic(auto, unfolding(crate::specs::Slot::with_annotation))]
pub fn write_annotation(sheet: &mut [u8], node: usize, converted: u8, logical: u8, a: u8, b: u8)
    ensures { sheet.new ≡ with_annotation sheet.old node converted logical a b }
{
    let Some(start) = start_in(sheet, node) else {
        return;
    };
    sheet[start + layout::CONVERTED] = converted;
    sheet[start + layout::LOGICAL] = logical;
    sheet[start + layout::PARAMETER_A] = a;
    sheet[start + layout::PARAMETER_B] = b;
}

// Stores the check of every whole block.
#[tactic(auto, unfolding(crate::specs::Check::with_checks, crate::specs::Check::renewed, crate::specs::Block::block_count))]
pub fn renew_checks(sheet: &mut [u8])
    ensures { sheet.new ≡ renewed sheet.old }
{
    let blocks = sheet.len() / layout::BLOCK_SIZE;
    for i in 0..blocks {
        renew_check(sheet, i);
    }
}

#[tactic(auto, using(block_check::proofs::CheckLaws::check_lt, block_check::proofs::CheckLaws::check_of_block), unfolding(crate::specs::Check::with_check))]
fn renew_check(sheet: &mut [u8], i: usize)
    requires { block_size * (i + 1) ≤ length sheet.old }
    ensures { sheet.new ≡ with_check sheet.old i }
{
    let check = check_of(block_at(sheet, i));
    let at = layout::BLOCK_SIZE * i + layout::CHECK;
    let [low, high] = (check as u16).to_le_bytes();
    sheet[at] = low;
    sheet[at + 1] = high;
}
