// One step over a sheet that opening has judged: what it hands out, and where it leads.
ghost use Rattle.std.specs.Prelude.{◌≡◌};
ghost use Rattle.sheet_reader.specs.Step.{total, step_at, node_after};

use refusal::Refusal;
use sheet::{Slot, Stretch};

// What a step hands out: the numbers of a node's slot and where its name stands in the sheet, or the end where the node is not one
// of those that opening found.
#[tactic(auto, unfolding(crate::specs::Step::step_at))]
pub fn step_at(sheet: &[u8], node: usize, opened: Result<usize, Refusal>) -> Option<(Slot, Stretch)>
    ensures { result ≡ step_at sheet.now node opened }
{
    if node >= total_of(opened) {
        return None;
    }
    Some((
        sheet::slot_at(sheet, node),
        sheet::name_stretch(sheet, node),
    ))
}

// The node after one that opening found, and the same node where it found none such.
#[tactic(auto, unfolding(crate::specs::Step::node_after))]
pub fn node_after(node: usize, opened: Result<usize, Refusal>) -> usize
    ensures { result ≡ node_after node opened }
{
    if node >= total_of(opened) {
        return node;
    }
    node + 1
}

// How many nodes opening found: none in a sheet that it refused.
#[tactic(auto, unfolding(crate::specs::Step::total))]
fn total_of(opened: Result<usize, Refusal>) -> usize
    ensures { result ≡ total opened }
{
    opened.unwrap_or(0)
}
