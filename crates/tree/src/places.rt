// Refusals 5 and 6: open places, counted from node to node.
ghost use Rattle.std.specs.Prelude.{◌≡◌, ◌≤◌};
ghost use Rattle.sheet.specs.Block.{total_of, most_nodes};
ghost use Rattle.sheet.specs.Slot.{slots};
ghost use Rattle.tree.specs.Judgement.{or_else, left_over, missing};

use refusal::{Refusal, numbers};

// Whether nodes are left over after the root's tree, or more children are claimed than nodes exist.
pub(crate) fn places_filled(sheet: &[u8], total: usize) -> Result<(), Refusal>
    requires total_value { total ≡ total_of sheet.now }
    requires total_le_most_nodes { total ≤ most_nodes }
    ensures { result ≡ or_else (left_over (slots sheet.now)) (missing (slots sheet.now)) }
{
    let mut open: u32 = 1;
    for node in 0..total {
        if open == 0 {
            return Err(Refusal {
                number: numbers::LEFT_OVER,
                place: node,
            });
        }
        open = open - 1 + sheet::slot_at(sheet, node).children as u32;
    }
    if open == 0 {
        return Ok(());
    }
    Err(Refusal {
        number: numbers::MISSING_NODES,
        place: total,
    })
}
