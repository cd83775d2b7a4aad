// A sheet judged in an edition: refusals 21 and 1 to 13.
ghost use Rattle.std.specs.Prelude.{◌≡◌, ◌<◌, Ok};
ghost use Rattle.sheet.specs.Block.{total_of};
ghost use Rattle.sheet.specs.Opening.{open_of};
ghost use Rattle.sheet.specs.Slot.{slots};
ghost use Rattle.tree.specs.Reading.{tree_of};
ghost use Rattle.tree.specs.Judgement.{or_else, too_deep, unlawful, tree_refusal, judged_nodes, judgement_of};
ghost use Rattle.tree.specs.Steps.{Claimed, verdict_of};

use crate::judging::{ALLOWED_DEPTHS, NO_FAULT, RULE_WEIGHT, judge_run};
use crate::node::Sheet;
use crate::places::places_filled;
use crate::standing::Standing;
use refusal::{Refusal, numbers};

// The number of nodes of a sheet, or the first of refusals 21 and 1 to 13.
pub fn judge(edition: u32, sheet: &[u8]) -> Result<usize, Refusal>
    ensures { result ≡ judgement_of edition sheet.now }
{
    let total = sheet::open(edition, sheet)?;
    judge_slots(edition, sheet, total)?;
    Ok(total)
}

// Refusals 5 to 13 of an open sheet.
fn judge_slots(edition: u32, sheet: &[u8], total: usize) -> Result<(), Refusal>
    requires { open_of edition sheet.now ≡ Ok total }
    ensures { result ≡ tree_refusal edition (slots sheet.now) }
{
    places_filled(sheet, total)?;
    judge_root(edition, sheet)
}

// Refusals 7 to 13 of a sheet whose slots claim rightly.
fn judge_root(edition: u32, sheet: &[u8]) -> Result<(), Refusal>
    requires claimed { Claimed sheet.now }
    requires sheet_nonzero { 0 < total_of sheet.now }
    ensures { result ≡ or_else (too_deep (tree_of (slots sheet.now))) (unlawful edition (tree_of (slots sheet.now))) }
{
    let judged = judge_run(
        edition,
        Sheet { bytes: sheet },
        0,
        1,
        ALLOWED_DEPTHS,
        Standing::Root,
    );
    match judged {
        Ok(run) => verdict_of(run.fault),
        Err(deep) => Err(Refusal {
            number: numbers::TOO_DEEP,
            place: deep.node,
        }),
    }
}

// The refusal of a fault.
fn verdict_of(fault: u32) -> Result<(), Refusal>
    ensures { result ≡ verdict_of fault }
{
    if fault == NO_FAULT {
        return Ok(());
    }
    Err(Refusal {
        number: (fault / RULE_WEIGHT) as u8,
        place: (fault % RULE_WEIGHT) as usize,
    })
}
