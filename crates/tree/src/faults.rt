// The first rule of 8 to 13 that a node breaks.
ghost use Rattle.std.specs.Prelude.{◌≡◌, suc, ◌<◌};
ghost use Rattle.sheet.specs.Block.{total_of};
ghost use Rattle.sheet.specs.Slot.{slot_at};
ghost use Rattle.tree.specs.Steps.{fields_at, inner_from, annotation_rule, rule_number, broken_as, broken_with13, list_broken};

use crate::node::{Node, Sheet, node_at};
use crate::shape::shape_kept;
use crate::standing::{Standing, under_map};
use annotation::{Broken, Judged};
use parquet::logical;

// A rule of 8 to 13 that a node breaks, with the number of its refusal.
#[derive(Clone, Copy, Debug, PartialEq, Eq)]
pub(crate) enum Rule {
    Shape = 8,
    Disagreement = 9,
    Misplaced = 10,
    BadDecimal = 11,
    BadList = 12,
    BadMap = 13,
}

impl From<Broken> for Rule {
    ghost from_gives = { λ broken rule. rule ≡ annotation_rule broken };

    // The rule that the annotations of a node break.
    fn from(broken: Broken) -> Rule {
        match broken {
            Broken::Disagreement => Rule::Disagreement,
            Broken::Misplaced => Rule::Misplaced,
            Broken::BadDecimal => Rule::BadDecimal,
        }
    }
}

impl Rule {
    // The number of its refusal.
    pub(crate) fn number(self) -> u32
        ensures { result ≡ rule_number self }
    {
        self as u32
    }
}

impl<'a> Node<'a> {
    // Whether it keeps rules 8 to 12, or the first that it breaks. Its annotations are judged so.
    #[tactic(auto, using(crate::proofs::NodeLaws::shape_is), unfolding(crate::specs::Steps::broken_as))]
    pub(crate) fn broken_to_12(self, standing: Standing, judged: Judged) -> Result<(), Rule>
        ensures { result ≡ broken_as judged.refusal judged.logical standing (slot_at self.entry.sheet.bytes.now self.entry.at) (fields_at self.entry.sheet.bytes.now self.entry.at) }
    {
        if !shape_kept(standing, self.slot) {
            return Err(Rule::Shape);
        }
        if let Some(broken) = judged.refusal {
            return Err(Rule::from(broken));
        }
        self.list_broken(judged.logical)
    }

    // Rule 12, its logical type known.
    #[tactic(auto, unfolding(crate::specs::Steps::list_broken))]
    fn list_broken(self, logical: u8) -> Result<(), Rule>
        ensures { result ≡ list_broken logical (slot_at self.entry.sheet.bytes.now self.entry.at) (fields_at self.entry.sheet.bytes.now self.entry.at) }
    {
        if logical != logical::LIST || self.list_kept() {
            return Ok(());
        }
        Err(Rule::BadList)
    }
}

// Whether the node at a number keeps every rule, or the first that it breaks: of rules 8 to 12 it is known, its fields have such a standing,
// and where it is a MAP, the last field of its child stands at value. Rule 13 waits for the node's run, which tells that.
pub(crate) fn broken_with_13(
    sheet: Sheet<'_>,
    at: usize,
    below: Standing,
    least: Result<(), Rule>,
    value: usize,
) -> Result<(), Rule>
    requires at_bound { at < total_of sheet.bytes.now }
    requires value_value { value ≡ inner_from (suc at) (suc at) (fields_at sheet.bytes.now at) }
    ensures { result ≡ broken_with13 least below (slot_at sheet.entry.bytes.now at) (fields_at sheet.entry.bytes.now at) }
{
    least?;
    if !under_map(below) || node_at(sheet, at).map_kept(value) {
        return Ok(());
    }
    Err(Rule::BadMap)
}
