// Rules 12 and 13: the structure of a LIST and of a MAP.
ghost use Rattle.std.specs.Prelude.{◌≡◌, suc};
ghost use Rattle.sheet.specs.Slot.{slots, slot_at};
ghost use Rattle.tree.specs.Tree.{empty, field};
ghost use Rattle.tree.specs.Rules.{named_element, list_kept, list_child, map_kept, map_run};
ghost use Rattle.tree.specs.Steps.{tree_at, fields_at, inner_from, last_of};

use crate::layer::{Layer, layer_of};
use crate::node::{Node, node_at};
use crate::repetitions::required_or_optional;
use parquet::{physical, repetition};

impl<'a> Node<'a> {
    // Whether it keeps rule 12 as a LIST.
    pub(crate) fn list_kept(self) -> bool
        ensures { result ≡ list_kept (slot_at self.entry.sheet.bytes.now self.entry.at) (fields_at self.entry.sheet.bytes.now self.entry.at) }
    {
        required_or_optional(self.slot.repetition)
            && self.slot.children == 1
            && node_at(self.sheet, self.at + 1).list_child(self.at)
    }

    // Whether it is, as the child of a LIST, a repeated leaf, or a repeated group that is the element or holds it. Its name is asked for last.
    fn list_child(self, list: usize) -> bool
        ensures { result ≡ list_child (slot_at self.entry.sheet.bytes.now list) (tree_at (slots self.entry.sheet.bytes.now) self.entry.at) }
    {
        if self.slot.repetition != repetition::REPEATED {
            return false;
        }
        if self.slot.physical != physical::GROUP {
            return true;
        }
        let first = sheet::slot_at(self.sheet.bytes, self.at + 1);
        match layer_of(self.slot.children, first.repetition) {
            Layer::Empty => false,
            Layer::Element => true,
            Layer::ByName => {
                required_or_optional(first.repetition)
                    || named_element(self.sheet.bytes, list, self.at)
            }
        }
    }

    // Whether it keeps rule 13 as a MAP, where the last field of its child stands at value.
    pub(crate) fn map_kept(self, value: usize) -> bool
        requires value_value { value ≡ inner_from (suc self.at) (suc self.at) (fields_at self.sheet.bytes.now self.at) }
        ensures { result ≡ map_kept (slot_at self.entry.sheet.bytes.now self.entry.at) (fields_at self.entry.sheet.bytes.now self.entry.at) }
    {
        required_or_optional(self.slot.repetition)
            && self.slot.children == 1
            && node_at(self.sheet, self.at + 1).map_child(value)
    }

    // Whether it is, as the child of a MAP, a repeated group of a required key and, if any, a required or optional value.
    fn map_child(self, value: usize) -> bool
        requires value_value { value ≡ last_of self.at (tree_at (slots self.sheet.bytes.now) self.at) }
        ensures { result ≡ map_run (field (tree_at (slots self.entry.sheet.bytes.now) self.entry.at) empty) }
    {
        if self.slot.repetition != repetition::REPEATED || self.slot.physical != physical::GROUP {
            return false;
        }
        let key = sheet::slot_at(self.sheet.bytes, self.at + 1);
        match self.slot.children {
            1 => key.repetition == repetition::REQUIRED,
            2 => {
                key.repetition == repetition::REQUIRED
                    && required_or_optional(sheet::slot_at(self.sheet.bytes, value).repetition)
            }
            _ => false,
        }
    }
}

// Whether a LIST's repeated group has the name of an element: `array`, or the list's name plus `_tuple`.
#[tactic(auto, unfolding(crate::specs::Rules::named_element))]
pub fn named_element(sheet: &[u8], list: usize, layer: usize) -> bool
    ensures { result ≡ named_element (slot_at sheet.now list) (slot_at sheet.now layer) }
{
    sheet::name_is(sheet, layer, b"array") || sheet::name_is_with(sheet, layer, list, b"_tuple")
}
