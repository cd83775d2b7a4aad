// A node's name: where it stands, and whether it is some bytes.
ghost use Rattle.std.specs.Prelude.{◌≡◌, ◌++◌};
ghost use Rattle.sheet.specs.Slot.{slot_at, name};
ghost use Rattle.sheet.specs.Name.{stretch_of, same_bytes};

use crate::layout;
use crate::slots::start_in;

// A part of the sheet's bytes.
#[derive(Clone, Copy)]
pub struct Stretch {
    pub start: usize,
    pub len: usize,
}

// Where the name of a node stands in the sheet: at 0, and of length 0, where the bytes do not reach its slot.
#[tactic(auto, using(crate::proofs::NameLaws::stretch_of_nowhere, crate::proofs::NameLaws::stretch_of_there, crate::proofs::SlotLaws::slot_at_byte), unfolding(crate::specs::Slot::name_length_of))]
pub fn name_stretch(sheet: &[u8], node: usize) -> Stretch
    ensures { result ≡ stretch_of sheet.now node }
{
    let Some(start) = start_in(sheet, node) else {
        return Stretch { start: 0, len: 0 };
    };
    let len = sheet[start + layout::NAME_LENGTH] as usize;
    Stretch {
        start: start + layout::NAME,
        len: len.min(layout::MOST_NAME_LENGTH),
    }
}

// Whether the name of a node is the given bytes.
#[tactic(auto, using(crate::proofs::NameLaws::same_bytes_pointwise))]
pub fn name_is(sheet: &[u8], node: usize, given: &[u8]) -> bool
    ensures { result ≡ same_bytes (name (slot_at sheet.now node)) given.now }
{
    name_of(sheet, node) == given
}

// Whether the name of a node is the name of another with a suffix.
#[tactic(auto, using(crate::proofs::NameLaws::joined_short))]
pub fn name_is_with(sheet: &[u8], node: usize, other: usize, suffix: &[u8]) -> bool
    ensures { result ≡ same_bytes (name (slot_at sheet.now node)) (name (slot_at sheet.now other) ++ suffix.now) }
{
    let whole = name_of(sheet, node);
    let Some(n) = whole.len().checked_sub(suffix.len()) else {
        return false;
    };
    &whole[n..] == suffix && &whole[..n] == name_of(sheet, other)
}

// The name of a node, of no byte where the bytes do not reach its slot.
#[tactic(auto, using(crate::proofs::NameLaws::stretch_of_within, crate::proofs::NameLaws::stretch_of_name, crate::proofs::PartLaws::take_to))]
pub fn name_of(sheet: &[u8], node: usize) -> &[u8]
    ensures { result.now ≡ name (slot_at sheet.now node) }
{
    let Stretch { start, len } = name_stretch(sheet, node);
    &sheet[start..start + len]
}
