// A node's slot: where it lies, and its numbers.
ghost use Rattle.std.specs.Prelude.{◌≡◌, ◌<◌, false, length, MatchOption};
ghost use Rattle.sheet.specs.Block.{slot_size, most_nodes};
ghost use Rattle.sheet.specs.Slot.{numbers_of, slot_at, slot_bytes_at, slot_start, reaches};
ghost use Rattle.sheet.specs.Steps.{StartsAt};

use crate::layout;
use crate::number::{number16, signed32};

// The bytes of a block that are in no slot.
const BESIDE_SLOTS: usize = layout::BLOCK_SIZE - layout::SLOTS_IN_BLOCK * layout::SLOT_SIZE;

// A seventh, rounded up, in so many parts: exact enough for the number of any node.
const SEVENTH: usize = 9363;

const PARTS: usize = 65536;

// A slot's numbers, as its bytes have them.
#[derive(Clone, Copy)]
pub struct Slot {
    pub physical: u8,
    pub repetition: u8,
    pub converted: u8,
    pub logical: u8,
    pub a: u8,
    pub b: u8,
    pub children: u16,
    pub type_length: i32,
    pub scale: i32,
    pub precision: i32,
    pub name_length: u8,
}

// The numbers of a node's slot: what stands there, and zeros where the bytes do not reach it.
#[tactic(auto, using(crate::proofs::SlotLaws::slot_at_slice, crate::proofs::SlotLaws::slot_at_empty), unfolding(crate::specs::Slot::empty_slot))]
pub fn slot_at(sheet: &[u8], node: usize) -> Slot
    ensures { result ≡ numbers_of (slot_at sheet.now node) }
{
    match start_in(sheet, node) {
        Some(start) => numbers_of(&sheet[start..start + layout::SLOT_SIZE]),
        None => numbers_of(&[0; layout::SLOT_SIZE]),
    }
}

// The bytes of a node's slot, and no byte where the bytes do not reach it.
#[tactic(auto, using(crate::proofs::SlotLaws::slot_at_slice), unfolding(crate::specs::Slot::slot_bytes_at))]
pub fn slot_bytes(sheet: &[u8], node: usize) -> &[u8]
    ensures { result.now ≡ slot_bytes_at sheet.now node }
{
    match start_in(sheet, node) {
        Some(start) => &sheet[start..start + layout::SLOT_SIZE],
        None => &[],
    }
}

// Where the slot of a node starts, if the bytes reach over it.
#[tactic(auto, using(crate::proofs::SlotLaws::slot_start_most), unfolding(crate::specs::Slot::reaches))]
pub(crate) fn start_in(sheet: &[u8], node: usize) -> Option<usize>
    ensures { MatchOption result (reaches sheet.now node ≡ false) (StartsAt sheet.now node) }
{
    if node >= layout::MOST_NODES {
        return None;
    }
    let start = slot_start(node);
    if sheet.len() < start + layout::SLOT_SIZE {
        return None;
    }
    Some(start)
}

// Where the slot of a node starts: behind the slots before it, and what else each whole block before it has.
#[tactic(auto, unfolding(crate::specs::Slot::slot_start))]
pub(crate) fn slot_start(node: usize) -> usize
    requires { node < most_nodes }
    ensures { result ≡ slot_start node }
{
    let block = node * SEVENTH / PARTS;
    layout::FIRST_SLOT + layout::SLOT_SIZE * node + BESIDE_SLOTS * block
}

fn numbers_of(slot: &[u8]) -> Slot
    requires { length slot.now ≡ slot_size }
    ensures { result ≡ numbers_of slot.now }
{
    Slot {
        physical: slot[layout::PHYSICAL],
        repetition: slot[layout::REPETITION],
        converted: slot[layout::CONVERTED],
        logical: slot[layout::LOGICAL],
        a: slot[layout::PARAMETER_A],
        b: slot[layout::PARAMETER_B],
        children: number16(slot, layout::CHILD_COUNT),
        type_length: signed32(slot, layout::TYPE_LENGTH),
        scale: signed32(slot, layout::SCALE),
        precision: signed32(slot, layout::PRECISION),
        name_length: slot[layout::NAME_LENGTH],
    }
}
