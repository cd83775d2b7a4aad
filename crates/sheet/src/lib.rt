// The sheet: bytes are sound blocks and slots, or the one refusal of 1 to 4 that document 01 names.
#![tactic(auto)]

mod layout; // layout.rt: where each field of a block and of a slot lies
mod number; // number.rt: little-endian numbers in bytes
mod block; // block.rt: whether a block's check and header are right
mod slots; // slots.rt: a node's slot and its numbers
mod soundness; // soundness.rt: which slots are sound
mod names; // names.rt: a node's name, and names compared
mod opening; // opening.rt: a sheet's nodes, or the refusal
mod writing; // writing.rt: other annotations in a slot, and the checks

pub use layout::{MOST_BYTES, MOST_NODES, SLOT_SIZE};
pub use names::{Stretch, name_is, name_is_with, name_of, name_stretch};
pub use opening::open;
pub use slots::{Slot, slot_at, slot_bytes};
pub use writing::{renew_checks, write_annotation};
