// A sheet's slots and refusals 21 and 1 to 4, as text in a lent buffer.
//
// A function that is lent a position answers the position after its text. Where the text does not fit from its position on,
// nothing is written and the answer is one past the buffer's end, as in `text`.
#![tactic(auto)]

mod opened; // opened.rt: what opening answers
mod slots; // slots.rt: a slot's numbers, and where its name stands

pub use opened::{put_opened, refusal_line};
pub use slots::{LINE_ROOM, put_slot, put_stretch, slot_line};
