// What reading a value answers, as text in a lent buffer.
//
// A function that is lent a position answers the position after its text. Where the text does not fit from its position on,
// nothing is written and the answer is one past the buffer's end, as in `text`.
#![tactic(auto)]

mod answers; // answers.rt: what reading answers
mod values; // values.rt: a value that was read

pub use answers::{LINE_ROOM, put_read, read_line};
