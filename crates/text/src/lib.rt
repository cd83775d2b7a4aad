// Text in a lent buffer: bytes, numbers, lines of numbers and refusals, each stored whole at a position.
//
// A function answers the position after its text. Where the text does not fit from its position on, nothing is written and
// the answer is one past the buffer's end, where nothing fits: so a caller may store text after text and test the last answer.
// An `Option` of the position would be no plainer: each text would be tested before the next, also where it is known to fit.
// Nor would a struct of the buffer and the position: each method would promise besides that the buffer is the one that was lent.
#![tactic(auto)]

mod lines; // lines.rt: numbers on a line
mod numbers; // numbers.rt: numbers in decimal and hexadecimal digits
mod placing; // placing.rt: bytes at a position
mod refusals; // refusals.rt: numbered refusals

pub use lines::{after_line, put_line};
pub use numbers::{put_decimal, put_hex32, put_hex64, put_signed};
pub use placing::{after, put};
pub use refusals::{REFUSAL_ROOM, put_refusal};
