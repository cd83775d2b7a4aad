// What a program is given: the edition as its argument, its words one by one, and its input.
#![tactic(auto)]

mod arguments; // arguments.rt: the argument, and the edition that a text spells
mod input; // input.rt: a reader's bytes in lent room
mod words; // words.rt: the words that a program is run with

pub use arguments::{at, edition_of, given, given_by};
pub use input::read_full;
pub use words::{word, word_count};
