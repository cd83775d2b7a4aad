// A sheet's rows, or its refusal, as the text that document 01's program prints.
#![tactic(auto)]

mod answers; // answers.rt: what resolving answered, as text
mod rows; // rows.rt: rows as text
mod sheets; // sheets.rt: a sheet as text

pub use answers::answer_text;
pub use rows::rows_text;
pub use sheets::{MOST_NUMBERS, MOST_TEXT_BYTES, sheet_text};
