// Column types: which of them a leaf of an accepted sheet has, by edition.
#![tactic(auto)]

mod lawful; // lawful.rt: whether a column type is lawful
mod types; // types.rt: the column type

pub use lawful::{is_lawful, judge, type_refusal};
pub use types::ColumnType;
