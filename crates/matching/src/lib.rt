// Which nodes of two sheets match: the roots, and the fields of matched nodes by name, of one name the first with the first, and so on.
#![tactic(auto)]

mod candidates; // candidates.rt: of a node's fields the first that a field of the other sheet may take
mod ends; // ends.rt: where the tree of each node ends
mod fields; // fields.rt: the fields of two matched nodes matched
mod heads; // heads.rt: an index over the fields of a node
mod prints; // prints.rt: a number of each node's name, by which unlike names are told apart
mod sheets; // sheets.rt: two sheets judged, and their nodes matched
mod sides; // sides.rt: a sheet with what is found of its nodes

pub use fields::Match;
pub use sheets::{Matching, Totals, match_sheets};
