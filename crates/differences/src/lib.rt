// The list of differences of two sheets: of each node and each slot field in which they differ, with both contents.
#![tactic(auto)]

mod comparison; // comparison.rt: two sheets compared
mod entries; // entries.rt: an entry put into the output
mod fields; // fields.rt: the fields of two matched nodes' slots, and their places
mod marks; // marks.rt: which nodes of the second sheet are matched
mod nodes; // nodes.rt: the entries of the nodes of both sheets

pub use comparison::compare;
pub use entries::ENTRY_SIZE;
