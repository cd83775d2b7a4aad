// What a sheet is resolved into: the rows of its tree, and the rewritten sheet.
#![tactic(auto)]

mod levels; // levels.rt: what a node adds to the levels
mod rewriting; // rewriting.rt: the rewritten sheet, or the refusal
mod resolving; // resolving.rt: a sheet's rows, or the refusal
mod roles; // roles.rt: the role of a node
mod rows; // rows.rt: the rows of a tree and its run

pub use resolving::resolve;
pub use rewriting::rewrite;
pub use rows::ROW_WIDTH;
