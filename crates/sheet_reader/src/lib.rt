// A reader over a lent sheet: it hands out the sheet's slots, one a step, and then the end.
#![tactic(auto)]

mod stepping; // stepping.rt: what stands at a node, and the node after it, on plain parameters
mod reading; // reading.rt: the reader, which holds the sheet and its next node

pub use reading::{Reader, next, open, slot_after};
pub use stepping::{node_after, step_at};
