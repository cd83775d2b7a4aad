// Calls of the C interface on boxes.
#![tactic(auto)]

mod bounding_boxes; // bounding_boxes.rt: the box of points, and whether a point is inside a box

pub use bounding_boxes::{box_of, inside};
