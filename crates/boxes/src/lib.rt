// Bounding boxes of points: made of a list of points, and asked whether a point is inside.
#![tactic(auto)]

mod bounding_box; // bounding_box.rt: a box, and the kinds and degrees that it may have
mod membership; // membership.rt: whether a point is inside
mod points; // points.rt: the box of a list of points
mod refusals; // refusals.rt: the refusals that boxes have

pub use bounding_box::BoundingBox;
pub use membership::contains;
pub use points::box_of;
