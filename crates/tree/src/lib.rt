// The tree of a sheet, judged by refusals 5 to 13 behind 21 and 1 to 4.
#![tactic(auto)]

mod faults; // faults.rt: the least rule that a node breaks
mod judgement; // judgement.rt: a sheet judged by refusals 21 and 1 to 13
mod judging; // judging.rt: a tree and its run judged, too deep or at fault
mod layer; // layer.rt: what a LIST's repeated group is
mod node; // node.rt: a node of a sheet whose slots claim rightly
mod places; // places.rt: refusals 5 and 6
mod repetitions; // repetitions.rt: repetitions that rules 12 and 13 ask for
mod shape; // shape.rt: rule 8
mod slots; // slots.rt: a slot's numbers, as its annotations are judged by
mod standing; // standing.rt: where a node stands for the rules
mod structure; // structure.rt: rules 12 and 13

pub use judgement::judge;
pub use judging::ALLOWED_DEPTHS;
pub use layer::{Layer, layer_of};
pub use slots::annotated;
pub use standing::Standing;
pub use structure::named_element;
