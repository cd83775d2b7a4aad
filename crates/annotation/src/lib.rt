// Annotations of one schema node: what its converted and logical types mean, and where they may stand.
//
// A slot is document 01's word for the bytes of one node of a sheet. Nothing here knows bytes or trees: `Annotated` has the
// numbers of a slot that say its type.
#![tactic(auto)]

mod agreement; // rule 9: converted and logical agree
mod conversion; // what a converted type that stands alone means
mod decimals; // rule 11: precision and scale
mod packed; // an annotation with the physical type that it demands, as one number
mod pairs; // parameters a and b as one number
mod placement; // rule 10 of the annotations that have a rule of their own
mod resolution; // the outcome, and the kind
mod rewriting; // what the rewritten sheet annotation of a node
mod rules; // rules 9, 10 and 11 in order
mod slot; // the numbers of a slot that say its type, and what its annotations mean
mod spelling; // how a logical code is read with its parameters

pub use decimals::{INT32_DIGITS, INT64_DIGITS, fixed_holds, scale_allowed};
pub use resolution::{Judged, Kind, judge, resolve, resolved_kind};
pub use rewriting::{Written, rewrite, written_of};
pub use rules::Broken;
pub use slot::{Annotated, type_length};
