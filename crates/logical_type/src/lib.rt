// Logical types with their parameters: what contracts name, and the codes of the parameters.
#![tactic(auto)]

pub mod parameters; // codes of the parameters of logical types
mod types; // logical types with their parameters

pub use types::{Annotation, BitWidth, EdgeRule, LogicalType, Spelling, TimeUnit};
