// The editions of the rules, and what each decides. No other crate compares an edition with a number.
#![tactic(auto)]

mod questions; // questions.rt: which editions are known, and a question for each thing that one decides

pub use questions::{FIRST, has_geospatial, int96_retired, is_known, scale_may_equal};
