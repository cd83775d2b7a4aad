// The C library: every entry under a plain name, with a pointer and a length for each slice and one number for an answer. What an entry
// does stands in the crate of its family: `c_sheets`, `c_values`, `c_timestamps`, `c_boxes`.
#![tactic(auto)]

mod exports; // exports.rt: the entries

pub use exports::{
    griffeljol_box, griffeljol_compare, griffeljol_decode, griffeljol_encode,
    griffeljol_from_int96, griffeljol_inside, griffeljol_order, griffeljol_read,
    griffeljol_resolve, griffeljol_rewrite, griffeljol_to_int96,
};
