// What every entry answers where it gives no result: a numbered refusal and its place. Each number stands once here, and once in `specs/`.
#![tactic(auto)]

pub mod numbers; // numbers.rt: the refusals' numbers
mod answers; // answers.rt: a refusal, and the answers that several crates give

pub use answers::{FIRST, Fault, NEITHER, Refusal, SECOND, short_output, unknown_edition};
