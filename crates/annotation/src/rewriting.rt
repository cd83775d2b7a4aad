// What the rewritten sheet says of a node.
ghost use Rattle.std.specs.Prelude.{ℕ, ◌≡◌};
ghost use Rattle.annotation.specs.Rewriting.{rewriting_of, outcome_of, outcome, written_of};
ghost use Rattle.annotation.specs.Steps.{written_by};

use crate::packed;
use crate::rules::{Broken, check};
use crate::slot::Annotated;

// The annotation numbers of a rewritten slot.
#[derive(Clone, Copy)]
pub struct Written {
    pub converted: u8,
    pub logical: u8,
    pub a: u8,
    pub b: u8,
}

// Every logical annotation with its parameters and its forward image, INTERVAL as converted alone, else none: what is
// written where the numbers of a slot resolve, or the first of the rules 9, 10 and 11 that they break. under_map is as for resolve.
pub fn rewrite(edition: u32, n: Annotated, under_map: bool) -> Result<Written, Broken>
    ensures value { result ≡ rewriting_of edition n under_map }
    ensures by_index { (k : ℕ) → outcome_of k result ≡ outcome edition k n under_map }
{
    let annotation = n.annotation(under_map);
    check(edition, annotation, n)?;
    Ok(written_as(annotation))
}

// What is written for the numbers of a slot, whatever else is wrong with them: none where they cannot be read.
pub fn written_of(n: Annotated, under_map: bool) -> Written
    ensures { result ≡ written_of n under_map }
{
    written_as(n.annotation(under_map))
}

// What is written for a packed annotation.
fn written_as(annotation: u64) -> Written
    ensures { result ≡ written_by annotation }
{
    Written {
        converted: packed::converted(annotation),
        logical: packed::logical(annotation),
        a: packed::a(annotation),
        b: packed::b(annotation),
    }
}
