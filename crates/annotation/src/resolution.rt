// The outcome of the numbers of a slot: their kind as rows have it, or the first of the rules 9, 10 and 11 that they break.
ghost use Rattle.std.specs.Prelude.{ℕ, ◌≡◌};
ghost use Rattle.std.specs.Result.{result_err};
ghost use Rattle.annotation.specs.Kinds.{kind_of, bare_kind, plain_kind, decimal_kind};
ghost use Rattle.annotation.specs.Outcome.{resolution_of, outcome_of, outcome};
ghost use Rattle.annotation.specs.Rewriting.{written_of};
ghost use Rattle.annotation.specs.Steps.{kind_by, lone_kind, logical_kind_by};

use crate::packed;
use crate::rules::{Broken, check, check_plain, stands};
use crate::slot::{Annotated, natural};
use parquet::{converted, logical, physical};

// A kind and its parameters, as a row has them: precision and scale, or a and b, else 0. They are numbers, as C reads them there.
#[derive(Clone, Copy)]
pub struct Kind {
    pub kind: u32,
    pub p1: u32,
    pub p2: u32,
}

// What judging the numbers of a slot finds: the first rule that they break, or none where they resolve; and the logical type that
// they say, whatever else is wrong with them.
#[derive(Clone, Copy)]
pub struct Judged {
    pub refusal: Option<Broken>,
    pub logical: u8,
}

// The kinds of nodes without annotation: numbers of a row, as C reads them.
const PLAIN_LEAF: u32 = 0;

const PLAIN_GROUP: u32 = 30;

// Resolves the numbers of a slot by an edition, which may be any number: their kind, or the first of the rules 9, 10 and 11 that they
// break. under_map says that the parent's resolved kind is MAP. Codes outside the lists are refused like parameters that a type does
// not take: beside the other annotation by 9, alone by 10.
pub fn resolve(edition: u32, n: Annotated, under_map: bool) -> Result<Kind, Broken>
    ensures value { result ≡ resolution_of edition n under_map }
    ensures by_index { (k : ℕ) → outcome_of k result ≡ outcome edition k n under_map }
{
    let annotation = n.annotation(under_map);
    check(edition, annotation, n)?;
    Ok(kind_as(annotation, n))
}

// The kind that the numbers of a slot say, whatever else is wrong with them: that of no annotation where they cannot be read.
pub fn resolved_kind(n: Annotated, under_map: bool) -> Kind
    ensures { result ≡ kind_of n under_map }
{
    if n.is_plain() {
        return plain_kind(n.physical);
    }
    kind_as(n.annotation(under_map), n)
}

// Judges the numbers of a slot.
pub fn judge(edition: u32, n: Annotated, under_map: bool) -> Judged
    ensures refusal_value { result.refusal ≡ result_err (resolution_of edition n under_map) }
    ensures logical_value { result.logical ≡ (written_of n under_map).logical }
{
    if n.is_plain() {
        return Judged {
            refusal: check_plain(edition, n.physical).err(),
            logical: logical::NONE,
        };
    }
    let annotation = n.annotation(under_map);
    let logical = packed::logical(annotation);
    if stands(annotation, n.physical as u64) {
        return Judged {
            refusal: None,
            logical,
        };
    }
    Judged {
        refusal: check(edition, annotation, n).err(),
        logical,
    }
}

// The kind of a node by its packed annotation.
#[tactic(auto, unfolding(crate::specs::Steps::kind_by))]
fn kind_as(annotation: u64, n: Annotated) -> Kind
    ensures { result ≡ kind_by annotation n }
{
    let logical = packed::logical(annotation);
    if logical == logical::NONE {
        return lone_kind(packed::converted(annotation), n.physical);
    }
    if logical == logical::DECIMAL {
        return decimal_kind(n);
    }
    logical_kind(annotation)
}

// The kind of a node without logical type.
fn lone_kind(converted: u8, physical: u8) -> Kind
    ensures { result ≡ lone_kind converted physical }
{
    if converted == converted::INTERVAL {
        return bare_kind(converted::INTERVAL as u32);
    }
    plain_kind(physical)
}

fn plain_kind(physical: u8) -> Kind
    ensures { result ≡ plain_kind physical }
{
    if physical == physical::GROUP {
        bare_kind(PLAIN_GROUP)
    } else {
        bare_kind(PLAIN_LEAF)
    }
}

fn decimal_kind(n: Annotated) -> Kind
    ensures { result ≡ decimal_kind n }
{
    Kind {
        kind: logical::DECIMAL as u32,
        p1: natural(n.precision),
        p2: natural(n.scale),
    }
}

fn logical_kind(annotation: u64) -> Kind
    ensures { result ≡ logical_kind_by annotation }
{
    Kind {
        kind: packed::logical(annotation) as u32,
        p1: packed::a(annotation) as u32,
        p2: packed::b(annotation) as u32,
    }
}

// A kind without parameters.
fn bare_kind(kind: u32) -> Kind
    ensures { result ≡ bare_kind kind }
{
    Kind { kind, p1: 0, p2: 0 }
}
