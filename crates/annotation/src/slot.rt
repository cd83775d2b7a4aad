// The numbers of a slot that say its type, and what its annotations mean.
ghost use Rattle.std.specs.Prelude.{◌≡◌};
ghost use Rattle.parquet.specs.Logical.{NONE};
ghost use Rattle.annotation.specs.Signed.{natural};
ghost use Rattle.annotation.specs.Meaning.{converted_alone};
ghost use Rattle.annotation.specs.Pairs.{pair_a, pair_b};
ghost use Rattle.annotation.specs.Packed.{packed_of};
ghost use Rattle.annotation.specs.Steps.{is_plain, annotated_by, reading_of};

use crate::agreement::agreed;
use crate::conversion::backward_of;
use crate::pairs::paired;
use crate::spelling::stated_of;
use crate::{packed, pairs};
use logical_type::parameters;
use parquet::{converted, logical};

// Physical GROUP is a group, converted NONE and logical NONE are no annotation; any other number may stand in a field.
#[derive(Clone, Copy)]
pub struct Annotated {
    pub physical: u8,
    pub type_length: i32,
    pub converted: u8,
    pub logical: u8,
    pub a: u8,
    pub b: u8,
    pub scale: i32,
    pub precision: i32,
}

impl Annotated {
    // Whether no annotation stands, and no parameter. Most slots are told by the first test.
    #[tactic(auto, unfolding(crate::specs::Steps::is_plain))]
    pub(crate) fn is_plain(self) -> bool
        ensures { result ≡ is_plain self }
    {
        self.converted == converted::NONE
            && self.logical == logical::NONE
            && self.a == parameters::UNUSED
            && self.b == parameters::UNUSED
    }

    // The packed annotation of the logical type where one stands, marked where rule 9 does not hold, else of what the converted type means.
    // under_map says that the parent's resolved kind is MAP, where MAP_KEY_VALUE counts as no annotation.
    #[inline(always)]
    pub(crate) fn annotation(self, under_map: bool) -> u64
        ensures { result ≡ reading_of self under_map }
    {
        annotation_of(self.converted, self.logical, self.a, self.b, under_map)
    }
}

// The same by the four numbers. Handed on as a struct they would go through memory: tried, 20 instructions a node more in resolving
// flat columns, 402 where at most 400 are to be.
#[inline(never)]
fn annotation_of(converted: u8, logical: u8, a: u8, b: u8, under_map: bool) -> u64
    ensures { result ≡ reading_of (annotated_by converted logical a b) under_map }
{
    let pair = paired(a, b);
    if logical == logical::NONE {
        return converted_alone(converted, pair, under_map);
    }
    agreed(stated_of(logical, pair), converted)
}

// Where no logical type stands there are no parameters either.
fn converted_alone(converted: u8, pair: u32, under_map: bool) -> u64
    ensures { result ≡ packed_of (converted_alone (annotated_by converted NONE (pair_a pair) (pair_b pair)) under_map) }
{
    if pair == pairs::NO_PAIR {
        return backward_of(converted, under_map);
    }
    packed::UNREADABLE
}

// The type length as a natural number, 0 where it is negative.
pub fn type_length(n: Annotated) -> u32
    ensures { result ≡ natural n.type_length }
{
    natural(n.type_length)
}

// A signed number as a natural number, 0 where it is negative: the library's conversion, with the one clause that its callers cite.
pub(crate) fn natural(x: i32) -> u32
    ensures { result ≡ natural x }
{
    u32::try_from(x).unwrap_or(0)
}
