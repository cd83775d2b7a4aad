// Whether a column type is lawful: whether the slot of such a leaf keeps the rules of an edition.
// Its codes stay numbers: a column type is five numbers from C that may be any.
ghost use Rattle.std.specs.Prelude.{◌≡◌, true, false, eqb, pos};
ghost use Rattle.parquet.specs.Logical.{DECIMAL};
ghost use Rattle.tree.specs.Rules.{length_shape};
ghost use Rattle.column_type.specs.Lawful.{is_leaf, slot_keeps, is_lawful, type_refusal, judgement_of};
ghost use Rattle.column_type.specs.Steps.{stands_on, slot_in};

use crate::types::ColumnType;
use annotation::{Annotated, INT32_DIGITS, INT64_DIGITS, fixed_holds, resolve, scale_allowed};
use edition::is_known;
use parquet::{converted, logical, physical};
use refusal::{Refusal, numbers, unknown_edition};

// How many numbers from 0 on a signed number of four bytes has.
const SIGNED_NUMBERS: u32 = 2147483648;

// The physical types that a DECIMAL stands on.
const INT32: u32 = physical::INT32 as u32;

const INT64: u32 = physical::INT64 as u32;

const BYTE_ARRAY: u32 = physical::BYTE_ARRAY as u32;

const FIXED_LEN_BYTE_ARRAY: u32 = physical::FIXED_LEN_BYTE_ARRAY as u32;

// Whether a column type is lawful, or the first of refusals 21 and 20.
#[tactic(auto, unfolding(crate::specs::Lawful::judgement_of))]
pub fn judge(edition: u32, c: ColumnType) -> Result<(), Refusal>
    ensures { result ≡ judgement_of edition c }
{
    if is_lawful(edition, c) {
        return Ok(());
    }
    Err(type_refusal(edition))
}

// Whether some sheet that the edition accepts has a leaf of this column type. An edition that is none accepts no sheet.
#[tactic(auto, unfolding(crate::specs::Lawful::is_lawful))]
pub fn is_lawful(edition: u32, c: ColumnType) -> bool
    ensures { result ≡ is_lawful edition c }
{
    if !is_known(edition) {
        return false;
    }
    if c.kind == logical::DECIMAL as u32 {
        return c.decimal_keeps(edition);
    }
    c.other_keeps(edition)
}

// What refuses a column type that is not lawful.
#[tactic(auto, unfolding(crate::specs::Lawful::type_refusal))]
pub fn type_refusal(edition: u32) -> Refusal
    ensures { result ≡ type_refusal edition }
{
    if is_known(edition) {
        return Refusal {
            number: numbers::UNKNOWN_TYPE,
            place: 0,
        };
    }
    unknown_edition()
}

impl ColumnType {
    // Judges a DECIMAL without its slot.
    fn decimal_keeps(self, edition: u32) -> bool
        requires { eqb self.kind DECIMAL ≡ true }
        ensures { result ≡ slot_keeps edition self }
    {
        self.p1 < SIGNED_NUMBERS
            && 1 <= self.p1
            && scale_allowed(edition, i64::from(self.p1), i64::from(self.p2))
            && self.decimal_stands()
    }

    // Whether a DECIMAL of its precision may stand on its physical type and length, by rules 8, 10 and 11.
    fn decimal_stands(self) -> bool
        ensures { result ≡ stands_on self.physical self.type_length self.p1 }
    {
        match self.physical {
            INT32 => self.type_length == 0 && self.p1 <= INT32_DIGITS,
            INT64 => self.type_length == 0 && self.p1 <= INT64_DIGITS,
            BYTE_ARRAY => self.type_length == 0,
            FIXED_LEN_BYTE_ARRAY => fixed_holds(self.type_length, self.p1),
            _ => false,
        }
    }

    // Judges any other kind by its slot, whose parent is no MAP.
    fn other_keeps(self, edition: u32) -> bool
        requires { eqb self.kind DECIMAL ≡ false }
        ensures { result ≡ slot_keeps edition self }
    {
        let Some(n) = self.slot() else {
            return false;
        };
        self.is_leaf() && self.length_right() && resolve(edition, n, false).is_ok()
    }

    // The physical codes of leaves are those up to FIXED_LEN_BYTE_ARRAY.
    fn is_leaf(self) -> bool
        ensures { result ≡ is_leaf self.physical }
    {
        self.physical <= FIXED_LEN_BYTE_ARRAY
    }

    // Rule 8: the type length is at least 1 for FIXED, 0 otherwise.
    #[tactic(auto, unfolding(tree::specs::Rules::length_shape, tree::specs::Rules::is_nought))]
    fn length_right(self) -> bool
        ensures { result ≡ length_shape self.physical (pos self.type_length) }
    {
        if self.physical == FIXED_LEN_BYTE_ARRAY {
            return 1 <= self.type_length;
        }
        self.type_length == 0
    }

    // The slot of its leaf, of any kind but DECIMAL, where each number fits its field.
    fn slot(self) -> Option<Annotated>
        requires { eqb self.kind DECIMAL ≡ false }
        ensures { result ≡ slot_in self }
    {
        let kind = u8::try_from(self.kind).ok()?;
        let (converted, logical) = if kind == converted::INTERVAL {
            (converted::INTERVAL, logical::NONE)
        } else {
            (converted::NONE, kind)
        };
        Some(Annotated {
            physical: u8::try_from(self.physical).ok()?,
            type_length: i32::try_from(self.type_length).ok()?,
            converted,
            logical,
            a: u8::try_from(self.p1).ok()?,
            b: u8::try_from(self.p2).ok()?,
            scale: 0,
            precision: 0,
        })
    }
}
