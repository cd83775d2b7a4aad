// Which values keep the annotation of their column.
ghost use Rattle.std.specs.Prelude.{◌≡◌, true, cond, eqb, length};
ghost use Rattle.decimal_bytes.specs.Precision.{is_length};
ghost use Rattle.decimal_bytes.specs.Number.{number};
ghost use Rattle.timestamp.specs.Units.{unit_of};
ghost use Rattle.column.specs.Annotations.{UNSIGNED, is_unsigned, is_text, in_bits, in_signed_bits, in_day, in_digits, whole_keeps};

use crate::codes;
use crate::numbers::{in_bits, in_signed_bits};
use column_type::ColumnType;
use decimal_bytes::is_below_power;

// Whether the column's values are INT(n, false).
pub(crate) fn is_unsigned(c: ColumnType) -> bool
    ensures { result ≡ is_unsigned c }
{
    c.kind == codes::INTEGER && c.p2 == codes::UNSIGNED
}

// Whether a whole number keeps the column's annotation: `n` without its sign, and `z` with it.
#[tactic(auto, unfolding(crate::specs::Annotations::whole_keeps))]
pub(crate) fn whole_keeps(c: ColumnType, n: u64, z: i64) -> bool
    ensures { result ≡ whole_keeps c n z }
{
    match c.kind {
        codes::INTEGER => integer_keeps(c, n, z),
        codes::TIME => in_day(z, c.p1),
        codes::DECIMAL => is_below_power(z.unsigned_abs(), c.p1),
        _ => true,
    }
}

// Whether an INT stays within its width.
fn integer_keeps(c: ColumnType, n: u64, z: i64) -> bool
    ensures { result ≡ cond (eqb c.p2 UNSIGNED) (in_bits c.p1 n) (in_signed_bits c.p1 z) }
{
    if c.p2 == codes::UNSIGNED {
        in_bits(n, c.p1)
    } else {
        in_signed_bits(z, c.p1)
    }
}

// Whether the signed number is a tick of a day, in the unit of that number.
fn in_day(z: i64, unit: u32) -> bool
    ensures { result ≡ in_day (unit_of unit) z }
{
    if z < 0 {
        return false;
    }
    timestamp::in_day(unit, z.unsigned_abs()).unwrap_or(false)
}

// Whether a decimal keeps to its precision.
pub(crate) fn decimal_keeps(value: &[u8], precision: u32) -> bool
    requires { is_length (length value.now) ≡ true }
    ensures { result ≡ in_digits precision (number value.now) }
{
    decimal::fits_precision(value, precision).unwrap_or(false)
}

// Whether values of this kind are text.
pub(crate) fn is_text(kind: u32) -> bool
    ensures { result ≡ is_text kind }
{
    matches!(kind, codes::STRING | codes::ENUM | codes::JSON)
}
