// The order of decimals in bytes, whose refusals and numbers are judged together.
ghost use Rattle.std.specs.Prelude.{◌≡◌, true, None, Ok};
ghost use Rattle.refusal.specs.Faults.{FIRST as FIRST_SIDE, SECOND as SECOND_SIDE};
ghost use Rattle.column_type.specs.Lawful.{is_lawful};
ghost use Rattle.column.specs.Lengths.{is_width, width_of, is_byte_decimal};
ghost use Rattle.column.specs.Reading.{read_of};
ghost use Rattle.column_order.specs.Order.{unless_refused, order_of};

use column::codes;
use column_type::ColumnType;
use refusal::{FIRST, Fault, SECOND};
use std::cmp::Ordering;

// Whether the column holds decimals in bytes.
pub(crate) fn is_byte_decimal(c: ColumnType) -> bool
    ensures { result ≡ is_byte_decimal c }
{
    ((c.physical == codes::BYTE_ARRAY) | (c.physical == codes::FIXED_LEN_BYTE_ARRAY))
        & (c.kind == codes::DECIMAL)
}

// The order of two values in a lawful column of decimals in bytes, which has one. Where the two are not ordered, one is refused.
pub(crate) fn order_decimals(
    edition: u32,
    c: ColumnType,
    a: &[u8],
    b: &[u8],
) -> Result<Option<Ordering>, Fault>
    requires { (is_lawful edition c ≡ true) × (is_byte_decimal c ≡ true) }
    ensures { result ≡ order_of edition c a.now b.now }
{
    if is_width(c, a.len())
        && is_width(c, b.len())
        && let Ok(order) = decimal::compare_within(a, b, c.p1)
    {
        return Ok(Some(order));
    }
    refused(edition, c, a, b)
}

// Whether so many bytes are the width of the column's decimals in bytes, where it has one.
fn is_width(c: ColumnType, n: usize) -> bool
    requires { is_byte_decimal c ≡ true }
    ensures { result ≡ is_width (width_of c) n }
{
    (c.physical != codes::FIXED_LEN_BYTE_ARRAY) | (n == c.type_length as usize)
}

// The refusal of the first of two values, or else that of the second.
fn refused(edition: u32, c: ColumnType, a: &[u8], b: &[u8]) -> Result<Option<Ordering>, Fault>
    ensures { result ≡ unless_refused FIRST_SIDE (read_of edition c a.now) (unless_refused SECOND_SIDE (read_of edition c b.now) (Ok None)) }
{
    let both = column::read_both(edition, c, a, b);
    both.first.map_err(|refusal| Fault {
        side: FIRST,
        refusal,
    })?;
    both.second.map_err(|refusal| Fault {
        side: SECOND,
        refusal,
    })?;
    Ok(None)
}
