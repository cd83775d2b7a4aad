// Ordering two values of a column.
ghost use Rattle.std.specs.Prelude.{◌≡◌, false, Ok};
ghost use Rattle.refusal.specs.Faults.{FIRST as FIRST_SIDE, SECOND as SECOND_SIDE};
ghost use Rattle.column.specs.Lengths.{is_byte_decimal};
ghost use Rattle.column_order.specs.Keys.{key_of, key_order};
ghost use Rattle.column_order.specs.Order.{has_order, is_of_unknown_type, unless_refused, order_of};
ghost use Rattle.column_order.specs.Values.{BothRead};
ghost use Rattle.column_order.specs.Outcome.{outcome_of, outcome};

use crate::answer::{NO_ORDER, unlawful_type};
use crate::decimals::{is_byte_decimal, order_decimals};
use column::{Value, codes};
use column_type::ColumnType;
use float_order::Ordered;
use refusal::{FIRST, Fault, Refusal, SECOND, numbers};
use std::cmp::Ordering;

// The order of two values in a column of this type, by the rules of an edition.
pub fn order(edition: u32, c: ColumnType, a: &[u8], b: &[u8]) -> Result<Option<Ordering>, Fault>
    ensures value { result ≡ order_of edition c a.now b.now }
    ensures result_value { outcome_of result ≡ outcome edition c a.now b.now }
{
    if is_byte_decimal(c) {
        if !column_type::is_lawful(edition, c) {
            return Err(unlawful_type(edition));
        }
        return order_decimals(edition, c, a, b);
    }
    order_others(edition, c, a, b)
}

// The order of two values in a column of anything but decimals in bytes: 21 and 20, then 17, then what the values decide.
fn order_others(edition: u32, c: ColumnType, a: &[u8], b: &[u8]) -> Result<Option<Ordering>, Fault>
    requires { is_byte_decimal c ≡ false }
    ensures { result ≡ order_of edition c a.now b.now }
{
    let both = column::read_both(edition, c, a, b);
    let first = both.first;
    let second = both.second;
    if is_of_unknown_type(first) {
        return Err(unlawful_type(edition));
    }
    if !has_order(c) {
        return Err(NO_ORDER);
    }
    order_values(c, first, a, second, b)
}

// Whether a value is refused for its column type.
fn is_of_unknown_type(read: Result<Value, Refusal>) -> bool
    ensures { result ≡ is_of_unknown_type read }
{
    match read {
        Ok(_) => false,
        Err(refusal) => {
            (refusal.number == numbers::UNKNOWN_TYPE) | (refusal.number == numbers::UNKNOWN_EDITION)
        }
    }
}

// Whether the column has an order.
fn has_order(c: ColumnType) -> bool
    ensures { result ≡ has_order c }
{
    (c.physical != codes::INT96)
        & (c.kind != codes::INTERVAL)
        & (c.kind != codes::GEOMETRY)
        & (c.kind != codes::GEOGRAPHY)
}

// The refusal of the first of two values, or else that of the second, or else their order.
fn order_values(
    c: ColumnType,
    first: Result<Value, Refusal>,
    a: &[u8],
    second: Result<Value, Refusal>,
    b: &[u8],
) -> Result<Option<Ordering>, Fault>
    requires { BothRead c first second a.now b.now × (is_byte_decimal c ≡ false) }
    ensures { result ≡ unless_refused FIRST_SIDE first (unless_refused SECOND_SIDE second (Ok (key_order (key_of c a.now) (key_of c b.now)))) }
{
    let x = first.map_err(|refusal| Fault {
        side: FIRST,
        refusal,
    })?;
    let y = second.map_err(|refusal| Fault {
        side: SECOND,
        refusal,
    })?;
    Ok(order_read(c, x, a, y, b))
}

// The order of two values that were read. Those of two cases, which one column never has, are unordered.
fn order_read(c: ColumnType, x: Value, a: &[u8], y: Value, b: &[u8]) -> Option<Ordering>
    requires { BothRead c (Ok x) (Ok y) a.now b.now × (is_byte_decimal c ≡ false) }
    ensures { result ≡ key_order (key_of c a.now) (key_of c b.now) }
{
    match (x, y) {
        (Value::Truth(p), Value::Truth(q)) => Some(p.cmp(&q)),
        (Value::Signed(p), Value::Signed(q)) => Some(p.cmp(&q)),
        (Value::Unsigned(p), Value::Unsigned(q)) => Some(p.cmp(&q)),
        (Value::Float(p), Value::Float(q)) => p.order(q),
        (Value::Double(p), Value::Double(q)) => p.order(q),
        (
            Value::Bytes { start, len },
            Value::Bytes {
                start: from,
                len: count,
            },
        ) => {
            let first = &a[start..start + len];
            let second = &b[from..from + count];
            Some(first.cmp(&second))
        }
        _ => None,
    }
}
