// Reading one value of a column.
ghost use Rattle.std.specs.Prelude.{◌≡◌, true, false, eqb, length};
ghost use Rattle.decimal_bytes.specs.Precision.{is_length};
ghost use Rattle.decimal_bytes.specs.Number.{number};
ghost use Rattle.utf8.specs.Valid.{valid_up_to};
ghost use Rattle.parquet.specs.Logical.{DECIMAL, UNKNOWN};
ghost use Rattle.column.specs.Lengths.{length_right};
ghost use Rattle.column.specs.Annotations.{is_truth, in_digits, whole_keeps, bytes_keep, text_place, annotation_place, keeps};
ghost use Rattle.column.specs.Reading.{whole_value, value_of, checked, read_of, both_of, read_lawful};
ghost use Rattle.column.specs.Outcome.{outcome_of, outcome};

use crate::annotations::{decimal_keeps, is_text, is_unsigned, whole_keeps};
use crate::lengths::{is_byte_form, length_right};
use crate::numbers::little;
use crate::refusals::breaks_annotation_at;
use crate::value::{Both, Value};
use crate::{codes, refusals};
use column_type::{ColumnType, type_refusal};
use refusal::Refusal;
use std::num::{f32_from_bits_with_nan, f64_from_bits_with_nan};

// The value that the bytes are in a column of this type, or the first refusal that holds in the edition.
pub fn read(edition: u32, c: ColumnType, value: &[u8]) -> Result<Value, Refusal>
    ensures value { result ≡ read_of edition c value.now }
    ensures result_value { outcome_of result ≡ outcome edition c value.now }
{
    if !column_type::is_lawful(edition, c) {
        return Err(type_refusal(edition));
    }
    read_lawful(c, value)
}

// Two values of one column type, each as `read` answers it, behind one check of the column type.
pub fn read_both(edition: u32, c: ColumnType, a: &[u8], b: &[u8]) -> Both
    ensures value { result ≡ both_of edition c a.now b.now }
    ensures first_value { outcome_of result.first ≡ outcome edition c a.now }
    ensures second_value { outcome_of result.second ≡ outcome edition c b.now }
{
    if !column_type::is_lawful(edition, c) {
        let refusal = type_refusal(edition);
        return Both {
            first: Err(refusal),
            second: Err(refusal),
        };
    }
    let first = read_lawful(c, a);
    let second = read_lawful(c, b);
    Both { first, second }
}

// A value behind the check of the column type: 15, then 16.
fn read_lawful(c: ColumnType, value: &[u8]) -> Result<Value, Refusal>
    ensures { result ≡ read_lawful c value.now }
{
    if !length_right(c, value.len()) {
        return Err(refusals::WRONG_LENGTH);
    }
    if c.kind == codes::UNKNOWN {
        return Err(refusals::BREAKS_ANNOTATION);
    }
    read_present(c, value)
}

// Reads bytes of a right length, under any kind but UNKNOWN.
fn read_present(c: ColumnType, value: &[u8]) -> Result<Value, Refusal>
    requires { (length_right c (length value.now) ≡ true) × (eqb c.kind UNKNOWN ≡ false) }
    ensures { result ≡ checked (keeps c value.now) (annotation_place c value.now) (value_of c value.now) }
{
    if is_byte_form(c) {
        return read_bytes(c, value);
    }
    match c.physical {
        codes::BOOLEAN => read_truth(little(value)),
        codes::INT32 => {
            let n = little(value) as u32;
            read_whole(c, u64::from(n), i64::from(n.cast_signed()))
        }
        codes::INT64 => {
            let n = little(value);
            read_whole(c, n, n.cast_signed())
        }
        codes::FLOAT => Ok(Value::Float(f32_from_bits_with_nan(little(value) as u32))),
        codes::DOUBLE => Ok(Value::Double(f64_from_bits_with_nan(little(value)))),
        _ => Ok(stretch(value.len())),
    }
}

// Reads a byte form: a decimal is held to its precision, and text to UTF-8.
fn read_bytes(c: ColumnType, value: &[u8]) -> Result<Value, Refusal>
    requires { (eqb c.kind DECIMAL ≡ true) → is_length (length value.now) ≡ true }
    ensures { result ≡ checked (bytes_keep c value.now) (text_place c.kind value.now) (Value.Bytes 0 (length value.now)) }
{
    if c.kind == codes::DECIMAL {
        return read_decimal(value, c.p1);
    }
    if is_text(c.kind) {
        return read_text(value);
    }
    Ok(stretch(value.len()))
}

// A decimal, which has 1 to 256 bytes.
fn read_decimal(value: &[u8], precision: u32) -> Result<Value, Refusal>
    requires { is_length (length value.now) ≡ true }
    ensures { result ≡ checked (in_digits precision (number value.now)) 0 (Value.Bytes 0 (length value.now)) }
{
    if !decimal_keeps(value, precision) {
        return Err(refusals::BREAKS_ANNOTATION);
    }
    Ok(stretch(value.len()))
}

// Text, which is refused at the byte where whole sequences stop short of its end.
fn read_text(value: &[u8]) -> Result<Value, Refusal>
    ensures { result ≡ checked (eqb (valid_up_to value.now) (length value.now)) (valid_up_to value.now) (Value.Bytes 0 (length value.now)) }
{
    let stop = utf8::valid_up_to(value);
    if stop != value.len() {
        return Err(breaks_annotation_at(stop));
    }
    Ok(stretch(value.len()))
}

// A truth value: 0 or 1.
fn read_truth(n: u64) -> Result<Value, Refusal>
    ensures { result ≡ checked (is_truth n) 0 (Value.Truth (eqb n 1)) }
{
    if n > 1 {
        return Err(refusals::BREAKS_ANNOTATION);
    }
    Ok(Value::Truth(n == 1))
}

// A whole number: `n` without its sign, and `z` with it.
fn read_whole(c: ColumnType, n: u64, z: i64) -> Result<Value, Refusal>
    ensures { result ≡ checked (whole_keeps c n z) 0 (whole_value c n z) }
{
    if !whole_keeps(c, n, z) {
        return Err(refusals::BREAKS_ANNOTATION);
    }
    if is_unsigned(c) {
        return Ok(Value::Unsigned(n));
    }
    Ok(Value::Signed(z))
}

// All of so many bytes.
fn stretch(len: usize) -> Value
    ensures { result ≡ Value.Bytes 0 len }
{
    Value::Bytes { start: 0, len }
}
