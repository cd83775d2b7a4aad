// Values read and ordered in an edition, in a column of five numbers.
ghost use Rattle.std.specs.Prelude.{◌≡◌, [], ◌∷◌, length};
ghost use Rattle.c_answer.specs.Answers.{result as result_of, within, answer, left};
ghost use Rattle.c_values.specs.Values.{column_type, case_of, numbers_of, relation_number, reading, ordering};

use c_answer::{RESULT, faulted, packed, refused};
use column::Value;
use column_type::ColumnType;
use std::cmp::Ordering;
use std::num::{f32_to_bits_with_nan, f64_to_bits_with_nan};

// The cases of a value, in the numbers that C reads.
const TRUTH: u32 = 0;

const SIGNED: u32 = 1;

const UNSIGNED: u32 = 2;

const FLOAT: u32 = 3;

const DOUBLE: u32 = 4;

const BYTES: u32 = 5;

// The first value against the second.
const LESS: u32 = 0;

const EQUAL: u32 = 1;

const GREATER: u32 = 2;

const UNORDERED: u32 = 3;

// A value's case, and the two numbers that are written of it.
#[derive(Clone, Copy)]
struct ValueNumbers {
    case: u32,
    numbers: [u64; 2],
}

// Reads a value. The value of the answer is its case: 0 truth, 1 signed whole, 2 unsigned whole, 3 FLOAT, 4 DOUBLE, 5 bytes.
// Two numbers are written: its bits and 0, or start and length.
pub fn read(
    edition: u32,
    physical: u32,
    type_length: u32,
    kind: u32,
    p1: u32,
    p2: u32,
    value: &[u8],
    out: &mut [u64],
) -> u64
    ensures value { result ≡ answer (reading edition (column_type physical type_length kind p1 p2) value.now (length out.old)) }
    ensures out_after { out.new ≡ left (reading edition (column_type physical type_length kind p1 p2) value.now (length out.old)) out.old }
{
    let read = column::read(
        edition,
        ColumnType {
            physical,
            type_length,
            kind,
            p1,
            p2,
        },
        value,
    );
    match read {
        Ok(v) => write_value(v, out),
        Err(r) => refused(r),
    }
}

// Orders two values. The value of the answer is 0 less, 1 equal, 2 greater or 3 unordered. A refusal has besides the value at
// fault: 1 or 2, and 0 for neither.
pub fn order(
    edition: u32,
    physical: u32,
    type_length: u32,
    kind: u32,
    p1: u32,
    p2: u32,
    a: &[u8],
    b: &[u8],
) -> u64
    ensures { result ≡ ordering edition (column_type physical type_length kind p1 p2) a.now b.now }
{
    let order = column_order::order(
        edition,
        ColumnType {
            physical,
            type_length,
            kind,
            p1,
            p2,
        },
        a,
        b,
    );
    match order {
        Ok(r) => packed(RESULT, relation(r)),
        Err(fault) => faulted(fault),
    }
}

// The number of how two values stand.
fn relation(relation: Option<Ordering>) -> u32
    ensures { result ≡ relation_number relation }
{
    match relation {
        Some(Ordering::Less) => LESS,
        Some(Ordering::Equal) => EQUAL,
        Some(Ordering::Greater) => GREATER,
        None => UNORDERED,
    }
}

// Writes a value that was read, where its numbers fit.
fn write_value(v: Value, out: &mut [u64]) -> u64
    ensures value { result ≡ answer (within (length out.old) (result_of (case_of v) (numbers_of v))) }
    ensures out_after { out.new ≡ left (within (length out.old) (result_of (case_of v) (numbers_of v))) out.old }
{
    let w = numbers(v);
    c_answer::write(w.case, w.numbers, out)
}

// What is written of a value. A NaN is the quiet one with no other bit set.
fn numbers(v: Value) -> ValueNumbers
    ensures { (result.case ≡ case_of v) × (result.numbers ≡ numbers_of v) }
{
    match v {
        Value::Truth(p) => bits(TRUTH, p as u64),
        Value::Signed(x) => bits(SIGNED, x.cast_unsigned()),
        Value::Unsigned(n) => bits(UNSIGNED, n),
        Value::Float(x) => bits(FLOAT, u64::from(f32_to_bits_with_nan(x))),
        Value::Double(x) => bits(DOUBLE, f64_to_bits_with_nan(x)),
        Value::Bytes { start, len } => ValueNumbers {
            case: BYTES,
            numbers: [start as u64, len as u64],
        },
    }
}

// A value's bits, and 0 behind them.
fn bits(case: u32, n: u64) -> ValueNumbers
    ensures { (result.case ≡ case) × (result.numbers ≡ n ∷ 0 ∷ []) }
{
    ValueNumbers {
        case,
        numbers: [n, 0],
    }
}
