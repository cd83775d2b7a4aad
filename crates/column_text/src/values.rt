// A value that was read, as text.
ghost use Rattle.std.specs.Prelude.{◌≡◌, cond, ◌++◌, ◌≤◌, length, take};
ghost use Rattle.std.specs.Float.{binary32, binary64};
ghost use Rattle.io.specs.Counts.{IsPrefixLen};
ghost use Rattle.text.specs.Characters.{ascii};
ghost use Rattle.column_text.specs.Values.{float_text, stretch_text, value_text, most_value_bytes};

use column::Value;

// Room for any value: `bytes ` and two numbers of 64 bits.
pub(crate) const VALUE_ROOM: usize = 47;

// Makes the text of a value at the start of a room, and answers how many bytes it takes.
pub(crate) fn make_value(v: Value, room: &mut [u8; VALUE_ROOM]) -> usize
    ensures prefix_len { IsPrefixLen result room.new }
    ensures room_after { take result room.new ≡ value_text v }
    ensures upper_bound { result ≤ most_value_bytes }
{
    match v {
        Value::Truth(p) => make_truth(p, room),
        Value::Signed(z) => text::put_signed(room, 0, z),
        Value::Unsigned(n) => text::put_decimal(room, 0, n),
        Value::Float(x) => make_float(x, room),
        Value::Double(x) => make_double(x, room),
        Value::Bytes { start, len } => make_stretch(start, len, room),
    }
}

fn make_truth(p: bool, room: &mut [u8; VALUE_ROOM]) -> usize
    ensures prefix_len { IsPrefixLen result room.new }
    ensures room_after { take result room.new ≡ cond p (ascii "true") (ascii "false") }
    ensures upper_bound { result ≤ most_value_bytes }
{
    if p {
        return text::put(room, 0, b"true");
    }
    text::put(room, 0, b"false")
}

// A float's bits tell each number from every other; those of a NaN are not kept.
fn make_float(x: f32, room: &mut [u8; VALUE_ROOM]) -> usize
    ensures prefix_len { IsPrefixLen result room.new }
    ensures room_after { take result room.new ≡ ascii "float " ++ float_text binary32 x }
    ensures upper_bound { result ≤ most_value_bytes }
{
    let word = text::put(room, 0, b"float ");
    if x.is_nan() {
        return text::put(room, word, b"NaN");
    }
    text::put_hex32(room, word, x.to_bits())
}

// The library has no trait over `f32` and `f64` with their bits: one function for both would need two more, which give it these.
fn make_double(x: f64, room: &mut [u8; VALUE_ROOM]) -> usize
    ensures prefix_len { IsPrefixLen result room.new }
    ensures room_after { take result room.new ≡ ascii "double " ++ float_text binary64 x }
    ensures upper_bound { result ≤ most_value_bytes }
{
    let word = text::put(room, 0, b"double ");
    if x.is_nan() {
        return text::put(room, word, b"NaN");
    }
    text::put_hex64(room, word, x.to_bits())
}

fn make_stretch(start: usize, len: usize, room: &mut [u8; VALUE_ROOM]) -> usize
    ensures prefix_len { IsPrefixLen result room.new }
    ensures room_after { take result room.new ≡ stretch_text start len }
    ensures upper_bound { result ≤ most_value_bytes }
{
    let word = text::put(room, 0, b"bytes ");
    let first = text::put_decimal(room, word, start as u64);
    let space = text::put(room, first, b" ");
    text::put_decimal(room, space, len as u64)
}
