// The lengths that values of a column have.
ghost use Rattle.std.specs.Prelude.{◌≡◌};
ghost use Rattle.column.specs.Lengths.{is_width, width_of, is_byte_form, is_byte_decimal, length_right};

use crate::codes;
use column_type::ColumnType;

// The most bytes that a value has.
pub const MOST_BYTES: usize = 65_536;

const INT96_BYTES: usize = 12;

// Whether a value of the column may have so many bytes.
#[tactic(auto, unfolding(crate::specs::Lengths::length_right))]
pub(crate) fn length_right(c: ColumnType, n: usize) -> bool
    ensures { result ≡ length_right c n }
{
    if n > MOST_BYTES {
        return false;
    }
    if !width_right(c, n) {
        return false;
    }
    if !is_byte_decimal(c) {
        return true;
    }
    decimal_bytes::is_length(n)
}

// Whether so many bytes are the width of the column's physical type, where it has one.
fn width_right(c: ColumnType, n: usize) -> bool
    ensures { result ≡ is_width (width_of c) n }
{
    match c.physical {
        codes::BOOLEAN => n == size_of::<bool>(),
        codes::INT32 => n == size_of::<i32>(),
        codes::INT64 => n == size_of::<i64>(),
        codes::INT96 => n == INT96_BYTES,
        codes::FLOAT => n == size_of::<f32>(),
        codes::DOUBLE => n == size_of::<f64>(),
        codes::FIXED_LEN_BYTE_ARRAY => n == c.type_length as usize,
        _ => true,
    }
}

// Whether the column holds decimals as bytes.
fn is_byte_decimal(c: ColumnType) -> bool
    ensures { result ≡ is_byte_decimal c }
{
    is_byte_form(c) && c.kind == codes::DECIMAL
}

// Whether values are BYTE_ARRAY or FIXED_LEN_BYTE_ARRAY.
pub(crate) fn is_byte_form(c: ColumnType) -> bool
    ensures { result ≡ is_byte_form c }
{
    c.physical == codes::BYTE_ARRAY || c.physical == codes::FIXED_LEN_BYTE_ARRAY
}
