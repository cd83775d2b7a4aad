// Numbers stored as digits at a position of a lent buffer.
ghost use Rattle.std.specs.Prelude.{◌≡◌, ◌∷◌, ◌≤◌, length};
ghost use Rattle.text.specs.Numbers.{decimal_text, signed_text, hex_text};
ghost use Rattle.text.specs.Placing.{position_after, placed_text};

use crate::placing::put;

// The most decimal digits of a number of 64 bits.
const MOST_DIGITS: usize = 20;

// The hexadecimal digits of 64 bits.
const MOST_HEX_DIGITS: usize = 16;

// Stores a number in decimal digits.
pub fn put_decimal(out: &mut [u8], at: usize, n: u64) -> usize
    ensures value { result ≡ position_after (length out.old) at (decimal_text n) }
    ensures out_after { out.new ≡ placed_text out.old at (decimal_text n) }
{
    let mut text = [0u8; MOST_DIGITS];
    let count = io::decimal(n, &mut text);
    put(out, at, &text[..count])
}

// Stores a number in decimal digits, behind its sign where it is below 0.
pub fn put_signed(out: &mut [u8], at: usize, z: i64) -> usize
    ensures value { result ≡ position_after (length out.old) at (signed_text z) }
    ensures out_after { out.new ≡ placed_text out.old at (signed_text z) }
{
    if z < 0 {
        return put_behind(out, at, b'-', z.unsigned_abs());
    }
    put_decimal(out, at, z.unsigned_abs())
}

// Stores a byte and behind it a number in decimal digits.
pub(crate) fn put_behind(out: &mut [u8], at: usize, byte: u8, n: u64) -> usize
    ensures value { result ≡ position_after (length out.old) at (byte ∷ decimal_text n) }
    ensures out_after { out.new ≡ placed_text out.old at (byte ∷ decimal_text n) }
{
    let mut text = [0u8; MOST_DIGITS + 1];
    text[0] = byte;
    let end = put_decimal(&mut text, 1, n);
    put(out, at, &text[..end])
}

// How many decimal digits a number has.
pub(crate) fn decimal_length(n: u64) -> usize
    ensures value { result ≡ length (decimal_text n) }
    ensures upper_bound { result ≤ 20 }
{
    let mut text = [0u8; MOST_DIGITS];
    io::decimal(n, &mut text)
}

// Stores the hexadecimal digits of 32 bits, zeros in front too.
// Apart from that of 64 bits, since one over the count of digits would ask its callers for a bound.
pub fn put_hex32(out: &mut [u8], at: usize, bits: u32) -> usize
    ensures value { result ≡ position_after (length out.old) at (hex_text 8 bits) }
    ensures out_after { out.new ≡ placed_text out.old at (hex_text 8 bits) }
{
    put_hex::<8>(out, at, u64::from(bits))
}

// Stores the hexadecimal digits of 64 bits, zeros in front too.
pub fn put_hex64(out: &mut [u8], at: usize, bits: u64) -> usize
    ensures value { result ≡ position_after (length out.old) at (hex_text 16 bits) }
    ensures out_after { out.new ≡ placed_text out.old at (hex_text 16 bits) }
{
    put_hex::<16>(out, at, bits)
}

// Stores the last so many hexadecimal digits of a number, zeros in front too.
fn put_hex<const DIGITS: usize>(out: &mut [u8], at: usize, bits: u64) -> usize
    requires { DIGITS ≤ 16 }
    ensures value { result ≡ position_after (length out.old) at (hex_text DIGITS bits) }
    ensures out_after { out.new ≡ placed_text out.old at (hex_text DIGITS bits) }
{
    let mut text = [0u8; MOST_HEX_DIGITS];
    let count = io::hex(bits, MOST_HEX_DIGITS, &mut text);
    let digits = &text[..count];
    put(out, at, &digits[count - DIGITS..])
}
