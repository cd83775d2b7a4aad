// The numbers that bytes stand for, and the ranges that they are held to.
ghost use Rattle.std.specs.Prelude.{◌≡◌, ◌*◌, ◌<◌, ◌≤◌, ◌^◌, ltb, length};
ghost use Rattle.std.specs.Int.Signed.{mag};
ghost use Rattle.laws.specs.Bytes.{little};
ghost use Rattle.column.specs.Annotations.{in_signed_bits};

// The number of up to 8 bytes, the least significant first.
// What `little_endian` promises of any length, said of these: each place that reads a value would have to say it for itself.
pub(crate) fn little(value: &[u8]) -> u64
    requires { length value.now ≤ 8 }
    ensures { (result ≡ little value.now) × (result < 256 ^ length value.now) }
{
    little_endian::number(value)
}

// A signed number folded onto the naturals: itself, or -1 less it where it is negative, so that -1 folds onto 0. No method of the library
// does it: `unsigned_abs` of the least number has 64 bits.
fn folded(z: i64) -> u64
    ensures { result ≡ mag z }
{
    if z < 0 {
        return z.unsigned_abs() - 1;
    }
    z.unsigned_abs()
}

// Whether so many bits hold the signed number: whether twice the number it folds onto is below 2^bits.
pub(crate) fn in_signed_bits(z: i64, bits: u32) -> bool
    ensures { result ≡ in_signed_bits bits z }
{
    in_bits(folded(z) * 2, bits)
}

// Whether `n` is below 2^bits.
pub(crate) fn in_bits(n: u64, bits: u32) -> bool
    ensures { result ≡ ltb n (2 ^ bits) }
{
    if bits >= u64::BITS {
        return true;
    }
    n >> bits == 0
}
