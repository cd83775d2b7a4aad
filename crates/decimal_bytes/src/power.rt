// Powers of ten, as words and as bytes.
ghost use Rattle.std.specs.Prelude.{◌≡◌, cond, ◌*◌, ◌-◌, ◌%◌, ◌^◌, ◌≤◌, min, ltb, pos, neg_ℤ, length};
ghost use Rattle.decimal_bytes.specs.Precision.{greatest_number};
ghost use Rattle.decimal_bytes.specs.Number.{unsigned, number};

// A byte times ten to this power, and a carry below that power, fit 64 bits.
const STEP: u32 = 16;

// The greatest exponent whose power of ten 64 bits hold.
const GREATEST_IN_WORD: u32 = BEYOND_WORD - 1;

// The powers of ten that 64 bits hold.
static POWERS: [u64; BEYOND_WORD as usize] = [
    1,
    10,
    100,
    1_000,
    10_000,
    100_000,
    1_000_000,
    10_000_000,
    100_000_000,
    1_000_000_000,
    10_000_000_000,
    100_000_000_000,
    1_000_000_000_000,
    10_000_000_000_000,
    100_000_000_000_000,
    1_000_000_000_000_000,
    10_000_000_000_000_000,
    100_000_000_000_000_000,
    1_000_000_000_000_000_000,
    10_000_000_000_000_000_000,
];

// The first exponent whose power of ten is above every number of 64 bits.
pub const BEYOND_WORD: u32 = 20;

// Writes 10^exponent, or its negative, over the bytes, which must be enough to hold it.
pub(crate) fn write_power(bytes: &mut [u8], negative: bool, exponent: u32)
    requires { (1 ≤ length bytes.old) × (10 ^ exponent ≤ greatest_number (length bytes.old)) }
    ensures { number bytes.new ≡ cond negative (neg_ℤ (pos (10 ^ exponent))) (pos (10 ^ exponent)) }
{
    write_unit(bytes, negative);
    scale_by_power(bytes, exponent);
}

// Writes 1, or -1, over the bytes.
fn write_unit(bytes: &mut [u8], negative: bool)
    requires { 1 ≤ length bytes.old }
    ensures { unsigned bytes.new ≡ cond negative (256 ^ length bytes.old - 1) 1 }
{
    if negative {
        bytes.fill(255);
        return;
    }
    bytes.fill(0);
    let last = bytes.len() - 1;
    bytes[last] = 1;
}

// Multiplies the number of the bytes by 10^exponent, modulo what the bytes can hold.
fn scale_by_power(bytes: &mut [u8], exponent: u32)
    ensures { unsigned bytes.new ≡ unsigned bytes.old * 10 ^ exponent % 256 ^ length bytes.old }
{
    for _step in 0..exponent / STEP {
        scale(bytes, power_of_ten(STEP));
    }
    scale(bytes, power_of_ten(exponent % STEP));
}

// 10^exponent, or 10^19, the greatest power of ten that 64 bits hold, of a greater exponent.
pub fn power_of_ten(exponent: u32) -> u64
    ensures { result ≡ 10 ^ min exponent 19 }
{
    POWERS[exponent.min(GREATEST_IN_WORD) as usize]
}

// Whether a number of 64 bits is below 10^exponent.
pub fn is_below_power(n: u64, exponent: u32) -> bool
    ensures { result ≡ ltb n (10 ^ exponent) }
{
    if exponent >= BEYOND_WORD {
        return true;
    }
    n < power_of_ten(exponent)
}

// Multiplies the number of the bytes by a factor, from the last byte to the first, modulo what the bytes can hold.
fn scale(bytes: &mut [u8], factor: u64)
    requires { (1 ≤ factor) × (factor ≤ 10 ^ 16) }
    ensures { unsigned bytes.new ≡ unsigned bytes.old * factor % 256 ^ length bytes.old }
{
    let mut carry: u64 = 0;
    for at in (0..bytes.len()).rev() {
        let product = u64::from(bytes[at]) * factor + carry;
        bytes[at] = (product % 256) as u8;
        carry = product / 256;
    }
}
