// Numbers of 1 to 16 bytes, each as one number of 128 bits.
ghost use Rattle.std.specs.Prelude.{◌≡◌, ◌+◌, ◌^◌, ◌≤◌, ◌<◌, leb, ltb, nat_abs, length, take};
ghost use Rattle.decimal_bytes.specs.Number.{unsigned, is_negative, number};
ghost use Rattle.decimal.specs.Steps.{is_short, signed_of, sign_weight, taken, eight_bytes};

// The greatest byte length of these numbers, the bytes of a word, and the bits of a byte and of a word.
const WIDE: usize = 16;

const WORD: usize = 8;

const BYTE_BITS: usize = 8;

const WORD_BITS: usize = 64;

// The weight of the first bit of a word, and the first number that a word does not hold.
const SIGN: u64 = 0x8000_0000_0000_0000;

const BEYOND_WORD: u128 = 0x1_0000_0000_0000_0000;

// Where 0 stands: a number plus 2^127 has no sign and keeps its order.
const ORIGIN: u128 = 0x8000_0000_0000_0000_0000_0000_0000_0000;

// The first precision that every number here keeps to.
const BEYOND_ALL: u32 = 39;

// The powers of ten below it.
static POWERS: [u128; BEYOND_ALL as usize] = [
    1,
    10,
    100,
    1_000,
    10_000,
    100_000,
    1_000_000,
    10_000_000,
    100_000_000,
    1_000_000_000,
    10_000_000_000,
    100_000_000_000,
    1_000_000_000_000,
    10_000_000_000_000,
    100_000_000_000_000,
    1_000_000_000_000_000,
    10_000_000_000_000_000,
    100_000_000_000_000_000,
    1_000_000_000_000_000_000,
    10_000_000_000_000_000_000,
    100_000_000_000_000_000_000,
    1_000_000_000_000_000_000_000,
    10_000_000_000_000_000_000_000,
    100_000_000_000_000_000_000_000,
    1_000_000_000_000_000_000_000_000,
    10_000_000_000_000_000_000_000_000,
    100_000_000_000_000_000_000_000_000,
    1_000_000_000_000_000_000_000_000_000,
    10_000_000_000_000_000_000_000_000_000,
    100_000_000_000_000_000_000_000_000_000,
    1_000_000_000_000_000_000_000_000_000_000,
    10_000_000_000_000_000_000_000_000_000_000,
    100_000_000_000_000_000_000_000_000_000_000,
    1_000_000_000_000_000_000_000_000_000_000_000,
    10_000_000_000_000_000_000_000_000_000_000_000,
    100_000_000_000_000_000_000_000_000_000_000_000,
    1_000_000_000_000_000_000_000_000_000_000_000_000,
    10_000_000_000_000_000_000_000_000_000_000_000_000,
    100_000_000_000_000_000_000_000_000_000_000_000_000,
];

// Whether a number has so few bytes.
pub(crate) fn is_short(len: usize) -> bool
    ensures { result ≡ is_short len }
{
    (1..=WIDE).contains(&len)
}

// A number, plus 2^127.
pub(crate) fn raised(bytes: &[u8]) -> u128
    requires { (1 ≤ length bytes.now) × (length bytes.now ≤ 16) }
    ensures { signed_of result ≡ number bytes.now }
{
    let n = bytes.len();
    if n > WORD {
        return raised_wide(bytes);
    }
    u128::from(front(bytes, n)) + (ORIGIN - u128::from(SIGN))
}

// The same of more than 8 bytes, of which the last 8 are a word.
fn raised_wide(bytes: &[u8]) -> u128
    requires { (8 < length bytes.now) × (length bytes.now ≤ 16) }
    ensures { signed_of result ≡ number bytes.now }
{
    let count = bytes.len() - WORD;
    u128::from(front(bytes, count)) * BEYOND_WORD + u128::from(word(bytes, count))
}

// The number of the first bytes, plus 2^63.
fn front(bytes: &[u8], count: usize) -> u64
    requires { (1 ≤ count) × (count ≤ 8) × (count ≤ length bytes.now) }
    ensures { result + taken (is_negative bytes.now) count ≡ unsigned (take count bytes.now) + 2 ^ 63 }
{
    if count == WORD {
        return lifted(word(bytes, 0), count);
    }
    lifted(unsigned_front(bytes, count), count)
}

// The number that `n` stands for in so many bytes, plus 2^63. A set first bit takes its weight from the number, so turning it round adds the
// weight, as it does where the bit is clear. What is left up to 2^63 is added.
fn lifted(n: u64, count: usize) -> u64
    requires { (1 ≤ count) × (count ≤ 8) × (n < 256 ^ count) }
    ensures { result + taken (leb (sign_weight count) n) count ≡ n + 2 ^ 63 }
{
    let weight = sign_weight(count);
    (n ^ weight) + (SIGN - weight)
}

// The weight of the first bit of so many bytes.
fn sign_weight(count: usize) -> u64
    requires { (1 ≤ count) × (count ≤ 8) }
    ensures { result ≡ sign_weight count }
{
    SIGN >> (WORD_BITS - BYTE_BITS * count)
}

// The number of the first bytes with no sign.
fn unsigned_front(bytes: &[u8], count: usize) -> u64
    requires { (count ≤ 8) × (count ≤ length bytes.now) }
    ensures { (result ≡ unsigned (take count bytes.now)) × (result < 256 ^ count) }
{
    let mut n: u64 = 0;
    for byte in &bytes[..count] {
        n = n * 256 + u64::from(*byte);
    }
    n
}

// The number of the eight bytes from a place on.
fn word(bytes: &[u8], at: usize) -> u64
    requires { at + 8 ≤ length bytes.now }
    ensures { result ≡ eight_bytes bytes.now at }
{
    u64::from_be_bytes([
        bytes[at],
        bytes[at + 1],
        bytes[at + 2],
        bytes[at + 3],
        bytes[at + 4],
        bytes[at + 5],
        bytes[at + 6],
        bytes[at + 7],
    ])
}

// Whether |number| < 10^precision, by how far the number plus 2^127 lies from there.
pub(crate) fn keeps_to(n: u128, precision: u32) -> bool
    ensures { result ≡ ltb (nat_abs (signed_of n)) (10 ^ precision) }
{
    if precision >= BEYOND_ALL {
        return true;
    }
    n.abs_diff(ORIGIN) < power(precision)
}

// 10^exponent.
fn power(exponent: u32) -> u128
    requires { exponent < 39 }
    ensures { result ≡ 10 ^ exponent }
{
    POWERS[exponent as usize]
}
