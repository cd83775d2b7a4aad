// A number read from bytes, and stored in them.
ghost use Rattle.std.specs.Prelude.{◌≡◌, length, take};
ghost use Rattle.laws.specs.Bytes.{little, bytes_of};

// The most bytes that a number is read from.
const MOST: usize = 8;

// How many numbers a byte has.
const BYTE: u64 = 256;

// The number of some bytes; of more than eight, that of the first eight.
pub fn number(bytes: &[u8]) -> u64
    ensures { result ≡ little (take 8 bytes.now) }
{
    let mut n: u64 = 0;
    for at in (0..bytes.len().min(MOST)).rev() {
        n = n * BYTE + u64::from(bytes[at]);
    }
    n
}

// Stores a number in all of some bytes: zeros where it needs fewer, and of one that needs more its lower bytes.
pub fn store(number: u64, out: &mut [u8])
    ensures { out.new ≡ bytes_of (length out.old) number }
{
    let mut rest = number;
    for byte in out.iter_mut() {
        *byte = (rest % BYTE) as u8;
        rest /= BYTE;
    }
}
