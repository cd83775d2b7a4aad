// The number that bytes stand for: its sign, and the bytes that it needs.
ghost use Rattle.std.specs.Prelude.{◌≡◌};
ghost use Rattle.decimal_bytes.specs.Number.{is_negative};
ghost use Rattle.decimal_bytes.specs.Significant.{sign_byte, significant};

// The first bit of a byte, which is the sign in the first byte of a number.
const SIGN_BIT: u8 = 128;

// Whether the number of the bytes is negative.
pub(crate) fn is_negative(number: &[u8]) -> bool
    ensures { result ≡ is_negative number.now }
{
    if number.len() == 0 {
        return false;
    }
    number[0] >= SIGN_BIT
}

// The byte that repeats the sign of a number: all its bits are the sign.
pub(crate) fn sign_byte(number: &[u8]) -> u8
    ensures { result ≡ sign_byte number.now }
{
    if is_negative(number) {
        return 255;
    }
    0
}

// The bytes of a number without those in front that only repeat the sign of what comes after.
pub(crate) fn significant(number: &[u8]) -> &[u8]
    ensures { result.now ≡ significant number.now }
{
    // By the byte behind: a loop over the first of the two tests twice whether there is another, and takes a quarter more time.
    for next in 1..number.len() {
        let at = next - 1;
        if number[at] != sign_byte(&number[next..]) {
            return &number[at..];
        }
    }
    &number[number.len().saturating_sub(1)..]
}
