// Signed numbers as natural ones: `n` and `-1 - n` both fold onto n, which fits 63 bits, and are told apart by their sign.

ghost use Rattle.std.specs.Prelude.{◌≡◌, cond, ◌<◌, ◌^◌, pos, negsuc};
ghost use Rattle.std.proofs.Math.IntN.{sub_ℕ};
ghost use Rattle.std.specs.Int.Signed.{mag};

// The number itself, or -1 less it where it is negative, so that -1 folds onto 0 and every signed 64-bit number onto one
// of 63 bits. No method of the library does it: `unsigned_abs` of the least number has 64 bits.
pub(crate) fn folded(x: i64) -> u64
    ensures { result ≡ mag x }
{
    if x.is_negative() {
        return (-1 - x) as u64;
    }
    x as u64
}

// The number `-1 - n` or the number `n`: back from what a number folds onto, and no method of the library either.
pub(crate) fn signed(negative: bool, n: u64) -> i64
    requires { n < 2 ^ 63 }
    ensures { result ≡ cond negative (negsuc n) (pos n) }
{
    let x = n as i64;
    if negative {
        return -1 - x;
    }
    x
}

// `x` counted from `-by`, which lies before it.
pub(crate) fn raised(x: i64, by: u64) -> u64
    requires { (mag x < by) × (by < 2 ^ 62) }
    ensures { x ≡ sub_ℕ result by }
{
    (x + by as i64) as u64
}

// The number that counted from `-by` is `n`.
pub(crate) fn lowered(n: u64, by: u64) -> i64
    requires { (n < 2 ^ 63) × (by < 2 ^ 63) }
    ensures { result ≡ sub_ℕ n by }
{
    n as i64 - by as i64
}
