// The byte lengths of a decimal, and the greatest precision of each.
ghost use Rattle.std.specs.Prelude.{◌≡◌, ◌≤◌};
ghost use Rattle.decimal_bytes.specs.Precision.{greatest_length, is_length, greatest_precision};

// The greatest byte length of a decimal.
pub(crate) const GREATEST_LENGTH: usize = 256;

// At n - 1 the greatest d with 10^d <= 2^(8n-1) - 1, for n from 1 to 256. The table is laid out on the stack where it is read, so its
// numbers are as narrow as they can be.
const GREATEST_PRECISION: [u16; GREATEST_LENGTH] = [
    2, 4, 6, 9, 11, 14, 16, 18, 21, 23, 26, 28, 31, 33, 35, 38, 40, 43, 45, 47, 50, 52, 55, 57, 59,
    62, 64, 67, 69, 71, 74, 76, 79, 81, 83, 86, 88, 91, 93, 96, 98, 100, 103, 105, 108, 110, 112,
    115, 117, 120, 122, 124, 127, 129, 132, 134, 136, 139, 141, 144, 146, 149, 151, 153, 156, 158,
    161, 163, 165, 168, 170, 173, 175, 177, 180, 182, 185, 187, 189, 192, 194, 197, 199, 201, 204,
    206, 209, 211, 214, 216, 218, 221, 223, 226, 228, 230, 233, 235, 238, 240, 242, 245, 247, 250,
    252, 254, 257, 259, 262, 264, 267, 269, 271, 274, 276, 279, 281, 283, 286, 288, 291, 293, 295,
    298, 300, 303, 305, 307, 310, 312, 315, 317, 319, 322, 324, 327, 329, 332, 334, 336, 339, 341,
    344, 346, 348, 351, 353, 356, 358, 360, 363, 365, 368, 370, 372, 375, 377, 380, 382, 385, 387,
    389, 392, 394, 397, 399, 401, 404, 406, 409, 411, 413, 416, 418, 421, 423, 425, 428, 430, 433,
    435, 437, 440, 442, 445, 447, 450, 452, 454, 457, 459, 462, 464, 466, 469, 471, 474, 476, 478,
    481, 483, 486, 488, 490, 493, 495, 498, 500, 503, 505, 507, 510, 512, 515, 517, 519, 522, 524,
    527, 529, 531, 534, 536, 539, 541, 543, 546, 548, 551, 553, 556, 558, 560, 563, 565, 568, 570,
    572, 575, 577, 580, 582, 584, 587, 589, 592, 594, 596, 599, 601, 604, 606, 608, 611, 613, 616,
];

// A length outside 1 to 256.
#[derive(Clone, Copy, Debug, PartialEq, Eq)]
pub struct WrongLength;

// Whether a decimal can be `length` bytes long: 1 to 256.
pub fn is_length(length: usize) -> bool
    ensures { result ≡ is_length length }
{
    (1..=GREATEST_LENGTH).contains(&length)
}

// The greatest precision of a decimal of `length` bytes; 0 for a length outside 1 to 256.
pub fn greatest_precision(length: u32) -> u32
    ensures { result ≡ greatest_precision length }
{
    let n = length as usize;
    if !is_length(n) {
        return 0;
    }
    u32::from(entry_of(n))
}

// The table's entry for a length.
fn entry_of(n: usize) -> u16
    requires { (1 ≤ n) × (n ≤ greatest_length) }
    ensures { result ≡ greatest_precision n }
{
    GREATEST_PRECISION[n - 1]
}
