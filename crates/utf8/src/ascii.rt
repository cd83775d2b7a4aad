// Octets of UTF8-1 in a row, taken eight at a time, and more at a time after eight: by the highest bit of each, which is clear in such an
// octet.
ghost use Rattle.std.specs.Prelude.{ℕ, ◌+◌, ◌≤◌, ◌<◌, List, ◌≡◌, eqb, length};
ghost use Rattle.utf8.specs.Steps.{Passes, NoAscii, run, high_bits};

use crate::UTF8_1_LAST;

// Octets of a word, two words, a block of four, and a double block.
const WORD: usize = 8;

const PAIR: usize = 16;

const BLOCK: usize = 32;

const DOUBLE: usize = 64;

// Bits of an octet.
const OCTET_BITS: usize = 8;

// The highest bit of each octet of a word.
const HIGH_BITS: u64 = 0x8080_8080_8080_8080;

// Where octets of UTF8-1 in a row, of which the first would stand at `from`, end. After each word, blocks are taken.
pub(crate) fn ascii_after(text: &[u8], from: usize) -> usize
    requires { from ≤ length text.now }
    ensures passes { Passes text.now from result }
    ensures no_ascii { NoAscii text.now result }
{
    let mut at = from;
    // A cursor: each turn passes as many octets as it reads.
    while text.len() - at >= WORD {
        let high = high_bits(text, at);
        if high != 0 {
            return at + octets_below(high);
        }
        at = blocks_after(text, at + WORD);
    }
    last_after(text, at)
}

// Where whole blocks of such octets end. After each, double blocks are taken.
fn blocks_after(text: &[u8], from: usize) -> usize
    requires { from ≤ length text.now }
    ensures { Passes text.now from result }
{
    let mut at = from;
    // A cursor: each turn passes as many octets as it reads.
    while text.len() - at >= BLOCK {
        if !is_ascii_block(text, at) {
            return at;
        }
        at = doubles_after(text, at + BLOCK);
    }
    at
}

// Where whole double blocks of such octets end.
// Apart from `blocks_after`, which hands on to it: one over the size would also need a const argument computed from another.
fn doubles_after(text: &[u8], from: usize) -> usize
    requires { from ≤ length text.now }
    ensures { Passes text.now from result }
{
    let mut at = from;
    // A cursor, handed on from the loops over words and blocks.
    while text.len() - at >= DOUBLE {
        if !is_ascii_double(text, at) {
            return at;
        }
        at += DOUBLE;
    }
    at
}

// Where they end, with less than a word left to look at: what is left is the end of the text's last word.
fn last_after(text: &[u8], from: usize) -> usize
    requires { (from ≤ length text.now) × (length text.now < from + 8) }
    ensures passes { Passes text.now from result }
    ensures no_ascii { NoAscii text.now result }
{
    let left = text.len() - from;
    if left == 0 {
        return from;
    }
    if text.len() < WORD {
        return octets_after(text, from);
    }
    let high = high_bits(text, text.len() - WORD) >> (OCTET_BITS * (WORD - left));
    if high != 0 {
        return from + octets_below(high);
    }
    text.len()
}

// Where they end, octet by octet.
fn octets_after(text: &[u8], from: usize) -> usize
    requires { from ≤ length text.now }
    ensures passes { Passes text.now from result }
    ensures no_ascii { NoAscii text.now result }
{
    for at in from..text.len() {
        if text[at] > UTF8_1_LAST {
            return at;
        }
    }
    text.len()
}

// How many octets of UTF8-1 stand before the first other one, by the highest bits of up to eight octets.
fn octets_below(high: u64) -> usize
    requires { 0 < high }
    ensures { (s : List ℕ) (at n : ℕ) → n ≤ 8 → high ≡ high_bits s at n → result ≡ run s at n }
{
    high.trailing_zeros() as usize / OCTET_BITS
}

// Whether the octets of a double block are all of UTF8-1. All are read before any is judged, so that one test serves them all.
// Each of these three is of two of the next smaller: one over the size would need a const argument computed from another.
fn is_ascii_double(text: &[u8], at: usize) -> bool
    requires { at + 64 ≤ length text.now }
    ensures { result ≡ eqb (high_bits text.now at 64) 0 }
{
    let first = is_ascii_block(text, at);
    let second = is_ascii_block(text, at + BLOCK);
    first & second
}

// Whether those of a block are.
fn is_ascii_block(text: &[u8], at: usize) -> bool
    requires { at + 32 ≤ length text.now }
    ensures { result ≡ eqb (high_bits text.now at 32) 0 }
{
    let first = is_ascii_pair(text, at);
    let second = is_ascii_pair(text, at + PAIR);
    first & second
}

// Whether those of two words are.
fn is_ascii_pair(text: &[u8], at: usize) -> bool
    requires { at + 16 ≤ length text.now }
    ensures { result ≡ eqb (high_bits text.now at 16) 0 }
{
    let first = high_bits(text, at);
    let second = high_bits(text, at + WORD);
    (first == 0) & (second == 0)
}

// The highest bits of the octets of a word, whose first octet is the lowest.
fn high_bits(text: &[u8], at: usize) -> u64
    requires { at + 8 ≤ length text.now }
    ensures { result ≡ high_bits text.now at 8 }
{
    let word = [
        text[at],
        text[at + 1],
        text[at + 2],
        text[at + 3],
        text[at + 4],
        text[at + 5],
        text[at + 6],
        text[at + 7],
    ];
    u64::from_le_bytes(word) & HIGH_BITS
}
