// Numbers on a line at a position of a lent buffer.
ghost use Rattle.std.specs.Prelude.{◌≡◌, ◌+◌, ◌≤◌, length};
ghost use Rattle.text.specs.Lines.{numbers_line};
ghost use Rattle.text.specs.Placing.{position_after, placed_text};
ghost use Rattle.text.specs.Steps.{item};

use crate::numbers::{decimal_length, put_behind, put_decimal};
use crate::placing::{after, put};

// Stores a line of numbers with single spaces between them.
pub fn put_line(out: &mut [u8], at: usize, numbers: &[u32]) -> usize
    ensures value { result ≡ position_after (length out.old) at (numbers_line numbers.now) }
    ensures out_after { out.new ≡ placed_text out.old at (numbers_line numbers.now) }
{
    let end = after_line(out, at, numbers);
    if end <= out.len() {
        write_line(out, at, numbers);
    }
    end
}

// The position after such a line, which is not stored.
pub fn after_line(out: &[u8], at: usize, numbers: &[u32]) -> usize
    ensures { result ≡ position_after (length out.now) at (numbers_line numbers.now) }
{
    let mut next = after(out, at, 0);
    for (i, number) in numbers.iter().enumerate() {
        next = after(out, next, item_length(i, u64::from(*number)));
    }
    after(out, next, 1)
}

// Stores a line that fits.
fn write_line(out: &mut [u8], at: usize, numbers: &[u32])
    requires { at + length (numbers_line numbers.now) ≤ length out.old }
    ensures { out.new ≡ placed_text out.old at (numbers_line numbers.now) }
{
    let mut next = at;
    for (i, number) in numbers.iter().enumerate() {
        next = put_item(out, next, i, u64::from(*number));
    }
    put(out, next, b"\n");
}

// Stores the number at an index of a line, behind a space but for the first.
fn put_item(out: &mut [u8], at: usize, i: usize, n: u64) -> usize
    ensures value { result ≡ position_after (length out.old) at (item i n) }
    ensures out_after { out.new ≡ placed_text out.old at (item i n) }
{
    if i == 0 {
        return put_decimal(out, at, n);
    }
    put_behind(out, at, b' ', n)
}

// How many bytes that takes.
fn item_length(i: usize, n: u64) -> usize
    ensures { result ≡ length (item i n) }
{
    if i == 0 {
        return decimal_length(n);
    }
    decimal_length(n) + 1
}
