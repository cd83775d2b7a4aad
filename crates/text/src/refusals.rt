// Numbered refusals as text at a position of a lent buffer.
ghost use Rattle.std.specs.Prelude.{◌≡◌, ◌≤◌, length};
ghost use Rattle.text.specs.Refusals.{refusal_text, most_refusal};
ghost use Rattle.text.specs.Placing.{position_after, placed_text};

use crate::numbers::put_decimal;
use crate::placing::put;
use refusal::Refusal;

// Room for any refusal's line: a number of 8 bits and one of 64, the words before them and the line's end.
pub const REFUSAL_ROOM: usize = 36;

// Stores `refused N at P`.
pub fn put_refusal(out: &mut [u8], at: usize, refusal: Refusal) -> usize
    ensures value { result ≡ position_after (length out.old) at (refusal_text refusal) }
    ensures out_after { out.new ≡ placed_text out.old at (refusal_text refusal) }
    ensures refusal_len_bound { length (refusal_text refusal) ≤ most_refusal }
{
    let mut text = [0u8; REFUSAL_ROOM];
    let word = put(&mut text, 0, b"refused ");
    let numbered = put_decimal(&mut text, word, refusal.number as u64);
    let preposition = put(&mut text, numbered, b" at ");
    let end = put_decimal(&mut text, preposition, refusal.place as u64);
    put(out, at, &text[..end])
}
