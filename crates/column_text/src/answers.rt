// What reading answers, as text.
ghost use Rattle.std.specs.Prelude.{◌≡◌, ◌≤◌, length, take, drop};
ghost use Rattle.io.specs.Counts.{IsPrefixLen};
ghost use Rattle.text.specs.Lines.{line_of};
ghost use Rattle.text.specs.Placing.{position_after, placed_text};
ghost use Rattle.column_text.specs.Values.{most_value_bytes};
ghost use Rattle.column_text.specs.Answers.{read_text};

use crate::values::{VALUE_ROOM, make_value};
use column::Value;
use refusal::Refusal;

// Room for the line of any answer of reading.
pub const LINE_ROOM: usize = VALUE_ROOM + 1;

// Makes the line of an answer of reading at the start of a room, and answers how many bytes it takes.
pub fn read_line(r: Result<Value, Refusal>, out: &mut [u8; LINE_ROOM]) -> usize
    ensures prefix_len { IsPrefixLen result out.new }
    ensures out_after { take result out.new ≡ line_of (read_text r) }
    ensures out_unchanged { drop result out.new ≡ drop result out.old }
{
    let end = put_read(out, 0, r);
    text::put(out, end, b"\n")
}

// Stores a value, or `refused N at P`.
pub fn put_read(out: &mut [u8], at: usize, r: Result<Value, Refusal>) -> usize
    ensures value { result ≡ position_after (length out.old) at (read_text r) }
    ensures out_after { out.new ≡ placed_text out.old at (read_text r) }
    ensures r_len_bound { length (read_text r) ≤ most_value_bytes }
{
    match r {
        Ok(v) => {
            let mut room = [0u8; VALUE_ROOM];
            let count = make_value(v, &mut room);
            text::put(out, at, &room[..count])
        }
        Err(refusal) => text::put_refusal(out, at, refusal),
    }
}
