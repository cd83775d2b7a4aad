// Rows as text: a line with their number, and a line for each.
ghost use Rattle.std.specs.Prelude.{◌≡◌, List, ℕ, ◌+◌, ◌*◌, ◌≤◌, length, take};
ghost use Rattle.std.proofs.Math.Option.{some};
ghost use Rattle.io.specs.Counts.{IsPrefixLen};
ghost use Rattle.text.specs.Placing.{position_after, placed_text};
ghost use Rattle.schema.specs.Rows.{row_width};
ghost use Rattle.schema_text.specs.Rows.{cut, lines_of, header_text, rows_text_of};
ghost use Rattle.schema_text.specs.Making.{made, made_in, most_rows_bytes};

use refusal::{Refusal, short_output};
use schema::ROW_WIDTH;

// Room for the line with the number of rows, which has at most 20 digits.
const HEADER_ROOM: usize = 32;

// Makes the text of so many rows, whose numbers are lent, and answers how many bytes of the buffer it takes. Where the numbers are too few
// or the buffer is too short, nothing is written.
pub fn rows_text(rows: &[u32], total: usize, out: &mut [u8]) -> Result<usize, Refusal>
    ensures value { result ≡ made (rows_text_of total rows.now) (length out.old) }
    ensures out_after { out.new ≡ made_in (rows_text_of total rows.now) out.old }
    ensures by_index { (text : List ℕ) → rows_text_of total rows.now ≡ some text → length text ≤ most_rows_bytes total }
{
    if rows.len() / ROW_WIDTH < total {
        return Err(short_output());
    }
    let mut header = [0u8; HEADER_ROOM];
    let count = make_header(total, &mut header);
    let first = text::after(out, 0, count);
    let end = after_rows(rows, total, out, first);
    if end > out.len() {
        return Err(short_output());
    }
    text::put(out, 0, &header[..count]);
    write_rows(rows, total, out, count);
    Ok(end)
}

// Makes the line with the number of rows at the start of a room, and answers its length.
fn make_header(total: usize, room: &mut [u8; HEADER_ROOM]) -> usize
    ensures prefix_len { IsPrefixLen result room.new }
    ensures room_after { take result room.new ≡ header_text total }
{
    let word = text::put(room, 0, b"nodes ");
    let number = text::put_decimal(room, word, total as u64);
    text::put(room, number, b"\n")
}

// The position after the lines of so many rows, which are not stored.
fn after_rows(rows: &[u32], total: usize, out: &[u8], at: usize) -> usize
    requires { row_width * total ≤ length rows.now }
    ensures { result ≡ position_after (length out.now) at (lines_of (cut total rows.now)) }
{
    let mut next = text::after(out, at, 0);
    for i in 0..total {
        let start = ROW_WIDTH * i;
        let end = start + ROW_WIDTH;
        next = text::after_line(out, next, &rows[start..end]);
    }
    next
}

// Stores lines that fit. Apart from `after_rows`: where the text is too long nothing is written, so where it ends is known before.
fn write_rows(rows: &[u32], total: usize, out: &mut [u8], at: usize)
    requires total_in_bounds { row_width * total ≤ length rows.now }
    requires rows_in_bounds { at + length (lines_of (cut total rows.now)) ≤ length out.old }
    ensures { out.new ≡ placed_text out.old at (lines_of (cut total rows.now)) }
{
    let mut next = at;
    for i in 0..total {
        let start = ROW_WIDTH * i;
        let end = start + ROW_WIDTH;
        next = text::put_line(out, next, &rows[start..end]);
    }
}
