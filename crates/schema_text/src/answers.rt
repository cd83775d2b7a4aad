// What resolving a sheet answered, as text.
ghost use Rattle.std.specs.Prelude.{◌≡◌, List, ℕ, ◌≤◌, length};
ghost use Rattle.std.proofs.Math.Option.{some};
ghost use Rattle.schema_text.specs.Rows.{refusal_line, answer_text};
ghost use Rattle.schema_text.specs.Making.{made, made_in, most_refusal_bytes, most_bytes};

use crate::rows::rows_text;
use refusal::{Refusal, short_output};
use text::REFUSAL_ROOM;

// Makes the text of the rows, whose numbers are lent, or of the refusal, and answers how many bytes of the buffer it takes.
// Where the numbers are too few or the buffer is too short, nothing is written.
pub fn answer_text(
    resolved: Result<usize, Refusal>,
    rows: &[u32],
    out: &mut [u8],
) -> Result<usize, Refusal>
    ensures value { result ≡ made (answer_text resolved rows.now) (length out.old) }
    ensures out_after { out.new ≡ made_in (answer_text resolved rows.now) out.old }
    ensures by_index { (text : List ℕ) → answer_text resolved rows.now ≡ some text → length text ≤ most_bytes resolved }
{
    match resolved {
        Ok(total) => rows_text(rows, total, out),
        Err(refusal) => refusal_text(refusal, out),
    }
}

// Makes the line of a refusal.
fn refusal_text(refusal: Refusal, out: &mut [u8]) -> Result<usize, Refusal>
    ensures value { result ≡ made (some (refusal_line refusal)) (length out.old) }
    ensures out_after { out.new ≡ made_in (some (refusal_line refusal)) out.old }
    ensures refusal_len_bound { length (refusal_line refusal) ≤ most_refusal_bytes }
{
    let mut line = [0u8; REFUSAL_ROOM];
    let end = text::put_refusal(&mut line, 0, refusal);
    let count = text::put(&mut line, end, b"\n");
    let next = text::put(out, 0, &line[..count]);
    if next > out.len() {
        return Err(short_output());
    }
    Ok(next)
}
