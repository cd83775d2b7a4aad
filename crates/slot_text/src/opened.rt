// What opening a sheet answers, as text.
ghost use Rattle.std.specs.Prelude.{◌≡◌, ◌≤◌, length, take, drop};
ghost use Rattle.io.specs.Counts.{IsPrefixLen};
ghost use Rattle.text.specs.Placing.{position_after, placed_text};
ghost use Rattle.text.specs.Refusals.{most_refusal};
ghost use Rattle.slot_text.specs.Opened.{opened_text, refusal_line};

use refusal::Refusal;
use text::REFUSAL_ROOM;

// Makes the line of a refusal at the start of a room, and answers how many bytes it takes: none of an opened sheet.
pub fn refusal_line(opened: Result<usize, Refusal>, out: &mut [u8; REFUSAL_ROOM]) -> usize
    ensures prefix_len { IsPrefixLen result out.new }
    ensures out_after { take result out.new ≡ refusal_line opened }
    ensures out_unchanged { drop result out.new ≡ drop result out.old }
{
    let end = put_opened(out, 0, opened);
    if end == 0 {
        return 0;
    }
    text::put(out, end, b"\n")
}

// Stores `refused N at P`; of an opened sheet nothing.
pub fn put_opened(out: &mut [u8], at: usize, opened: Result<usize, Refusal>) -> usize
    ensures value { result ≡ position_after (length out.old) at (opened_text opened) }
    ensures out_after { out.new ≡ placed_text out.old at (opened_text opened) }
    ensures opened_len_bound { length (opened_text opened) ≤ most_refusal }
{
    match opened {
        Ok(_) => text::put(out, at, b""),
        Err(r) => text::put_refusal(out, at, r),
    }
}
