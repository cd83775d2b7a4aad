// A sheet as the text that document 01's program prints.
ghost use Rattle.std.specs.Prelude.{◌≡◌, take, drop};
ghost use Rattle.io.specs.Counts.{IsPrefixLen};
ghost use Rattle.schema.specs.Outcome.{outcome, written};
ghost use Rattle.schema_text.specs.Printed.{most_numbers, printed};

use crate::answers::answer_text;
use schema::ROW_WIDTH;

// The most nodes that a sheet has.
const MOST_NODES: usize = 896;

// The most bytes that a number of a row takes: ten digits, and the space or the line's end after them.
const NUMBER_BYTES: usize = 11;

// Room for the first line, `nodes 896`.
const HEADER_BYTES: usize = 16;

// As many numbers as the rows of any sheet have.
pub const MOST_NUMBERS: usize = ROW_WIDTH * MOST_NODES;

// As many bytes as the text of any sheet takes.
pub const MOST_TEXT_BYTES: usize = NUMBER_BYTES * MOST_NUMBERS + HEADER_BYTES;

// Resolves a sheet in an edition into rows and makes the text that is printed of it, and answers the text's length.
pub fn sheet_text(
    edition: u32,
    sheet: &[u8],
    rows: &mut [u32; MOST_NUMBERS],
    out: &mut [u8; MOST_TEXT_BYTES],
) -> usize
    ensures prefix_len { IsPrefixLen result out.new }
    ensures out_after { take result out.new ≡ printed edition sheet.now }
    ensures out_unchanged { drop result out.new ≡ drop result out.old }
    ensures rows_after { rows.new ≡ written (outcome edition sheet.now most_numbers) sheet.now rows.old }
{
    let resolved = schema::resolve(edition, sheet, rows);
    let made = answer_text(resolved, rows, out);
    match made {
        Ok(count) => count,
        // There is room for the rows of any sheet and for their text.
        Err(_) => 0,
    }
}
