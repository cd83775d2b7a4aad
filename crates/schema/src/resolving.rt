// A sheet resolved into rows.
ghost use Rattle.std.specs.Prelude.{◌≡◌, ◌*◌, ◌<◌, length};
ghost use Rattle.schema.specs.Outcome.{outcome, written};

use crate::roles::Parent;
use crate::rows::{ROW_WIDTH, write_run};
use refusal::{Refusal, short_output};
use tree::{ALLOWED_DEPTHS, judge};

// Judges a sheet in an edition and writes its rows, eleven numbers for each node in listing order, and answers the number of nodes. Where the sheet is refused or fewer numbers
// are lent than its rows need, nothing is written.
pub fn resolve(edition: u32, sheet: &[u8], rows: &mut [u32]) -> Result<usize, Refusal>
    ensures value { result ≡ outcome edition sheet.now (length rows.old) }
    ensures rows_after { rows.new ≡ written (outcome edition sheet.now (length rows.old)) sheet.now rows.old }
{
    let total = judge(edition, sheet)?;
    if rows.len() < ROW_WIDTH * total {
        return Err(short_output());
    }
    write_run(sheet, rows, 0, 1, ALLOWED_DEPTHS, 0, Parent::Other, 0, 0);
    Ok(total)
}
