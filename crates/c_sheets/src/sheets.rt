// A sheet resolved and rewritten, and two compared, in an edition.
ghost use Rattle.std.specs.Prelude.{◌≡◌, length};
ghost use Rattle.sheet.specs.Block.{most_bytes, most_nodes};
ghost use Rattle.refusal.specs.Numbers.{GREATEST};
ghost use Rattle.schema.specs.Outcome.{outcome, written};
ghost use Rattle.schema.specs.Rewriting.{rewrite_outcome, rewrite_written};
ghost use Rattle.differences.specs.Outcome.{compare_outcome, compare_written};
ghost use Rattle.c_answer.specs.Answers.{counted_answer};
ghost use Rattle.refusal.specs.Bounds.{CountedBounded};
ghost use Rattle.c_sheets.specs.Comparison.{compared_answer};

use c_answer::{RESULT, faulted, packed, refused};
use refusal::Refusal;

// Resolves a sheet into rows. The value is T, the number of its nodes.
pub fn resolve(edition: u32, sheet: &[u8], rows: &mut [u32]) -> u64
    ensures value { result ≡ counted_answer (outcome edition sheet.now (length rows.old)) }
    ensures rows_after { rows.new ≡ written (outcome edition sheet.now (length rows.old)) sheet.now rows.old }
{
    answered(schema::resolve(edition, sheet, rows))
}

// Rewrites a sheet with both annotations into the output from start on. The value is the number of bytes written.
pub fn rewrite(edition: u32, sheet: &[u8], out: &mut [u8], start: usize) -> u64
    ensures value { result ≡ counted_answer (rewrite_outcome edition sheet.now (length out.old) start) }
    ensures out_after { out.new ≡ rewrite_written (rewrite_outcome edition sheet.now (length out.old) start) sheet.now out.old start }
{
    answered(schema::rewrite(edition, sheet, out, start))
}

// Compares two sheets and writes the list of their differences. The value is the number of its entries. A refusal has besides the sheet
// at fault: 1 or 2, and 0 for neither.
pub fn compare(edition: u32, first: &[u8], second: &[u8], out: &mut [u8]) -> u64
    ensures value { result ≡ compared_answer (compare_outcome edition first.now second.now (length out.old)) }
    ensures out_after { out.new ≡ compare_written (compare_outcome edition first.now second.now (length out.old)) first.now second.now out.old }
{
    match differences::compare(edition, first, second, out) {
        Ok(entries) => packed(RESULT, entries as u32),
        Err(fault) => faulted(fault),
    }
}

// The answer of what is counted in a sheet, nodes or bytes.
fn answered(counted: Result<usize, Refusal>) -> u64
    requires { CountedBounded most_bytes GREATEST most_nodes counted }
    ensures { result ≡ counted_answer counted }
{
    match counted {
        Ok(count) => packed(RESULT, count as u32),
        Err(r) => refused(r),
    }
}
