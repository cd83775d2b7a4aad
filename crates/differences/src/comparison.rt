// Two sheets compared in an edition.
ghost use Rattle.std.specs.Prelude.{◌≡◌, length, take, Ok};
ghost use Rattle.differences.specs.Outcome.{list_for, answer, compare_outcome, compare_written};
ghost use Rattle.differences.specs.Steps.{Self, Comparable, Numbered, Lists, Marks, Puts};

use crate::entries::ENTRY_SIZE;
use crate::marks::mark;
use crate::nodes::{put_first, put_second};
use edition::is_known;
use matching::{Matching, match_sheets};
use refusal::{FIRST, Fault, NEITHER, short_output, unknown_edition};
use sheet::MOST_NODES;
use tree::judge;

// Compares two sheets in an edition and writes the list of their differences, and answers how many entries it has, or the refusal, with
// the sheet at fault. Where either sheet is refused, or the list does not fit the output, nothing is written.
pub fn compare(edition: u32, first: &[u8], second: &[u8], out: &mut [u8]) -> Result<usize, Fault>
    ensures value { result ≡ compare_outcome edition first.now second.now (length out.old) }
    ensures out_after { out.new ≡ compare_written (compare_outcome edition first.now second.now (length out.old)) first.now second.now out.old }
{
    if first == second {
        return compare_same(edition, first);
    }
    compare_nodes(edition, first, second, out)
}

// What comparing a sheet with itself answers: it is judged once, and has no differences.
fn compare_same(edition: u32, sheet: &[u8]) -> Result<usize, Fault>
    ensures { Self edition sheet.now result }
{
    if !is_known(edition) {
        return Err(Fault {
            side: NEITHER,
            refusal: unknown_edition(),
        });
    }
    judge(edition, sheet).map_err(|refusal| Fault {
        side: FIRST,
        refusal,
    })?;
    Ok(0)
}

// Compares two sheets node by node.
fn compare_nodes(edition: u32, first: &[u8], second: &[u8], out: &mut [u8]) -> Result<usize, Fault>
    ensures value { result ≡ compare_outcome edition first.now second.now (length out.old) }
    ensures out_after { out.new ≡ compare_written (compare_outcome edition first.now second.now (length out.old)) first.now second.now out.old }
{
    let matching = match_sheets(edition, first, second)?;
    list(first, second, &matching, out)
}

// Writes the list of two sheets, where what matches is known.
fn list(first: &[u8], second: &[u8], matching: &Matching, out: &mut [u8]) -> Result<usize, Fault>
    requires { Comparable first.now second.now matching.now.totals.first matching.now.totals.second matching.now.matches }
    ensures value { result ≡ answer (Ok matching.now.totals) (length (list_for first.now second.now)) (length out.old) }
    ensures out_after { out.new ≡ compare_written result first.now second.now out.old }
{
    let mut marks = [false; MOST_NODES];
    mark(&matching.matches, matching.totals.first, &mut marks);
    let entries = put_list(first, second, matching, &marks, &mut out[0..0]);
    if entries == 0 {
        return Ok(0);
    }
    if out.len() < ENTRY_SIZE * entries {
        return Err(Fault {
            side: NEITHER,
            refusal: short_output(),
        });
    }
    put_list(first, second, matching, &marks, out);
    Ok(entries)
}

// Puts the entries of all nodes, as far as there is room for them, and answers how many there are.
fn put_list(
    first: &[u8],
    second: &[u8],
    matching: &Matching,
    marks: &[bool],
    out: &mut [u8],
) -> usize
    requires numbered { Numbered first.now second.now matching.now.totals.first matching.now.totals.second matching.now.matches }
    requires lists { Lists first.now second.now matching.now.totals.first matching.now.matches }
    requires marks { Marks (take matching.now.totals.first matching.now.matches) marks.now }
    ensures { Puts out.old 0 (list_for first.now second.now) out.new result }
{
    let entries = put_first(first, second, matching, out);
    put_second(second, matching.totals.second, marks, out, entries)
}
