// A sheet rewritten with both annotations at every node.
ghost use Rattle.std.specs.Prelude.{◌≡◌, false, length};
ghost use Rattle.sheet.specs.Block.{total_of};
ghost use Rattle.sheet.specs.Slot.{slots, slot_at};
ghost use Rattle.annotation.specs.Rewriting.{written_of};
ghost use Rattle.tree.specs.Annotated.{annotated};
ghost use Rattle.schema.specs.Rewriting.{with_rewriting, with_rewritings, rewritten, rewrite_outcome, rewrite_written};
ghost use Rattle.schema.specs.Steps.{AcceptedOf, is_written_map, written_in_order};

use parquet::logical;
use refusal::{Refusal, short_output};
use tree::{annotated, judge};

// Judges a sheet in an edition and writes it, with both annotations at every node, into the output from start on, and answers how many bytes.
// Where the sheet is refused, the start lies beyond the output's end or the sheet does not fit behind it, nothing is written.
pub fn rewrite(edition: u32, sheet: &[u8], out: &mut [u8], start: usize) -> Result<usize, Refusal>
    ensures value { result ≡ rewrite_outcome edition sheet.now (length out.old) start }
    ensures out_after { out.new ≡ rewrite_written (rewrite_outcome edition sheet.now (length out.old) start) sheet.now out.old start }
{
    let total = judge(edition, sheet)?;
    if out.len() < start {
        return Err(short_output());
    }
    if out.len() - start < sheet.len() {
        return Err(short_output());
    }
    let end = start + sheet.len();
    write_sheet(sheet, &mut out[start..end], total);
    Ok(sheet.len())
}

// Writes the rewritten sheet of one that some edition accepts, which has so many nodes, into an output of its length.
fn write_sheet(sheet: &[u8], out: &mut [u8], total: usize)
    requires accepted_of { AcceptedOf sheet.now total }
    requires out_len { length out.old ≡ length sheet.now }
    ensures { out.new ≡ rewritten sheet.now }
{
    out.copy_from_slice(sheet);
    write_nodes(sheet, out, total);
    sheet::renew_checks(out);
}

// Writes the annotations of all nodes, one after the other. Of an accepted sheet, a MAP's one child stands right behind it, and no other
// node has a MAP as its parent.
fn write_nodes(sheet: &[u8], out: &mut [u8], total: usize)
    requires { total ≡ total_of sheet.now }
    ensures { out.new ≡ with_rewritings out.old 0 (written_in_order false (slots sheet.now)) }
{
    let mut under_map = false;
    for node in 0..total {
        under_map = write_node(sheet, out, node, under_map);
    }
}

// Writes the annotations of a node, its parent a resolved MAP or not, and answers whether it is a MAP itself.
fn write_node(sheet: &[u8], out: &mut [u8], node: usize, under_map: bool) -> bool
    ensures value { result ≡ is_written_map under_map (slot_at sheet.now node) }
    ensures out_after { out.new ≡ with_rewriting out.old node (written_of (annotated (slot_at sheet.now node)) under_map) }
{
    let s = sheet::slot_at(sheet, node);
    let w = annotation::written_of(annotated(s), under_map);
    sheet::write_annotation(out, node, w.converted, w.logical, w.a, w.b);
    w.logical == logical::MAP
}
