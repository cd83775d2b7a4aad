// The entries of the first sheet's nodes, and of the second's that none matches.
ghost use Rattle.std.specs.Prelude.{◌≡◌, true, cond, [], ◌∷◌, map, ◌+◌, ◌*◌, ◌^◌, ◌≤◌, ◌<◌, length};
ghost use Rattle.sheet.specs.Block.{most_nodes};
ghost use Rattle.sheet.specs.Slot.{slots, slot_at, reaches};
ghost use Rattle.differences.specs.Entry.{entry, ONLY_SECOND as ONLY_IN_SECOND};
ghost use Rattle.differences.specs.Differences.{node_entries, first_entries};
ghost use Rattle.differences.specs.Steps.{Numbered, Reached, Names, Puts, match_in, unmarked_entries};

use crate::entries::{Entry, put_entry};
use crate::fields::{put_fields, put_places};
use matching::{Match, Matching};

// The codes of a node that is in one sheet only: bytes, as they are written, like a field's.
const ONLY_FIRST: u8 = 73;

const ONLY_SECOND: u8 = 74;

// Puts the entries of all nodes of the first sheet, in their order.
pub(crate) fn put_first(first: &[u8], second: &[u8], matching: &Matching, out: &mut [u8]) -> usize
    requires { Numbered first.now second.now matching.now.totals.first matching.now.totals.second matching.now.matches }
    ensures puts { Puts out.old 0 (first_entries (slots second.now) (map match_in matching.now.matches) 0 (slots first.now)) out.new result }
    ensures upper_bound { result ≤ 13 * most_nodes }
{
    let mut entries = 0;
    for node in 0..matching.totals.first {
        entries = put_node(first, second, node, matching.matches[node], out, entries);
    }
    entries
}

// Puts the entries of a node of the first sheet that matches this: it is only there, or the fields in which both nodes differ, and their places.
fn put_node(
    first: &[u8],
    second: &[u8],
    node: usize,
    matched: Option<Match>,
    out: &mut [u8],
    entries: usize,
) -> usize
    requires node_lt_most_nodes { node < most_nodes }
    requires node_value { reaches first.now node ≡ true }
    requires names { Names second.now matched }
    requires entries_bound { entries + 13 < 2 ^ 32 }
    ensures puts { Puts out.old entries (node_entries (slots second.now) node (slot_at first.now node) (match_in matched)) out.new result }
    ensures upper_bound { result ≤ entries + 13 }
{
    let ours = sheet::slot_bytes(first, node);
    match matched {
        None => {
            let told = Entry {
                code: ONLY_FIRST,
                node: node as u16,
                first: ours,
                second: &[],
            };
            put_entry(&told, out, entries)
        }
        Some(found) => {
            let theirs = sheet::slot_bytes(second, found.number as usize);
            let after = put_fields(node, ours, theirs, out, entries);
            put_places(node, found, out, after)
        }
    }
}

// Puts an entry for each node of the second sheet that is not marked, behind so many others.
pub(crate) fn put_second(
    second: &[u8],
    others: usize,
    marks: &[bool],
    out: &mut [u8],
    entries: usize,
) -> usize
    requires reached { Reached second.now others }
    requires marks_len { length marks.now ≡ most_nodes }
    requires entries_bound { entries ≤ 13 * most_nodes }
    ensures { Puts out.old entries (unmarked_entries marks.now 0 (slots second.now)) out.new result }
{
    let mut count = entries;
    for node in 0..others {
        count = put_other(second, node, marks[node], out, count);
    }
    count
}

// Puts an entry for a node of the second sheet, where it is not marked.
fn put_other(second: &[u8], node: usize, marked: bool, out: &mut [u8], entries: usize) -> usize
    requires node_lt_most_nodes { node < most_nodes }
    requires node_value { reaches second.now node ≡ true }
    requires entries_bound { entries < 2 ^ 32 }
    ensures puts { Puts out.old entries (cond marked [] (entry ONLY_IN_SECOND node [] (slot_at second.now node) ∷ [])) out.new result }
    ensures upper_bound { result ≤ entries + 1 }
{
    if marked {
        return entries;
    }
    let theirs = sheet::slot_bytes(second, node);
    let told = Entry {
        code: ONLY_SECOND,
        node: node as u16,
        first: &[],
        second: theirs,
    };
    put_entry(&told, out, entries)
}
