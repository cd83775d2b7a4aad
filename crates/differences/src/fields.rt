// The fields of two matched nodes' slots, and their places among their siblings.
ghost use Rattle.std.specs.Prelude.{◌≡◌, cond, [], ◌∷◌, ◌+◌, ◌^◌, ◌≤◌, ◌<◌, length};
ghost use Rattle.sheet.specs.Block.{slot_size, most_nodes};
ghost use Rattle.sheet.specs.Name.{same_bytes};
ghost use Rattle.differences.specs.Entry.{slot_fields, entry};
ghost use Rattle.differences.specs.Differences.{content, field_entries, place_entries};
ghost use Rattle.differences.specs.Steps.{Puts, IsWhole, field_of};

use crate::entries::{Entry, put_entry};
use matching::Match;

// The code of places. Codes stay bytes, as they are written: a field's is its first byte in the slot.
const PLACES: u8 = 72;

// A field of a slot: its code, which is its first byte, and how many bytes it has.
#[derive(Clone, Copy)]
pub struct Field {
    pub code: usize,
    pub width: usize,
}

// All of them, codes rising.
const FIELDS: [Field; 12] = [
    Field { code: 0, width: 1 },
    Field { code: 1, width: 1 },
    Field { code: 2, width: 1 },
    Field { code: 3, width: 1 },
    Field { code: 4, width: 1 },
    Field { code: 5, width: 1 },
    Field { code: 6, width: 2 },
    Field { code: 8, width: 4 },
    Field { code: 12, width: 4 },
    Field { code: 16, width: 4 },
    Field { code: 20, width: 1 },
    Field {
        code: 24,
        width: 48,
    },
];

// Puts an entry for each field in which the slots of two matched nodes differ, the first of this number.
pub(crate) fn put_fields(
    node: usize,
    ours: &[u8],
    theirs: &[u8],
    out: &mut [u8],
    entries: usize,
) -> usize
    requires node_lt_most_nodes { node < most_nodes }
    requires whole { IsWhole ours.now }
    requires whole_2 { IsWhole theirs.now }
    requires entries_bound { entries + 12 < 2 ^ 32 }
    ensures { Puts out.old entries (field_entries node ours.now theirs.now slot_fields) out.new result }
{
    if ours == theirs {
        return entries;
    }
    let mut count = entries;
    for field in &FIELDS {
        count = put_field(*field, node, ours, theirs, out, count);
    }
    count
}

// Puts an entry for a field, where the slots differ in it.
fn put_field(
    field: Field,
    node: usize,
    ours: &[u8],
    theirs: &[u8],
    out: &mut [u8],
    entries: usize,
) -> usize
    requires width_bound { field.code + field.width ≤ slot_size }
    requires node_lt_most_nodes { node < most_nodes }
    requires whole { IsWhole ours.now }
    requires whole_2 { IsWhole theirs.now }
    requires entries_bound { entries < 2 ^ 32 }
    ensures { Puts out.old entries (cond (same_bytes (content (field_of field) ours.now) (content (field_of field) theirs.now)) [] (entry field.code node (content (field_of field) ours.now) (content (field_of field) theirs.now) ∷ [])) out.new result }
{
    let start = field.code;
    let end = start + field.width;
    let our = &ours[start..end];
    let their = &theirs[start..end];
    if our == their {
        return entries;
    }
    let told = Entry {
        code: start as u8,
        node: node as u16,
        first: our,
        second: their,
    };
    put_entry(&told, out, entries)
}

// Puts an entry for the places of two matched nodes among their siblings, where they differ.
pub(crate) fn put_places(node: usize, matched: Match, out: &mut [u8], entries: usize) -> usize
    requires node_lt_most_nodes { node < most_nodes }
    requires entries_bound { entries < 2 ^ 32 }
    ensures { Puts out.old entries (place_entries node matched) out.new result }
{
    if matched.place == matched.other {
        return entries;
    }
    let told = Entry {
        code: PLACES,
        node: node as u16,
        first: &matched.place.to_le_bytes(),
        second: &matched.other.to_le_bytes(),
    };
    put_entry(&told, out, entries)
}
