// A sheet whose slots claim rightly, and a node of it.
ghost use Rattle.std.specs.Prelude.{◌≡◌, ◌<◌};
ghost use Rattle.sheet.specs.Block.{total_of};
ghost use Rattle.tree.specs.Steps.{Claimed, Visited};
ghost use Rattle.tree.specs.Facts.{claimed_prop, visited_prop};

use sheet::Slot;

// The bytes of a sheet whose slots claim rightly.
#[derive(Clone, Copy)]
pub(crate) struct Sheet<'a> {
    pub(crate) bytes: &'a [u8],
    ghost claimed: { Claimed bytes.now } by { claimed_prop bytes.now },
}

// The sheet, the node's number and the numbers of its slot. It is handed on by value: by reference it was 2 to 5 instructions a node
// more, 3 to 8 in a thousand.
#[derive(Clone, Copy)]
pub(crate) struct Node<'a> {
    pub(crate) sheet: Sheet<'a>,
    pub(crate) at: usize,
    pub(crate) slot: Slot,
    ghost visited: { Visited sheet.bytes.now at slot } by { visited_prop sheet.bytes.now at slot },
}

// The node at a number.
pub(crate) fn node_at(sheet: Sheet<'_>, at: usize) -> Node<'_>
    requires { at < total_of sheet.bytes.now }
    ensures sheet_same { result.sheet.bytes.now ≡ sheet.entry.bytes.now }
    ensures at_same { result.at ≡ at }
    ensures visited { Visited sheet.entry.bytes.now at result.slot }
{
    Node {
        sheet,
        at,
        slot: sheet::slot_at(sheet.bytes, at),
    }
}
