// Where the tree of each node of a sheet ends: at the number of its next sibling, if it has one.
ghost use Rattle.std.specs.Prelude.{◌≡◌, suc, ◌+◌, ◌<◌, length};
ghost use Rattle.sheet.specs.Block.{total_of, most_nodes};
ghost use Rattle.sheet.specs.Slot.{slots};
ghost use Rattle.tree.specs.Tree.{size};
ghost use Rattle.tree.specs.Steps.{Claimed, tree_at};
ghost use Rattle.matching.specs.Steps.{EndsFrom, Ends};

// Writes the end of each node's tree, the last node's first: the fields of a node stand behind it.
pub(crate) fn write_ends(sheet: &[u8], total: usize, ends: &mut [u16])
    requires claimed { Claimed sheet.now }
    requires total_value { total ≡ total_of sheet.now }
    requires ends_len { length ends.old ≡ most_nodes }
    ensures { Ends sheet.now ends.new }
{
    for node in (0..total).rev() {
        ends[node] = end_of(sheet, node, ends) as u16;
    }
}

// The end of a node's tree, where those of all nodes behind it are known.
fn end_of(sheet: &[u8], node: usize, ends: &[u16]) -> usize
    requires claimed { Claimed sheet.now }
    requires node_bound { node < total_of sheet.now }
    requires ends_from { EndsFrom sheet.now (suc node) ends.now }
    ensures { result ≡ node + size (tree_at (slots sheet.now) node) }
{
    let s = sheet::slot_at(sheet, node);
    let mut at = node + 1;
    for _passed in 0..s.children {
        at = ends[at] as usize;
    }
    at
}
