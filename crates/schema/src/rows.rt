// The rows of a tree, written from a node to its run and back, while depths and nodes are left.
ghost use Rattle.std.specs.Prelude.{◌≡◌, List, suc, ◌+◌, ◌*◌, ◌≤◌, ◌<◌, length, drop};
ghost use Rattle.sheet.specs.Block.{total_of};
ghost use Rattle.sheet.specs.Slot.{slots, slot_at};
ghost use Rattle.tree.specs.Tree.{Tree, count as Tree·count, size, depths, run_depths, most_depth};
ghost use Rattle.schema.specs.Rows.{row_width, rows_from, run_rows_from, parent_by};
ghost use Rattle.tree.specs.Reading.{trees};
ghost use Rattle.tree.specs.Steps.{Claimed, tree_at, run_at, sizes, depth_at};
ghost use Rattle.laws.specs.Stretches.{stretched};
ghost use Rattle.schema.specs.Steps.{HasLevels, LevelsAtMost, NoneTooDeep, role_number, row_numbers};

use crate::levels::{in_definition, in_repetition};
use crate::roles::{Parent, Role, after_first, is_map_parent, parent_by, role_of};
use tree::annotated;

// How many numbers a row has.
pub const ROW_WIDTH: usize = 11;

// Where a row's end stands in it.
const END: usize = 7;

// A node's row.
#[derive(Clone, Copy)]
struct Row {
    physical: u32,
    type_length: u32,
    repetition: u32,
    kind: u32,
    p1: u32,
    p2: u32,
    parent: u32,
    end: u32,
    role: u32,
    definition_level: u32,
    repetition_level: u32,
}

// Writes the rows of the run of so many fields at a number, one field after the other, with so many depths allowed, under the
// node at `parent_at`, which has this definition and this repetition level, and answers where the next tree stands.
// Those are four parameters: one struct of them was tried in their place, on this code as Rust: 5 to 15 instructions a node more, 1 to 4
// in a hundred.
// The sheet and the rows stay two: the rows are lent to be written, and a struct of both would state each clause through what it lends.
// The clauses stand at each function of the cycle: the numbers that they bound change from call to call, and `tree`'s struct of a sheet
// that claims rightly is its own, since to build one a caller must show that, which no public function asks.
#[cycle(writing)]
pub(crate) fn write_run(
    sheet: &[u8],
    rows: &mut [u32],
    start: usize,
    count: usize,
    allowed: usize,
    parent_at: usize,
    parent: Parent,
    definition_level: u32,
    repetition_level: u32,
) -> usize
    requires claimed { Claimed sheet.now }
    requires count_bound { count ≤ Tree·count (trees (drop start (slots sheet.now))) }
    requires parent_at_bound { parent_at < total_of sheet.now }
    requires sheet_in_bounds { row_width * total_of sheet.now ≤ length rows.old }
    requires levels_at_most { LevelsAtMost start definition_level repetition_level }
    requires allowed_bound { allowed ≤ suc most_depth }
    requires none_too_deep { NoneTooDeep (run_depths (depth_at allowed) (run_at (slots sheet.now) start count)) }
    ensures value { result ≡ start + sizes (run_at (slots sheet.now) start count) }
    ensures rows_after { (path : List Tree) → HasLevels path definition_level repetition_level → rows.new ≡ stretched rows.old (row_width * start) (run_rows_from start parent_at parent (slot_at sheet.now parent_at) path (run_at (slots sheet.now) start count)) }
{
    let mut at = start;
    let mut above = parent;
    for _field in 0..count {
        at = write_tree(
            sheet,
            rows,
            at,
            allowed,
            parent_at,
            above,
            definition_level,
            repetition_level,
        );
        above = after_first(above);
    }
    at
}

// Writes the rows of the tree at a number, with so many depths allowed, under the parent, which has this definition and this
// repetition level, and answers where the next tree stands.
#[cycle(writing)]
fn write_tree(
    sheet: &[u8],
    rows: &mut [u32],
    at: usize,
    allowed: usize,
    parent_at: usize,
    parent: Parent,
    definition_level: u32,
    repetition_level: u32,
) -> usize
    requires claimed { Claimed sheet.now }
    requires at_bound { at < total_of sheet.now }
    requires parent_at_bound { parent_at < total_of sheet.now }
    requires sheet_in_bounds { row_width * total_of sheet.now ≤ length rows.old }
    requires levels_at_most { LevelsAtMost at definition_level repetition_level }
    requires allowed_bound { allowed ≤ suc most_depth }
    requires none_too_deep { NoneTooDeep (depths (depth_at allowed) (tree_at (slots sheet.now) at)) }
    ensures value { result ≡ at + size (tree_at (slots sheet.now) at) }
    ensures rows_after { (path : List Tree) → HasLevels path definition_level repetition_level → rows.new ≡ stretched rows.old (row_width * at) (rows_from at parent_at parent (slot_at sheet.now parent_at) path (tree_at (slots sheet.now) at)) }
{
    let s = sheet::slot_at(sheet, at);
    let n = annotated(s);
    let kind = annotation::resolved_kind(n, is_map_parent(parent));
    let own = role_of(sheet, parent_at, at, s, parent);
    let own_definition = definition_level + in_definition(s.repetition);
    let own_repetition = repetition_level + in_repetition(s.repetition);
    let base = ROW_WIDTH * at;
    write_row(
        rows,
        base,
        Row {
            physical: s.physical as u32,
            type_length: annotation::type_length(n),
            repetition: s.repetition as u32,
            kind: kind.kind,
            p1: kind.p1,
            p2: kind.p2,
            parent: parent_at as u32,
            // It is known once the fields are written.
            end: 0,
            role: own.number(),
            definition_level: own_definition,
            repetition_level: own_repetition,
        },
    );
    let next = write_fields(
        sheet,
        rows,
        at + 1,
        s.children as usize,
        allowed - 1,
        at,
        kind.kind,
        own,
        own_definition,
        own_repetition,
    );
    rows[base + END] = next as u32;
    next
}

// Writes the rows of the run of so many fields at a number, with so many depths allowed, under the parent of some kind, role,
// definition and repetition level, and answers where the next tree stands: most nodes have no field, and are written without a call.
#[cycle(writing)]
fn write_fields(
    sheet: &[u8],
    rows: &mut [u32],
    at: usize,
    count: usize,
    allowed: usize,
    parent_at: usize,
    kind: u32,
    own: Role,
    definition_level: u32,
    repetition_level: u32,
) -> usize
    requires claimed { Claimed sheet.now }
    requires count_bound { count ≤ Tree·count (trees (drop at (slots sheet.now))) }
    requires parent_at_bound { parent_at < total_of sheet.now }
    requires sheet_in_bounds { row_width * total_of sheet.now ≤ length rows.old }
    requires levels_at_most { LevelsAtMost at definition_level repetition_level }
    requires allowed_bound { allowed ≤ suc most_depth }
    requires none_too_deep { NoneTooDeep (run_depths (depth_at allowed) (run_at (slots sheet.now) at count)) }
    ensures value { result ≡ at + sizes (run_at (slots sheet.now) at count) }
    ensures rows_after { (path : List Tree) → HasLevels path definition_level repetition_level → rows.new ≡ stretched rows.old (row_width * at) (run_rows_from at parent_at (parent_by kind (role_number own)) (slot_at sheet.now parent_at) path (run_at (slots sheet.now) at count)) }
{
    if count == 0 {
        return at;
    }
    write_run(
        sheet,
        rows,
        at,
        count,
        allowed,
        parent_at,
        parent_by(kind, own),
        definition_level,
        repetition_level,
    )
}

// Writes a row's numbers from base on.
// Copied from an array of them by `copy_from_slice` they took some 30 instructions a node more, 7 to 9 in a hundred.
fn write_row(rows: &mut [u32], base: usize, row: Row)
    requires { base + row_width ≤ length rows.old }
    ensures { rows.new ≡ stretched rows.old base (row_numbers row) }
{
    rows[base] = row.physical;
    rows[base + 1] = row.type_length;
    rows[base + 2] = row.repetition;
    rows[base + 3] = row.kind;
    rows[base + 4] = row.p1;
    rows[base + 5] = row.p2;
    rows[base + 6] = row.parent;
    rows[base + 7] = row.end;
    rows[base + 8] = row.role;
    rows[base + 9] = row.definition_level;
    rows[base + 10] = row.repetition_level;
}
