// Which nodes of the second sheet are matched.
ghost use Rattle.std.specs.Prelude.{◌≡◌, false, ◌≤◌, length, take, replicate};
ghost use Rattle.sheet.specs.Block.{most_nodes};
ghost use Rattle.matching.specs.Steps.{NodeNamed, Named};
ghost use Rattle.differences.specs.Steps.{Marks, marked};

use matching::Match;

// Marks each node of the second sheet that one of the first so many nodes of the first matches.
pub(crate) fn mark(matches: &[Option<Match>], nodes: usize, marks: &mut [bool])
    requires named { Named most_nodes matches.now }
    requires nodes_le_most_nodes { nodes ≤ most_nodes }
    requires marks_value { marks.old ≡ replicate most_nodes false }
    ensures { Marks (take nodes matches.now) marks.new }
{
    for matched in &matches[..nodes] {
        mark_one(*matched, marks);
    }
}

// Marks the node that is matched, if one is.
fn mark_one(matched: Option<Match>, marks: &mut [bool])
    requires { NodeNamed (length marks.old) matched }
    ensures { marks.new ≡ marked marks.old matched }
{
    if let Some(found) = matched {
        marks[found.number as usize] = true;
    }
}
