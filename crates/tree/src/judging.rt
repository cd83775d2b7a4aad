// A tree judged by refusals 7 to 13: from a node to its run and back, while depths and nodes are left.
ghost use Rattle.std.specs.Prelude.{◌≡◌, suc, ◌≤◌, ◌<◌, drop, [], ◌∷◌};
ghost use Rattle.sheet.specs.Block.{total_of, most_nodes};
ghost use Rattle.sheet.specs.Slot.{slots};
ghost use Rattle.tree.specs.Tree.{count as Tree·count, most_depth};
ghost use Rattle.tree.specs.Reading.{trees};
ghost use Rattle.tree.specs.Steps.{tree_at, run_at, nothing_found, judged_tree, judged_run, first_of, fault_from, broken_number};

use crate::faults::{Rule, broken_with_13};
use crate::node::{Sheet, node_at};
use crate::slots::annotated;
use crate::standing::{Standing, standing_under, under_map};

// Depths that a tree may have: 0 to 32.
pub const ALLOWED_DEPTHS: usize = 33;

// A fault is one number, so that it is handed on in a register: a rule's number counts so much in it, and the number of the node
// that breaks the rule stands below. An `Option` of a refusal was tried in its place, on this code as Rust: 9 to 17 instructions a node
// more, 2 to 4 in a hundred.
pub(crate) const RULE_WEIGHT: u32 = 0x100_0000;

pub(crate) const NO_FAULT: u32 = 0;

// The first node of a tree or of a run that is deeper than a node may be.
#[derive(Clone, Copy)]
pub struct TooDeep {
    pub node: usize,
}

// What judging a tree finds: where the next tree and the root's last field stand, and the first fault.
#[derive(Clone, Copy)]
pub struct TreeFound {
    pub next: usize,
    pub last: usize,
    pub fault: u32,
}

// What judging a run finds: the same of its last field, with where the last field of that field stands.
#[derive(Clone, Copy)]
pub struct RunFound {
    pub next: usize,
    pub last: usize,
    pub inner: usize,
    pub fault: u32,
}

// Judges the run of so many fields at a number, one after the other.
#[cycle(judging)]
pub(crate) fn judge_run(
    edition: u32,
    sheet: Sheet<'_>,
    start: usize,
    count: usize,
    allowed: usize,
    standing: Standing,
) -> Result<RunFound, TooDeep>
    requires count_bound { count ≤ Tree·count (trees (drop start (slots sheet.bytes.now))) }
    requires allowed_bound { allowed ≤ suc most_depth }
    ensures { result ≡ judged_run edition start allowed standing (run_at (slots sheet.entry.bytes.now) start count) }
{
    let mut run = nothing_found(start);
    for _field in 0..count {
        let tree = judge_tree(edition, sheet, run.next, allowed, standing)?;
        run = RunFound {
            next: tree.next,
            last: run.next,
            inner: tree.last,
            fault: first_of(run.fault, tree.fault),
        };
    }
    Ok(run)
}

// Judges the tree at a number, its root's standing known, with so many depths allowed.
#[cycle(judging)]
fn judge_tree(
    edition: u32,
    sheet: Sheet<'_>,
    at: usize,
    allowed: usize,
    standing: Standing,
) -> Result<TreeFound, TooDeep>
    requires at_bound { at < total_of sheet.bytes.now }
    requires allowed_bound { allowed ≤ suc most_depth }
    ensures { result ≡ judged_tree edition at allowed standing (tree_at (slots sheet.entry.bytes.now) at) }
{
    if allowed == 0 {
        return Err(TooDeep { node: at });
    }
    let node = node_at(sheet, at);
    let judged = annotation::judge(edition, annotated(node.slot), under_map(standing));
    let below = standing_under(judged.logical);
    let least = node.broken_to_12(standing, judged);
    let run = judge_fields(
        edition,
        sheet,
        at + 1,
        node.slot.children as usize,
        allowed - 1,
        below,
    )?;
    let own = broken_with_13(sheet, at, below, least, run.inner);
    Ok(TreeFound {
        next: run.next,
        last: run.last,
        fault: own_first(own, at, run.fault),
    })
}

// Judges the run of so many fields at a number: most nodes have none, and are judged without a call.
#[cycle(judging)]
fn judge_fields(
    edition: u32,
    sheet: Sheet<'_>,
    at: usize,
    count: usize,
    allowed: usize,
    standing: Standing,
) -> Result<RunFound, TooDeep>
    requires count_bound { count ≤ Tree·count (trees (drop at (slots sheet.bytes.now))) }
    requires allowed_bound { allowed ≤ suc most_depth }
    ensures { result ≡ judged_run edition at allowed standing (run_at (slots sheet.entry.bytes.now) at count) }
{
    if count == 0 {
        return Ok(nothing_found(at));
    }
    judge_run(edition, sheet, at, count, allowed, standing)
}

// What is found of a run before its first field, which stands at a number.
fn nothing_found(at: usize) -> RunFound
    ensures { result ≡ nothing_found at }
{
    RunFound {
        next: at,
        last: at,
        inner: at,
        fault: NO_FAULT,
    }
}

// The first fault of two.
fn first_of(fault: u32, later: u32) -> u32
    ensures { result ≡ first_of fault later }
{
    if fault == NO_FAULT {
        return later;
    }
    fault
}

// The fault of a node that breaks a rule, or none, before those of its run.
fn own_first(own: Result<(), Rule>, at: usize, fault: u32) -> u32
    requires { at < most_nodes }
    ensures { result ≡ first_of (fault_from at (broken_number own ∷ [])) fault }
{
    match own {
        Ok(()) => fault,
        Err(rule) => RULE_WEIGHT * rule.number() + at as u32,
    }
}
