// Two sheets judged in an edition, and their nodes matched.
ghost use Rattle.std.specs.Prelude.{◌≡◌};
ghost use Rattle.sheet.specs.Block.{total_of};
ghost use Rattle.tree.specs.Judgement.{judgement_of};
ghost use Rattle.matching.specs.Outcome.{laid_on, matched_of, matches_of, matching_of};
ghost use Rattle.matching.specs.Steps.{OneTree};

use crate::ends::write_ends;
use crate::fields::{Match, Taken};
use crate::heads::{HEADS, NO_HEAD};
use crate::prints::write_prints;
use crate::sides::Side;
use edition::is_known;
use refusal::{FIRST, Fault, NEITHER, Refusal, SECOND, unknown_edition};
use sheet::MOST_NODES;
use tree::judge;

// How many nodes two sheets have, the first and the second.
#[derive(Clone, Copy)]
pub struct Totals {
    pub first: usize,
    pub second: usize,
}

// How many nodes both sheets have, and what each node of the first matches, if it matches one. Behind the last node's stands nothing.
#[derive(Drop)]
pub struct Matching {
    pub totals: Totals,
    pub matches: [Option<Match>; MOST_NODES],
}

// The root matches the root, which has number and place 0.
const ROOT: Match = Match {
    number: 0,
    place: 0,
    other: 0,
};

// Judges two sheets in an edition and matches their nodes, or answers the refusal, with the sheet at fault.
pub fn match_sheets(edition: u32, first: &[u8], second: &[u8]) -> Result<Matching, Fault>
    ensures { result ≡ matching_of edition first.now second.now }
{
    let totals = judge_both(edition, first, second)?;
    Ok(Matching {
        totals,
        matches: match_nodes(first, second, totals),
    })
}

// Refusal 21, then those of the first sheet, then those of the second.
fn judge_both(edition: u32, first: &[u8], second: &[u8]) -> Result<Totals, Fault>
    ensures { result ≡ matched_of edition first.now second.now }
{
    if !is_known(edition) {
        return Err(Fault {
            side: NEITHER,
            refusal: unknown_edition(),
        });
    }
    Ok(Totals {
        first: judged(edition, first, FIRST)?,
        second: judged(edition, second, SECOND)?,
    })
}

// How many nodes a sheet has, or its refusal, laid on this side.
fn judged(edition: u32, sheet: &[u8], side: u8) -> Result<usize, Fault>
    ensures { result ≡ laid_on side (judgement_of edition sheet.now) }
{
    judge(edition, sheet).map_err(|refusal| Fault { side, refusal })
}

// What each node of the first sheet matches: the root the root, then node by node what the node's fields do.
fn match_nodes(first: &[u8], second: &[u8], totals: Totals) -> [Option<Match>; MOST_NODES]
    requires one_tree { OneTree first.now }
    requires one_tree_2 { OneTree second.now }
    requires nodes_value { totals.first ≡ total_of first.now }
    requires others_value { totals.second ≡ total_of second.now }
    ensures { result ≡ matches_of first.now second.now }
{
    let mut first_ends = [0u16; MOST_NODES];
    let mut second_ends = [0u16; MOST_NODES];
    let mut first_prints = [0u32; MOST_NODES];
    let mut second_prints = [0u32; MOST_NODES];
    write_ends(first, totals.first, &mut first_ends);
    write_ends(second, totals.second, &mut second_ends);
    write_prints(first, totals.first, &mut first_prints);
    write_prints(second, totals.second, &mut second_prints);
    let ours = Side {
        sheet: first,
        ends: &first_ends,
        prints: &first_prints,
    };
    let theirs = Side {
        sheet: second,
        ends: &second_ends,
        prints: &second_prints,
    };
    let mut taken = Taken {
        takers: [0u16; MOST_NODES],
        heads: [NO_HEAD; HEADS],
        matches: [None; MOST_NODES],
    };
    taken.matches[0] = Some(ROOT);
    taken.match_below(&ours, &theirs, totals.first);
    taken.matches
}
