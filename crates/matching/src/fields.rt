// The fields of two matched nodes matched: each field of the first takes the first field of the second that has its name and is not taken.
ghost use Rattle.std.specs.Prelude.{◌≡◌, suc, ◌<◌, length, set};
ghost use Rattle.sheet.specs.Block.{total_of, most_nodes};
ghost use Rattle.matching.specs.Steps.{FoundWithin, taken_by, found_match, fields_matched, step_at, steps_from, Named, TakersMost, HeadsMost};

use crate::candidates::{Candidate, Printed, first_free, skip_taken};
use crate::heads::{HEADS, Head, skip_unlike, write_heads};
use crate::sides::Side;
use sheet::MOST_NODES;

// What a node of the first sheet matches: a node of the second, by its number, with the places of both among their siblings.
#[derive(Clone, Copy)]
pub struct Match {
    pub number: u16,
    pub place: u16,
    pub other: u16,
}

// What is known while nodes are matched: the taker of each node of the second sheet, which is a node of the first by its number and 1, or 0 for
// none; the heads of a partner's fields; and what each node of the first sheet matches.
// A taker of 0 needs no Option: takers are only compared with one that is not 0, and each comparison would have to name Some.
#[derive(Drop)]
pub struct Taken {
    pub takers: [u16; MOST_NODES],
    pub heads: [Head; HEADS],
    pub matches: [Option<Match>; MOST_NODES],
}

impl Taken {
    // Matches the fields of each node in turn, where what the root matches is known. No node is a taker yet, and no head is written.
    pub(crate) fn match_below(&mut self, first: &Side, second: &Side, nodes: usize)
        requires nodes_value { nodes ≡ total_of first.now.sheet.now }
        requires takers_most { TakersMost 0 self.old.takers }
        requires heads_most { HeadsMost 0 self.old.heads }
        requires named { Named (total_of second.now.sheet.now) self.old.matches }
        ensures { self.new.matches ≡ steps_from first.now.sheet.now second.now.sheet.now 0 nodes self.old.matches }
    {
        for node in 0..nodes {
            self.match_node(first, second, node);
        }
    }

    // Matches the fields of a node, where what the node matches is known.
    fn match_node(&mut self, first: &Side, second: &Side, node: usize)
        requires node_bound { node < total_of first.now.sheet.now }
        requires takers_most { TakersMost node self.old.takers }
        requires heads_most { HeadsMost node self.old.heads }
        requires named { Named (total_of second.now.sheet.now) self.old.matches }
        ensures matches_after { self.new.matches ≡ step_at first.now.sheet.now second.now.sheet.now node self.old.matches }
        ensures takers_most_2 { TakersMost (suc node) self.new.takers }
        ensures heads_most_2 { HeadsMost (suc node) self.new.heads }
        ensures named_2 { Named (total_of second.now.sheet.now) self.new.matches }
    {
        if let Some(matched) = self.matches[node] {
            self.match_fields(first, second, node, matched.number as usize);
        }
    }

    // Matches the fields of a node with those of its partner, which has that number in the second sheet. A field is taken where its number has
    // this node's as its taker: no other node's fields have that.
    fn match_fields(&mut self, first: &Side, second: &Side, node: usize, partner: usize)
        requires node_bound { node < total_of first.now.sheet.now }
        requires partner_bound { partner < total_of second.now.sheet.now }
        requires takers_most { TakersMost node self.old.takers }
        requires heads_most { HeadsMost node self.old.heads }
        requires named { Named (total_of second.now.sheet.now) self.old.matches }
        ensures matches_after { self.new.matches ≡ fields_matched first.now.sheet.now second.now.sheet.now node partner self.old.matches }
        ensures takers_most_2 { TakersMost (suc node) self.new.takers }
        ensures heads_most_2 { HeadsMost (suc node) self.new.heads }
        ensures named_2 { Named (total_of second.now.sheet.now) self.new.matches }
    {
        let ours = sheet::slot_at(first.sheet, node);
        let theirs = sheet::slot_at(second.sheet, partner);
        let count = ours.children as usize;
        let others = theirs.children as usize;
        let taker = (node + 1) as u16;
        let start = Candidate {
            number: partner + 1,
            place: 0,
        };
        write_heads(second, start, others, taker, &mut self.heads);
        let mut from = start;
        let mut at = node + 1;
        for place in 0..count {
            from = skip_taken(second, from, others, &self.takers, taker);
            let sought = Printed {
                name: sheet::name_of(first.sheet, at),
                print: first.prints[at],
            };
            let near = skip_unlike(second, from, others, &self.heads, taker, sought.print);
            let found = first_free(second, near, others, &self.takers, taker, &sought);
            self.take(found, at, place, taker);
            at = first.ends[at] as usize;
        }
    }

    // Notes what was found for the field at a number, which has this place, and its taker.
    fn take(&mut self, found: Option<Candidate>, at: usize, place: usize, taker: u16)
        requires at_lt_most_nodes { at < most_nodes }
        requires place_lt_most_nodes { place < most_nodes }
        requires found_within { FoundWithin most_nodes most_nodes found }
        ensures takers_after { self.new.takers ≡ taken_by taker found self.old.takers }
        ensures heads_after { self.new.heads ≡ self.old.heads }
        ensures matches_after { self.new.matches ≡ set self.old.matches at (found_match place found) }
    {
        match found {
            None => {
                self.matches[at] = None;
            }
            Some(candidate) => {
                let number = candidate.number;
                self.takers[number] = taker;
                self.matches[at] = Some(Match {
                    number: number as u16,
                    place: place as u16,
                    other: candidate.place as u16,
                });
            }
        }
    }
}
