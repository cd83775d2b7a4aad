// An index over the fields of a node: for each rest of a print the first field whose name's print leaves it.
ghost use Rattle.std.specs.Prelude.{◌≡◌, ◌≤◌, ◌<◌, length};
ghost use Rattle.sheet.specs.Block.{most_nodes};
ghost use Rattle.matching.specs.Steps.{Stands, head_count, taker_of, place_of, number_of, packed_head, with_head, HeadsBelow, HeadsMost, Heads, Indexed, Leads};

use crate::candidates::Candidate;
use crate::sides::Side;

// The first field whose name's print leaves a rest, by its number and place, and the taker whose field it is: 0 where none was written. The
// three stand in one number, 10 bits each: with 16 bits each all heads take 48 KiB of the stack in place of 32.
#[derive(Clone, Copy)]
pub struct Head {
    pub packed: u32,
}

// What a place counts in a head, above every number, and what a taker does, above every place.
const PLACE_WEIGHT: u32 = 1024;

const TAKER_WEIGHT: u32 = PLACE_WEIGHT * PLACE_WEIGHT;

impl Head {
    fn of(taker: u16, place: usize, number: usize) -> Head
        requires taker_le_most_nodes { taker ≤ most_nodes }
        requires place_lt_most_nodes { place < most_nodes }
        requires number_lt_most_nodes { number < most_nodes }
        ensures { result ≡ packed_head taker place number }
    {
        Head {
            packed: u32::from(taker) * TAKER_WEIGHT + place as u32 * PLACE_WEIGHT + number as u32,
        }
    }

    fn taker(self) -> u32
        ensures { result ≡ taker_of self }
    {
        self.packed / TAKER_WEIGHT
    }

    fn place(self) -> usize
        ensures { result ≡ place_of self }
    {
        (self.packed / PLACE_WEIGHT % PLACE_WEIGHT) as usize
    }

    fn number(self) -> usize
        ensures { result ≡ number_of self }
    {
        (self.packed % PLACE_WEIGHT) as usize
    }
}

// What stands where no head is written, as no node is taker 0: it needs no Option, since a head is read only where its taker is the one sought.
pub(crate) const NO_HEAD: Head = Head { packed: 0 };

// How many heads there are: one for each rest that a print leaves, divided by their number.
pub(crate) const HEADS: usize = 8192;

const RESTS: u32 = 8192;

// Writes the heads of a node's fields, of which there are so many from the first on. Those of other nodes have other takers.
pub(crate) fn write_heads(
    side: &Side,
    start: Candidate,
    count: usize,
    taker: u16,
    heads: &mut [Head],
)
    requires stands { Stands side.now.sheet.now start count }
    requires count_le_most_nodes { count ≤ most_nodes }
    requires taker_le_most_nodes { taker ≤ most_nodes }
    requires heads_below { HeadsBelow taker heads.old }
    ensures heads { Heads side.now.sheet.now start count taker heads.new }
    ensures heads_most { HeadsMost taker heads.new }
{
    let mut number = start.number;
    for place in start.place..count {
        let rest = (side.prints[number] % RESTS) as usize;
        write_head(rest, number, place, taker, heads);
        number = side.ends[number] as usize;
    }
}

// Writes a field's head, where there is none for its rest yet.
fn write_head(rest: usize, number: usize, place: usize, taker: u16, heads: &mut [Head])
    requires rest_lt_head_count { rest < head_count }
    requires number_lt_most_nodes { number < most_nodes }
    requires place_lt_most_nodes { place < most_nodes }
    requires taker_le_most_nodes { taker ≤ most_nodes }
    requires heads_len { length heads.old ≡ head_count }
    ensures { heads.new ≡ with_head heads.old rest number place taker }
{
    let owner = heads[rest].taker();
    if owner == u32::from(taker) {
        return;
    }
    heads[rest] = Head::of(taker, place, number);
}

// From a field on, of so many in all, the first that a name with this print may be of, or a later one.
pub(crate) fn skip_unlike(
    side: &Side,
    from: Candidate,
    count: usize,
    heads: &[Head],
    taker: u16,
    print: u32,
) -> Candidate
    requires { Indexed side.now.sheet.now from count taker heads.now }
    ensures { Leads side.now.sheet.now from count print result }
{
    let head = heads[(print % RESTS) as usize];
    let owner = head.taker();
    if owner != u32::from(taker) {
        return Candidate {
            number: from.number,
            place: count,
        };
    }
    let place = head.place();
    if place <= from.place {
        return Candidate {
            number: from.number,
            place: from.place,
        };
    }
    Candidate {
        number: head.number(),
        place,
    }
}
