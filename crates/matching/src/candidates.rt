// Of the fields of a node of the second sheet, the first that a field of the first sheet may take.
ghost use Rattle.std.specs.Prelude.{◌≡◌, not, ◌&&◌, ◌<◌, eqb, length, get_or};
ghost use Rattle.sheet.specs.Block.{total_of, most_nodes};
ghost use Rattle.sheet.specs.Slot.{slot_at, name as Slot·name};
ghost use Rattle.sheet.specs.Name.{same_bytes};
ghost use Rattle.matching.specs.Steps.{print_of, Stands, fields_from, untaken, first_free, found_of, FoundWithin};

use crate::sides::Side;

// A field of a node: its number, and its place among its siblings.
#[derive(Clone, Copy)]
pub struct Candidate {
    pub number: usize,
    pub place: usize,
}

// A name with its print.
#[derive(Drop)]
pub(crate) struct Printed<'a> {
    pub(crate) name: &'a [u8],
    pub(crate) print: u32,
    ghost print_value: { print ≡ print_of name.now },
}

// From a field on, of so many in all, the first that the taker has not taken.
pub(crate) fn skip_taken(
    side: &Side,
    from: Candidate,
    count: usize,
    takers: &[u16],
    taker: u16,
) -> Candidate
    requires stands { Stands side.now.sheet.now from count }
    requires takers_len { length takers.now ≡ most_nodes }
    ensures stands_2 { Stands side.now.sheet.now result count }
    ensures count_value { fields_from side.now.sheet.now result count ≡ untaken takers.now taker (fields_from side.now.sheet.now from count) }
{
    let mut number = from.number;
    for place in from.place..count {
        if takers[number] != taker {
            return Candidate { number, place };
        }
        number = side.ends[number] as usize;
    }
    Candidate {
        number,
        place: count,
    }
}

// From a field on, of so many in all, the first of this name that the taker has not taken.
pub(crate) fn first_free(
    side: &Side,
    from: Candidate,
    count: usize,
    takers: &[u16],
    taker: u16,
    sought: &Printed,
) -> Option<Candidate>
    requires stands { Stands side.now.sheet.now from count }
    requires takers_len { length takers.now ≡ most_nodes }
    ensures value { result ≡ found_of (first_free takers.now taker sought.now.name.now (fields_from side.now.sheet.now from count)) }
    ensures found_within { FoundWithin (total_of side.now.sheet.now) count result }
{
    let mut number = from.number;
    for place in from.place..count {
        if is_free(side, number, takers, taker, sought) {
            return Some(Candidate { number, place });
        }
        number = side.ends[number] as usize;
    }
    None
}

// Whether a node has this name and the taker has not taken it. Names are compared where their prints are alike.
fn is_free(side: &Side, number: usize, takers: &[u16], taker: u16, sought: &Printed) -> bool
    requires number_bound { number < total_of side.now.sheet.now }
    requires takers_len { length takers.now ≡ most_nodes }
    ensures { result ≡ (not (eqb (get_or takers.now number 0) taker) && same_bytes (Slot·name (slot_at side.now.sheet.now number)) sought.now.name.now) }
{
    if takers[number] == taker {
        return false;
    }
    if side.prints[number] != sought.print {
        return false;
    }
    sheet::name_is(side.sheet, number, sought.name)
}
