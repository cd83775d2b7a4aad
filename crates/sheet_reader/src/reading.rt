// The reader: it keeps hold of the lent sheet and its next node. What it does is left to functions on plain parameters.
ghost use Rattle.std.specs.Prelude.{◌≡◌};
ghost use Rattle.std.specs.Iterator.{at_most};
ghost use Rattle.sheet_reader.specs.Reading.{opened_on, step_of, moved_on, left, step_after};

use crate::stepping::{node_after, step_at};
use refusal::Refusal;
use sheet::{Slot, Stretch};

// A sheet, its next node, and what opening found: the number of nodes, or the refusal.
#[derive(Drop)]
pub struct Reader<'a> {
    pub sheet: &'a [u8],
    pub next: usize,
    pub opened: Result<usize, Refusal>,
}

// A reader at the first node of a sheet, opened in an edition.
pub fn open<'a>(edition: u32, sheet: &'a [u8]) -> Reader<'a>
    ensures { result ≡ opened_on edition sheet.entry }
{
    Reader {
        sheet,
        next: 0,
        opened: sheet::open(edition, sheet),
    }
}

// The slot of the next node, and the reader is moved on; or the end, and the reader stays.
pub fn next<'s, 'a>(reader: &'s mut Reader<'a>) -> Option<(Slot, Stretch)>
    ensures { (result ≡ step_of reader.old) × (reader.new ≡ moved_on reader.old) }
{
    let node = reader.next;
    let opened = reader.opened;
    reader.next = node_after(node, opened);
    step_at(reader.sheet, node, opened)
}

// A reader gives what is left to hand out.
impl<'a> Iterator for Reader<'a> {
    type Item = (Slot, Stretch);

    ghost next_gives = { λ s r t. (r ≡ step_of s) × (t ≡ moved_on s) };

    ghost remaining = { λ s. at_most (left s) };

    fn next(&mut self) -> Option<(Slot, Stretch)> {
        next(self)
    }
}

// What a reader opened on a sheet in an edition hands out after so many steps.
#[tactic(auto, using(crate::proofs::ReaderLaws::step_after_at))]
pub fn slot_after(edition: u32, sheet: &[u8], steps: usize) -> Option<(Slot, Stretch)>
    ensures { result ≡ step_after edition sheet.entry steps }
{
    let mut reader = open(edition, sheet);
    reader.next = steps;
    next(&mut reader)
}
