// A refusal, and the answers that several crates give.
ghost use Rattle.std.specs.Prelude.{◌≡◌};
ghost use Rattle.refusal.specs.Outcome.{short_output, unknown_edition};

use crate::numbers;

// A refusal: its number, and the block, node or byte that it names, or 0 where it names none.
#[derive(Clone, Copy)]
pub struct Refusal {
    pub number: u8,
    pub place: usize,
}

// The sides of a refusal of one of two things that were handed in together. They stay numbers, which C reads from bit 40 of an answer on
// and `FaultBounded` bounds.
pub const NEITHER: u8 = 0;

pub const FIRST: u8 = 1;

pub const SECOND: u8 = 2;

// A refusal of one of two things, with its side.
#[derive(Clone, Copy)]
pub struct Fault {
    pub side: u8,
    pub refusal: Refusal,
}

// The refusal of an output that is not enough. This and the next are functions and no constants, since a constant has no clause.
pub fn short_output() -> Refusal
    ensures { result ≡ short_output }
{
    Refusal {
        number: numbers::SHORT_OUTPUT,
        place: 0,
    }
}

// The refusal of an edition that is none.
pub fn unknown_edition() -> Refusal
    ensures { result ≡ unknown_edition }
{
    Refusal {
        number: numbers::UNKNOWN_EDITION,
        place: 0,
    }
}
