// A refusal's number and place, or a result's value, in one number.
ghost use Rattle.std.specs.Prelude.{◌≡◌, ◌%◌, ◌<◌, ◌^◌};
ghost use Rattle.c_answer.specs.Answers.{packed, packed_fault, refusal_answer, fault_answer};

use refusal::{Fault, Refusal};

// The number of a result.
pub const RESULT: u8 = 0;

// What a refusal's number counts in an answer, which has it from bit 32 on.
const NUMBER_WEIGHT: u64 = 0x1_0000_0000;

// What the side at fault counts in the answer of a refusal of one of two, which has it from bit 40 on.
const SIDE_WEIGHT: u64 = 0x100_0000_0000;

// How many places an answer can have.
const PLACES: usize = 0x1_0000_0000;

// The answer of a refusal's number and place, or of a result's number and value.
pub fn packed(number: u8, low: u32) -> u64
    ensures { result ≡ packed number low }
{
    number as u64 * NUMBER_WEIGHT + low as u64
}

// The answer of a refusal. Of a place that has more than 32 bits, as none has that is answered, the lower ones are in it.
pub fn refused(refusal: Refusal) -> u64
    ensures value { result ≡ packed refusal.number (refusal.place % 2 ^ 32) }
    ensures answer { refusal.place < 2 ^ 32 → result ≡ refusal_answer refusal }
{
    packed(refusal.number, (refusal.place % PLACES) as u32)
}

// The answer of a refusal of one of two, or of neither: the side at fault besides, and of the place the lower 32 bits likewise.
pub fn faulted(fault: Fault) -> u64
    ensures value { result ≡ packed_fault fault.side fault.refusal.number (fault.refusal.place % 2 ^ 32) }
    ensures answer { fault.refusal.place < 2 ^ 32 → result ≡ fault_answer fault }
{
    fault.side as u64 * SIDE_WEIGHT + refused(fault.refusal)
}
