// The numbers that a call writes into an output that it is lent.
ghost use Rattle.std.specs.Prelude.{◌≡◌, length};
ghost use Rattle.c_answer.specs.Answers.{result as result_of, within, answer, left};

use crate::packing::{RESULT, packed, refused};
use refusal::short_output;

// Writes numbers at the start of an output, where they fit. The answer is a result of this value, or 14.
pub fn write<T: Copy, const N: usize>(value: u32, numbers: [T; N], out: &mut [T]) -> u64
    ensures value { result ≡ answer (within (length out.old) (result_of value numbers)) }
    ensures out_after { out.new ≡ left (within (length out.old) (result_of value numbers)) out.old }
{
    let Some(start) = out.first_chunk_mut::<N>() else {
        return refused(short_output());
    };
    *start = numbers;
    packed(RESULT, value)
}
