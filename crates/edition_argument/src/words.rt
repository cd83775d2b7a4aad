// The words that a program is run with, its name the first of them. What they are, no contract tells.
ghost use Rattle.std.specs.Prelude.{◌≤◌, length};

use std::env::{Env, FillError};

// How many words there are, or the limit where there are no fewer.
pub fn word_count(rt: &impl Env, limit: usize) -> usize
    ensures { result ≤ limit }
{
    for i in 0..limit {
        if !has_word(rt, i) {
            return i;
        }
    }
    limit
}

fn has_word(rt: &impl Env, i: usize) -> bool {
    match rt.arg(i, &mut []) {
        Ok(_) | Err(FillError::TooLong) => true,
        Err(FillError::NotPresent) => false,
    }
}

// Puts a word at the start of the room and answers its length, or 0 where there is no such word or the room is too short for it.
pub fn word(rt: &impl Env, i: usize, room: &mut [u8]) -> usize
    ensures { result ≤ length room.new }
{
    rt.arg(i, room).unwrap_or(0)
}
