// A program's argument, and the edition that a text spells.
ghost use Rattle.std.specs.Prelude.{ℕ, List};
ghost use Rattle.edition_argument.specs.Spelling.{Spelled, Given};

use crate::words::{word, word_count};
use edition::{FIRST, is_known};
use std::env::Env;

// The program's name alone, and one argument behind it.
const ALONE: usize = 1;

const ONE_ARGUMENT: usize = 2;

// Room for a known edition and one byte more; an argument that is longer spells none.
const ROOM: usize = 2;

// No edition: every entry refuses it with 21. It is a number, since `Given` and `Spelled` speak of the number that an entry is given.
const NONE: u32 = 0;

// The edition of the program that runs. What its words are, no contract tells.
pub fn given(rt: &impl Env) -> u32
    ensures { (words : ℕ) × ((text : List ℕ) × Given words text result) }
{
    let words = word_count(rt, ONE_ARGUMENT + 1);
    let mut text = [0u8; ROOM];
    let length = word(rt, 1, &mut text);
    given_by(words, &text[..length])
}

// The edition of a program that is run with so many words, its name the first of them, and this text as the second: the
// first edition where there is no second word, and no edition where there is a third.
pub fn given_by(words: usize, text: &[u8]) -> u32
    ensures { Given words text.now result }
{
    match words {
        ..=ALONE => FIRST,
        ONE_ARGUMENT => edition_of(text),
        _ => NONE,
    }
}

// The edition that an argument spells.
pub fn at(rt: &impl Env, i: usize) -> u32
    ensures { (text : List ℕ) × Spelled text result }
{
    let mut text = [0u8; ROOM];
    let length = word(rt, i, &mut text);
    edition_of(&text[..length])
}

// The known edition that a text spells in decimal digits, without needless zeros; of any other text no edition.
pub fn edition_of(text: &[u8]) -> u32
    ensures { Spelled text.now result }
{
    if text.len() != 1 {
        return NONE;
    }
    let byte = text[0];
    if byte < b'0' {
        return NONE;
    }
    let edition = u32::from(byte - b'0');
    if is_known(edition) {
        return edition;
    }
    NONE
}
