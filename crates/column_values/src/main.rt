// Reads one value of a column. The arguments are the five numbers of its column type, and standard input is the value. The edition may stand
// before them; without it, it is the first.
#![tactic(auto)]

ghost use Rattle.std.specs.Prelude.{◌≤◌};

use column::MOST_BYTES;
use column_text::LINE_ROOM;
use column_type::ColumnType;
use edition::FIRST;
use std::env::Env;

// The program's name and the numbers of a column type, and the same with an edition before these.
const ARGUMENTS: usize = 6;

const ARGUMENTS_WITH_EDITION: usize = 7;

// Room for the digits of a number; an argument that is longer is no number of 32 bits, but for zeros in front.
const DIGITS: usize = 16;

fn main(rt: HostRuntime) {
    match edition_argument::word_count(&rt, ARGUMENTS_WITH_EDITION + 1) {
        ARGUMENTS => run(&rt, FIRST, 1),
        ARGUMENTS_WITH_EDITION => run(&rt, edition_argument::at(&rt, 1), 2),
        _ => print_usage(&rt),
    }
}

// Reads and prints in an edition, where the numbers of the column type stand from an argument on.
fn run(rt: &(impl Env + Input + Print + Eprint), edition: u32, first: usize)
    requires { first ≤ 2 }
{
    match read_type(rt, first) {
        Some(column) => print_value(rt, edition, column),
        None => print_usage(rt),
    }
}

// Reads to the end of the input, or to the first byte past the most, and prints the value or the refusal. What cannot be written is left
// out.
fn print_value(rt: &(impl Input + Print), edition: u32, c: ColumnType) {
    let mut value = [0u8; MOST_BYTES + 1];
    let length = edition_argument::read_full(&mut rt.reader(), &mut value);
    let mut line = [0u8; LINE_ROOM];
    let count = column_text::read_line(column::read(edition, c, &value[..length]), &mut line);
    let _ = rt.write_all(&line[..count]);
}

fn print_usage(rt: &impl Eprint) {
    let _ = rt.eprintln("usage: column_values [EDITION] PHYSICAL TYPE_LENGTH KIND P1 P2 < VALUE");
}

// The column type of five arguments, if each is a number of 32 bits.
fn read_type(rt: &impl Env, first: usize) -> Option<ColumnType>
    requires { first ≤ 2 }
{
    Some(ColumnType {
        physical: number_at(rt, first)?,
        type_length: number_at(rt, first + 1)?,
        kind: number_at(rt, first + 2)?,
        p1: number_at(rt, first + 3)?,
        p2: number_at(rt, first + 4)?,
    })
}

// An argument that is missing or does not fit the room is read as no digits.
fn number_at(rt: &impl Env, i: usize) -> Option<u32> {
    let mut text = [0u8; DIGITS];
    let length = edition_argument::word(rt, i, &mut text);
    number(&text[..length])
}

// The number of decimal digits, if it has one and fits 32 bits. The library's `parse` would take a plus sign too.
fn number(text: &[u8]) -> Option<u32> {
    if text.is_empty() {
        return None;
    }
    let mut n: u32 = 0;
    for byte in text {
        let digit = byte.checked_sub(b'0')?;
        if digit > 9 {
            return None;
        }
        n = n.checked_mul(10)?.checked_add(u32::from(digit))?;
    }
    Some(n)
}
