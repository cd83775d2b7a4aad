// Runs the library on the sheets of standard input, in the edition of its argument or in the first, and prints a line for each: what opening answers, and of one node the
// numbers of its slot, the stretch of its name, whether its name is a text, and whether it is another's name with that text.
//
// Standard input is a count, and then each sheet as the length of its bytes, the node, the other node, the length of the
// text, the text and the bytes. Each number is four bytes, the least first.
#![tactic(auto)]

use edition::is_known;
use refusal::{Refusal, unknown_edition};
use std::io::Read;
use text::REFUSAL_ROOM;

// Room for a sheet of two blocks more than there may be, for a text, and for a line.
const SHEET_ROOM: usize = 66560;

const TEXT_ROOM: usize = 4096;

const LINE_ROOM: usize = 512;

fn main(rt: HostRuntime) {
    let mut sheet = [0u8; SHEET_ROOM];
    let mut text = [0u8; TEXT_ROOM];
    let edition = edition_argument::given(&rt);
    if !is_known(edition) {
        return print_refusal(&rt);
    }
    let mut input = rt.stdin();
    let count = read_number(&mut input);
    run(&rt, &mut input, edition, &mut sheet, &mut text, count);
}

// An edition that is none is refused once, for all sheets.
fn print_refusal(rt: &impl Print) {
    let mut line = [0u8; REFUSAL_ROOM];
    let count = slot_text::refusal_line(Err(unknown_edition()), &mut line);
    let _ = rt.write_all(&line[..count]);
}

// Runs so many sheets, in the room lent for a sheet and a text. What cannot be written is left out.
fn run(
    rt: &impl Print,
    input: &mut impl Read,
    edition: u32,
    sheet: &mut [u8],
    text: &mut [u8],
    count: u32,
) {
    for _ in 0..count {
        run_next(rt, input, edition, sheet, text);
    }
}

// A sheet that was read, and what is asked of it: a node, another, and a text.
#[derive(Clone, Copy)]
struct Question<'a> {
    sheet: &'a [u8],
    node: usize,
    other: usize,
    text: &'a [u8],
}

// Runs the next sheet; one for which there is no room is left out.
fn run_next(
    rt: &impl Print,
    input: &mut impl Read,
    edition: u32,
    sheet: &mut [u8],
    text: &mut [u8],
) {
    let length = read_number(input) as usize;
    let node = read_number(input) as usize;
    let other = read_number(input) as usize;
    let text_length = read_number(input) as usize;
    if length > sheet.len() || text_length > text.len() {
        return;
    }
    edition_argument::read_full(input, &mut text[..text_length]);
    edition_argument::read_full(input, &mut sheet[..length]);
    let question = Question {
        sheet: &sheet[..length],
        node,
        other,
        text: &text[..text_length],
    };
    answer(rt, edition, question);
}

// Prints the line of a question. There is room for each.
fn answer(rt: &impl Print, edition: u32, question: Question) {
    let mut line = [0u8; LINE_ROOM];
    let opened = put_opened(&mut line, sheet::open(edition, question.sheet));
    let slot = put_slot(&mut line, opened, question);
    let end = put_names(&mut line, slot, question);
    if end <= line.len() {
        let _ = rt.write_all(&line[..end]);
    }
}

fn put_opened(line: &mut [u8], opened: Result<usize, Refusal>) -> usize {
    match opened {
        Ok(total) => {
            let word = text::put(line, 0, b"nodes ");
            text::put_decimal(line, word, total as u64)
        }
        _ => slot_text::put_opened(line, 0, opened),
    }
}

fn put_slot(line: &mut [u8], at: usize, question: Question) -> usize {
    let slot = text::put(line, at, b" slot ");
    let numbers = slot_text::put_slot(line, slot, sheet::slot_at(question.sheet, question.node));
    let name = text::put(line, numbers, b" name ");
    slot_text::put_stretch(
        line,
        name,
        sheet::name_stretch(question.sheet, question.node),
    )
}

fn put_names(line: &mut [u8], at: usize, question: Question) -> usize {
    let Question {
        sheet,
        node,
        other,
        text,
    } = question;
    let is = text::put(line, at, b" is ");
    let one = text::put_decimal(line, is, sheet::name_is(sheet, node, text) as u64);
    let with = text::put(line, one, b" with ");
    let both = sheet::name_is_with(sheet, node, other, text) as u64;
    let end = text::put_decimal(line, with, both);
    text::put(line, end, b"\n")
}

// The next number of standard input; past its end, zeros.
fn read_number(input: &mut impl Read) -> u32 {
    let mut bytes = [0u8; 4];
    edition_argument::read_full(input, &mut bytes);
    u32::from_le_bytes(bytes)
}
