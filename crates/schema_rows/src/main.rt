// Reads a sheet from standard input and prints the rows of its nodes, a line for each, or the refusal. Its argument is the edition, the first
// without one.
#![tactic(auto)]

use schema_text::{MOST_NUMBERS, MOST_TEXT_BYTES};
use sheet::MOST_BYTES;

// Reads to the end of the input, or to the first byte past the most: what is longer is refused for its length. What cannot be written is
// left out.
fn main(rt: HostRuntime) {
    let mut sheet = [0u8; MOST_BYTES + 1];
    let length = edition_argument::read_full(&mut rt.stdin(), &mut sheet);
    let mut rows = [0u32; MOST_NUMBERS];
    let mut text = [0u8; MOST_TEXT_BYTES];
    let count = schema_text::sheet_text(
        edition_argument::given(&rt),
        &sheet[..length],
        &mut rows,
        &mut text,
    );
    let _ = rt.write_all(&text[..count]);
}
