// Reads a sheet from standard input and writes the rewritten sheet to standard output, or prints the refusal and nothing else. Its argument
// is the edition, the first without one.
#![tactic(auto)]

use refusal::Refusal;
use sheet::MOST_BYTES;
use text::REFUSAL_ROOM;

// Reads to the end of the input, or to the first byte past the most: what is longer is refused for its length.
fn main(rt: HostRuntime) {
    let mut sheet = [0u8; MOST_BYTES + 1];
    let length = edition_argument::read_full(&mut rt.stdin(), &mut sheet);
    write_answer(&rt, edition_argument::given(&rt), &sheet[..length]);
}

// Rewrites a sheet and writes the answer. What cannot be written is left out.
fn write_answer(rt: &impl Print, edition: u32, sheet: &[u8]) {
    let mut out = [0u8; MOST_BYTES];
    let rewritten = schema::rewrite(edition, sheet, &mut out, 0);
    match rewritten {
        Ok(n) => {
            let _ = rt.write_all(&out[..n]);
        }
        Err(refusal) => print_refusal(rt, refusal),
    }
}

// Prints `refused N at P`, for which there is room.
fn print_refusal(rt: &impl Print, refusal: Refusal) {
    let mut line = [0u8; REFUSAL_ROOM];
    let told = text::put_refusal(&mut line, 0, refusal);
    let end = text::put(&mut line, told, b"\n");
    if end <= line.len() {
        let _ = rt.write_all(&line[..end]);
    }
}
