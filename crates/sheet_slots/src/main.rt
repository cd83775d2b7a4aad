// Reads a sheet from standard input and lists its slots, a line for each, or prints the refusal. Its argument is the edition, the first
// without one.
#![tactic(auto)]

ghost use Rattle.std.specs.Prelude.{◌≡◌};
ghost use Rattle.sheet.specs.Opening.{open_of};

use refusal::Refusal;
use sheet::MOST_BYTES;
use slot_text::LINE_ROOM;
use text::REFUSAL_ROOM;

// Reads to the end of the input, or to the first byte past the most: what is longer is refused for its length. Of an opened sheet no
// refusal is printed. What cannot be written is left out.
fn main(rt: HostRuntime) {
    let mut sheet = [0u8; MOST_BYTES + 1];
    let length = edition_argument::read_full(&mut rt.stdin(), &mut sheet);
    let opened = print_slots(&rt, edition_argument::given(&rt), &sheet[..length]);
    let mut line = [0u8; REFUSAL_ROOM];
    let count = slot_text::refusal_line(opened, &mut line);
    let _ = rt.write_all(&line[..count]);
}

// Prints what a reader opened on a sheet in an edition hands out, to its end or to the first line that cannot be written, and answers what
// opening found.
fn print_slots(rt: &impl Print, edition: u32, sheet: &[u8]) -> Result<usize, Refusal>
    ensures { result ≡ open_of edition sheet.now }
{
    let reader = sheet_reader::open(edition, sheet);
    let opened = reader.opened;
    for (slot, name) in reader {
        let mut line = [0u8; LINE_ROOM];
        let count = slot_text::slot_line(slot, name, &mut line);
        if rt.write_all(&line[..count]).is_err() {
            break;
        }
    }
    opened
}
