// A number of each node's name, by which most unlike names are told apart at once: like names have like numbers.
ghost use Rattle.std.specs.Prelude.{◌≡◌, ◌≤◌, length};
ghost use Rattle.sheet.specs.Block.{most_nodes};
ghost use Rattle.matching.specs.Steps.{print_of, Prints};

// What a print is multiplied by before the next byte of the name is added, and before the next two are.
const FACTOR: u64 = 31;

const PAIR_FACTOR: u64 = 961;

const NUMBERS: u64 = 0x1_0000_0000;

// Writes the print of each node's name.
pub(crate) fn write_prints(sheet: &[u8], total: usize, prints: &mut [u32])
    requires total_le_most_nodes { total ≤ most_nodes }
    requires prints_len { length prints.old ≡ most_nodes }
    ensures { Prints sheet.now total prints.new }
{
    for node in 0..total {
        prints[node] = print_of(sheet::name_of(sheet, node));
    }
}

// The print of a name, of which two bytes are taken at a time.
fn print_of(name: &[u8]) -> u32
    ensures { result ≡ print_of name.now }
{
    let pairs = name.chunks_exact(2);
    let last = pairs.remainder();
    let mut print: u64 = 0;
    for pair in pairs {
        print = (print * PAIR_FACTOR + pair[0] as u64 * FACTOR + pair[1] as u64) % NUMBERS;
    }
    if last.is_empty() {
        return print as u32;
    }
    ((print * FACTOR + last[0] as u64) % NUMBERS) as u32
}
