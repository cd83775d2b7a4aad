// An entry put into the output, where there is room for it.
ghost use Rattle.std.specs.Prelude.{◌≡◌, [], ◌∷◌, ◌^◌, ◌≤◌, ◌<◌, length};
ghost use Rattle.sheet.specs.Block.{slot_size};
ghost use Rattle.differences.specs.Entry.{entry, entry_size, entry_bytes, filled};
ghost use Rattle.differences.specs.Steps.{Puts};

use sheet::SLOT_SIZE;

// The bytes of an entry: its code, a zero, the node's number in two bytes, and both contents.
pub const ENTRY_SIZE: usize = SECOND + SLOT_SIZE;

const CODE: usize = 0;

const ZERO: usize = 1;

const NUMBER: usize = 2;

const FIRST: usize = 4;

const SECOND: usize = FIRST + SLOT_SIZE;

// What an entry says: its code, a node's number, and each side's content.
#[derive(Drop)]
pub(crate) struct Entry<'a> {
    pub(crate) code: u8,
    pub(crate) node: u16,
    pub(crate) first: &'a [u8],
    pub(crate) second: &'a [u8],
    ghost first_len_bound: { length first.now ≤ slot_size },
    ghost second_len_bound: { length second.now ≤ slot_size },
}

// Puts an entry behind so many others, where there is room for it, and answers how many there are with it.
// The output and the count stay two: the count is handed on by value, and a struct of both would state each clause through what it lends.
pub(crate) fn put_entry(told: &Entry, out: &mut [u8], entries: usize) -> usize
    requires { entries < 2 ^ 32 }
    ensures { Puts out.old entries (entry told.now.code told.now.node told.now.first.now told.now.second.now ∷ []) out.new result }
{
    let start = ENTRY_SIZE * entries;
    let end = start + ENTRY_SIZE;
    if out.len() < end {
        return entries + 1;
    }
    write_entry(told, &mut out[start..end]);
    entries + 1
}

// Writes an entry's bytes.
fn write_entry(told: &Entry, out: &mut [u8])
    requires { length out.old ≡ entry_size }
    ensures { out.new ≡ entry_bytes (entry told.now.code told.now.node told.now.first.now told.now.second.now) }
{
    let number = told.node.to_le_bytes();
    out[CODE] = told.code;
    out[ZERO] = 0;
    out[NUMBER] = number[0];
    out[NUMBER + 1] = number[1];
    write_content(told.first, &mut out[FIRST..SECOND]);
    write_content(told.second, &mut out[SECOND..ENTRY_SIZE]);
}

// Writes a content, zero-filled.
fn write_content(content: &[u8], out: &mut [u8])
    requires content_len_bound { length content.now ≤ slot_size }
    requires out_len { length out.old ≡ slot_size }
    ensures { out.new ≡ filled content.now }
{
    let from = content.len();
    out[..from].copy_from_slice(content);
    out[from..].fill(0);
}
