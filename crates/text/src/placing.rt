// Bytes stored at a position of a lent buffer.
ghost use Rattle.std.specs.Prelude.{◌≡◌, length};
ghost use Rattle.text.specs.Placing.{position_past, position_after, placed_text};

// Stores a text from a position on, and answers the position after it.
pub fn put(out: &mut [u8], at: usize, text: &[u8]) -> usize
    ensures value { result ≡ position_after (length out.old) at text.now }
    ensures out_after { out.new ≡ placed_text out.old at text.now }
{
    let next = after(out, at, text.len());
    if next <= out.len() {
        out[at..next].copy_from_slice(text);
    }
    next
}

// The position past so many bytes from a position on.
pub fn after(out: &[u8], at: usize, count: usize) -> usize
    ensures { result ≡ position_past (length out.now) at count }
{
    let room = out.len();
    if at > room {
        return room + 1;
    }
    if count > room - at {
        return room + 1;
    }
    at + count
}
