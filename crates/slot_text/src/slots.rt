// A slot's numbers and where its name stands, as text.
ghost use Rattle.std.specs.Prelude.{◌≡◌, ◌≤◌, length, take, drop};
ghost use Rattle.io.specs.Counts.{IsPrefixLen};
ghost use Rattle.text.specs.Placing.{position_after, placed_text};
ghost use Rattle.slot_text.specs.Slots.{integers_text, slot_text, stretch_text, slot_line, most_slot_bytes, most_stretch_bytes};

use sheet::{Slot, Stretch};

// How many numbers a slot has.
const NUMBERS: usize = 11;

// Room for so many integers of 64 bits with spaces between them, and for two numbers of 64 bits with one.
const NUMBERS_ROOM: usize = 230;

const STRETCH_ROOM: usize = 41;

// Room for any line.
pub const LINE_ROOM: usize = NUMBERS_ROOM + STRETCH_ROOM + 2;

// Makes the line of a slot at the start of a room, its numbers and then where its name starts and how long it is, and answers how
// many bytes it takes.
pub fn slot_line(slot: Slot, name: Stretch, out: &mut [u8; LINE_ROOM]) -> usize
    ensures prefix_len { IsPrefixLen result out.new }
    ensures out_after { take result out.new ≡ slot_line slot name }
    ensures out_unchanged { drop result out.new ≡ drop result out.old }
{
    let numbers = put_slot(out, 0, slot);
    let space = text::put(out, numbers, b" ");
    let stretch = put_stretch(out, space, name);
    text::put(out, stretch, b"\n")
}

// Stores a slot's numbers with single spaces between them.
pub fn put_slot(out: &mut [u8], at: usize, slot: Slot) -> usize
    ensures value { result ≡ position_after (length out.old) at (slot_text slot) }
    ensures out_after { out.new ≡ placed_text out.old at (slot_text slot) }
    ensures slot_len_bound { length (slot_text slot) ≤ most_slot_bytes }
{
    let numbers = [
        slot.physical as i64,
        slot.repetition as i64,
        slot.converted as i64,
        slot.logical as i64,
        slot.a as i64,
        slot.b as i64,
        slot.children as i64,
        slot.type_length as i64,
        slot.scale as i64,
        slot.precision as i64,
        slot.name_length as i64,
    ];
    let mut room = [0u8; NUMBERS_ROOM];
    let count = make_integers(&numbers, &mut room);
    text::put(out, at, &room[..count])
}

// Makes the text of as many integers as a slot has numbers, with single spaces between them, at the start of a room, and answers how
// many bytes it takes.
fn make_integers(numbers: &[i64; NUMBERS], room: &mut [u8; NUMBERS_ROOM]) -> usize
    requires { length numbers.now ≡ 11 }
    ensures prefix_len { IsPrefixLen result room.new }
    ensures room_after { take result room.new ≡ integers_text numbers.now }
    ensures numbers_len_bound { length (integers_text numbers.now) ≤ most_slot_bytes }
{
    let mut next = text::put_signed(room, 0, numbers[0]);
    for i in 1..NUMBERS {
        next = text::put(room, next, b" ");
        next = text::put_signed(room, next, numbers[i]);
    }
    next
}

// Stores where a stretch starts and how long it is.
pub fn put_stretch(out: &mut [u8], at: usize, stretch: Stretch) -> usize
    ensures value { result ≡ position_after (length out.old) at (stretch_text stretch) }
    ensures out_after { out.new ≡ placed_text out.old at (stretch_text stretch) }
    ensures stretch_len_bound { length (stretch_text stretch) ≤ most_stretch_bytes }
{
    let mut room = [0u8; STRETCH_ROOM];
    let start = text::put_decimal(&mut room, 0, stretch.start as u64);
    let space = text::put(&mut room, start, b" ");
    let end = text::put_decimal(&mut room, space, stretch.len as u64);
    text::put(out, at, &room[..end])
}
