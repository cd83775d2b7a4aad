// Whether a slot is sound in an edition: its codes stand in the lists of document 01 and of the edition, and zeros stand where zeros must.
ghost use Rattle.std.specs.Prelude.{◌≡◌, ◌+◌, ◌≤◌, ◌<◌, length, drop};
ghost use Rattle.sheet.specs.Block.{slot_size, most_nodes, total_of};
ghost use Rattle.sheet.specs.Slot.{name_at, slot_start};
ghost use Rattle.sheet.specs.Sound.{listed as Sound·listed, logical_listed, all_zero, codes_listed, name_right, slot_sound, slot_right};
ghost use Rattle.sheet.specs.Steps.{pair_size, stretch_zero};

use crate::layout;
use crate::number::{number32, number64};
use crate::slots::slot_start;
use edition::has_geospatial;
use parquet::{converted, logical, physical, repetition};

// The bytes of a word, a number that is compared with zero at once, and of a pair of words.
const WORD: usize = 8;

const PAIR: usize = 2 * WORD;

// Where the last pair of a slot starts, and the one before it.
const LAST_PAIR: usize = layout::SLOT_SIZE - PAIR;

const PAIR_BEFORE: usize = LAST_PAIR - PAIR;

// Whether the slot of number k is sound where k is a node's, and zero where it is not.
#[tactic(auto, using(crate::proofs::SlotLaws::reaches_true, crate::proofs::SlotLaws::slot_at_slice), unfolding(crate::specs::Sound::slot_right))]
pub(crate) fn slot_right(edition: u32, sheet: &[u8], k: usize, total: usize) -> bool
    requires k_lt_most_nodes { k < most_nodes }
    requires slot_size_in_bounds { slot_start k + slot_size ≤ length sheet.now }
    requires total_value { total ≡ total_of sheet.now }
    ensures { result ≡ slot_right edition sheet.now k }
{
    let start = slot_start(k);
    let slot = &sheet[start..start + layout::SLOT_SIZE];
    if k < total {
        slot_sound(edition, slot)
    } else {
        slot_zero(slot)
    }
}

#[tactic(auto, unfolding(crate::specs::Sound::slot_sound))]
fn slot_sound(edition: u32, slot: &[u8]) -> bool
    requires { length slot.now ≡ slot_size }
    ensures { result ≡ slot_sound edition slot.now }
{
    codes_listed(edition, slot) && name_right(slot)
}

#[tactic(auto, unfolding(crate::specs::Sound::codes_listed, crate::specs::Sound::physical_listed, crate::specs::Sound::repetition_listed, crate::specs::Sound::converted_listed, crate::specs::Slot::physical, crate::specs::Slot::repetition, crate::specs::Slot::converted, crate::specs::Slot::logical))]
fn codes_listed(edition: u32, slot: &[u8]) -> bool
    requires { length slot.now ≡ slot_size }
    ensures { result ≡ codes_listed edition slot.now }
{
    listed(
        physical::FIXED_LEN_BYTE_ARRAY,
        physical::GROUP,
        slot[layout::PHYSICAL],
    ) && listed(
        repetition::REPEATED,
        repetition::NONE,
        slot[layout::REPETITION],
    ) && listed(
        converted::INTERVAL,
        converted::NONE,
        slot[layout::CONVERTED],
    ) && logical_listed(edition, slot[layout::LOGICAL])
}

// Whether the name length, the zero bytes behind it and those behind the name are right. The length and the bytes behind it are
// one number, which is 1 to 48 just where they are right.
#[tactic(auto, using(crate::proofs::LengthLaws::name_right_parts))]
fn name_right(slot: &[u8]) -> bool
    requires { length slot.now ≡ slot_size }
    ensures { result ≡ name_right slot.now }
{
    let n = number32(slot, layout::NAME_LENGTH) as usize;
    1 <= n && n <= layout::MOST_NAME_LENGTH && zero_from(slot, layout::NAME + n)
}

// Whether an unused slot is zero.
#[tactic(auto, using(crate::proofs::ZeroLaws::slot_parts))]
fn slot_zero(slot: &[u8]) -> bool
    requires { length slot.now ≡ slot_size }
    ensures { result ≡ all_zero slot.now }
{
    pair_zero(slot, 0) && pair_zero(slot, WORD) && zero_from(slot, layout::NAME)
}

// Whether a slot is zero from a byte of its name on: by pairs of words, of which some bytes may stand in two.
#[tactic(auto, using(crate::proofs::ZeroLaws::rest_pairs, crate::proofs::ZeroLaws::long_rest_pairs))]
fn zero_from(slot: &[u8], from: usize) -> bool
    requires slot_len { length slot.now ≡ slot_size }
    requires name_at_le_from { name_at ≤ from }
    requires from_le_slot_size { from ≤ slot_size }
    ensures { result ≡ all_zero (drop from slot.now) }
{
    if from > LAST_PAIR {
        return few_zero(&slot[from..]);
    }
    pair_zero(slot, from)
        && pair_zero(slot, LAST_PAIR)
        && (from > PAIR_BEFORE || pair_zero(slot, PAIR_BEFORE))
}

// The same byte by byte, for a rest that is shorter than a pair of words.
fn few_zero(few: &[u8]) -> bool
    ensures { result ≡ all_zero few.now }
{
    few.iter().all(|byte| *byte == 0)
}

// Whether two words are zero. Both are read before either is compared, so that they are compared together.
#[tactic(auto, using(crate::proofs::ZeroLaws::pair_words))]
fn pair_zero(slot: &[u8], at: usize) -> bool
    requires { at + pair_size ≤ length slot.now }
    ensures { result ≡ stretch_zero slot.now at pair_size }
{
    let low = number64(slot, at);
    let high = number64(slot, at + WORD);
    low == 0 && high == 0
}

// Whether a code is in the list from 0 to last, or the one beside it.
#[tactic(auto, unfolding(crate::specs::Sound::listed))]
fn listed(last: u8, beside: u8, code: u8) -> bool
    ensures { result ≡ Sound·listed last beside code }
{
    code <= last || code == beside
}

// Whether a code is that of a logical type of the edition, or of none.
#[tactic(auto, unfolding(crate::specs::Sound::logical_listed))]
fn logical_listed(edition: u32, code: u8) -> bool
    ensures { result ≡ logical_listed edition code }
{
    match code {
        ..=logical::TIMESTAMP | logical::INTEGER..=logical::UUID => true,
        logical::GEOMETRY | logical::GEOGRAPHY => has_geospatial(edition),
        _ => false,
    }
}
