// UTF-8 as RFC 3629 has it: where whole sequences, read from the start of a slice, stop.
#![tactic(auto)]

ghost use Rattle.std.specs.Prelude.{ℕ, suc, ◌+◌, ◌≤◌, ◌<◌, cond, List, ◌∷◌, ◌≡◌, length, take, drop, get_or, replicate, IfSome};
ghost use Rattle.std.specs.List.{list_all};
ghost use Rattle.utf8.specs.Sequence.{◌to◌, tail, inside, spells};
ghost use Rattle.utf8.specs.Valid.{leading, valid_up_to, Stops};
ghost use Rattle.utf8.specs.Steps.{Passes, NoLetter, begun, followed};

mod ascii; // ascii.rt: runs of octets below 128

// Where whole sequences, read from the start of `text`, stop: at its length where all of it is UTF-8, and otherwise at the first byte
// that no whole sequence has.
pub fn valid_up_to(text: &[u8]) -> usize
    ensures value { result ≡ valid_up_to text.now }
    ensures stops { Stops text.now result }
{
    let mut at = 0;
    // A cursor: each turn passes as many octets as it reads.
    while at < text.len() {
        let from = ascii::ascii_after(text, at);
        let to = letters_after(text, from);
        if to == from {
            return to;
        }
        at = to;
    }
    at
}

// Where sequences of several octets in a row, of which the first would begin at `from`, end.
fn letters_after(text: &[u8], from: usize) -> usize
    requires { from ≤ length text.now }
    ensures passes { Passes text.now from result }
    ensures no_letter { NoLetter text.now result }
{
    let mut at = from;
    // A cursor: each turn passes the octets of a sequence.
    while at < text.len() {
        if text[at] <= UTF8_1_LAST {
            return at;
        }
        match sequence_at(text, at) {
            Some(octets) => at += octets,
            None => return at,
        }
    }
    at
}

// How many octets the sequence has that starts at `at` with an octet above UTF8-1, if one starts there. No octet is looked at twice.
fn sequence_at(text: &[u8], at: usize) -> Option<usize>
    requires { (at < length text.now) × (UTF8_1_LAST < get_or text.now at 0) }
    ensures { result ≡ begun (leading (drop at text.now)) }
{
    let first = text[at];
    if first <= UTF8_2_LAST {
        return pair_at(text, at);
    }
    let rest = rest_after(first)?;
    let tails = rest.tails;
    if tails == 1 {
        return triple_at(text, at, rest.low, rest.high);
    }
    if text.len() - at < tails + 2 {
        return None;
    }
    if !within(text[at + 1], rest.low, rest.high) {
        return None;
    }
    let end = at + 2 + tails;
    if !are_tails(&text[at + 2..end]) {
        return None;
    }
    Some(tails + 2)
}

// The same where the octet at `at` is above UTF8-1 and not above UTF8-2.
fn pair_at(text: &[u8], at: usize) -> Option<usize>
    requires { (at < length text.now) × (UTF8_1_LAST < get_or text.now at 0) × (get_or text.now at 0 ≤ UTF8_2_LAST) }
    ensures { result ≡ begun (leading (drop at text.now)) }
{
    if text[at] < UTF8_2_FIRST {
        return None;
    }
    if text.len() - at < 2 {
        return None;
    }
    if !within(text[at + 1], TAIL_LOW, TAIL_HIGH) {
        return None;
    }
    Some(2)
}

// Three where after the octet at `at` come one from `low` to `high` and one of UTF8-tail, and none where not.
fn triple_at(text: &[u8], at: usize, low: u8, high: u8) -> Option<usize>
    requires { at < length text.now }
    ensures { result ≡ begun (cond (spells (low to high ∷ replicate 1 tail) (take 2 (drop (at + 1) text.now))) 3 0) }
{
    if text.len() - at < 3 {
        return None;
    }
    if !within(text[at + 1], low, high) {
        return None;
    }
    if !within(text[at + 2], TAIL_LOW, TAIL_HIGH) {
        return None;
    }
    Some(3)
}

// Whether octets are all of UTF8-tail.
fn are_tails(octets: &[u8]) -> bool
    ensures { result ≡ list_all (inside tail) octets.now }
{
    octets
        .iter()
        .all(|octet| within(*octet, TAIL_LOW, TAIL_HIGH))
}

// Whether an octet is one from `low` to `high`: the library's `contains`, with the one clause that its callers cite.
#[tactic(auto, unfolding(crate::specs::Sequence::inside))]
fn within(octet: u8, low: u8, high: u8) -> bool
    ensures { result ≡ inside (low to high) octet }
{
    (low..=high).contains(&octet)
}

// What follows the first octet of a sequence of three or four.
#[derive(Clone, Copy)]
struct Rest {
    // The least second octet ..
    low: u8,
    // .. and the greatest.
    high: u8,
    // How many octets of UTF8-tail come after that.
    tails: usize,
}

// What follows a first octet above UTF8-2, if a sequence starts with it.
// A chain of tests: a `match` of the same arms becomes a jump table, and letters of three octets take 24% more instructions.
fn rest_after(first: u8) -> Option<Rest>
    requires { UTF8_2_LAST < first }
    ensures tails_bound { IfSome result (λ r. r.tails ≤ 2) }
    ensures by_index { (rest : List ℕ) → leading (first ∷ rest) ≡ followed result rest }
{
    if first == UTF8_3_FIRST {
        return Some(Rest {
            low: UTF8_3_FIRST_LOW,
            high: TAIL_HIGH,
            tails: 1,
        });
    }
    if first < UTF8_3_SURROGATES {
        return Some(Rest {
            low: TAIL_LOW,
            high: TAIL_HIGH,
            tails: 1,
        });
    }
    if first == UTF8_3_SURROGATES {
        return Some(Rest {
            low: TAIL_LOW,
            high: UTF8_3_SURROGATES_HIGH,
            tails: 1,
        });
    }
    if first <= UTF8_3_LAST {
        return Some(Rest {
            low: TAIL_LOW,
            high: TAIL_HIGH,
            tails: 1,
        });
    }
    if first == UTF8_4_FIRST {
        return Some(Rest {
            low: UTF8_4_FIRST_LOW,
            high: TAIL_HIGH,
            tails: 2,
        });
    }
    if first < UTF8_4_LAST {
        return Some(Rest {
            low: TAIL_LOW,
            high: TAIL_HIGH,
            tails: 2,
        });
    }
    if first == UTF8_4_LAST {
        return Some(Rest {
            low: TAIL_LOW,
            high: UTF8_4_LAST_HIGH,
            tails: 2,
        });
    }
    None
}

// The greatest octet of UTF8-1.
const UTF8_1_LAST: u8 = 0x7F;
// The least first octet of UTF8-2: a lesser one would spell an overlong form.
const UTF8_2_FIRST: u8 = 0xC2;
// The greatest first octet of UTF8-2.
const UTF8_2_LAST: u8 = 0xDF;
// The least first octet of UTF8-3.
const UTF8_3_FIRST: u8 = 0xE0;
// The least second octet after it: a lesser one would spell an overlong form.
const UTF8_3_FIRST_LOW: u8 = 0xA0;
// The first octet of UTF8-3 that a surrogate would have.
const UTF8_3_SURROGATES: u8 = 0xED;
// The greatest second octet after it: a greater one would spell a surrogate.
const UTF8_3_SURROGATES_HIGH: u8 = 0x9F;
// The greatest first octet of UTF8-3.
const UTF8_3_LAST: u8 = 0xEF;
// The least first octet of UTF8-4.
const UTF8_4_FIRST: u8 = 0xF0;
// The least second octet after it: a lesser one would spell an overlong form.
const UTF8_4_FIRST_LOW: u8 = 0x90;
// The greatest first octet of UTF8-4.
const UTF8_4_LAST: u8 = 0xF4;
// The greatest second octet after it: a greater one would spell what lies above U+10FFFF.
const UTF8_4_LAST_HIGH: u8 = 0x8F;
// The least octet of UTF8-tail.
const TAIL_LOW: u8 = 0x80;
// The greatest octet of UTF8-tail.
const TAIL_HIGH: u8 = 0xBF;
