// Little-endian numbers in bytes. One function for each width: `from_le_bytes` is each type's own, and a trait for them would be longer.
ghost use Rattle.std.specs.Prelude.{◌≡◌, ◌+◌, ◌≤◌, length};
ghost use Rattle.sheet.specs.Number.{number_at, number16 as Number·number16, number32 as Number·number32, signed32 as Number·signed32};

// The number of two bytes from at on.
#[tactic(auto, using(crate::proofs::NumberLaws::number_at_two))]
pub(crate) fn number16(s: &[u8], at: usize) -> u16
    requires { at + 2 ≤ length s.now }
    ensures { result ≡ Number·number16 s.now at }
{
    u16::from_le_bytes([s[at], s[at + 1]])
}

// The number of four bytes from at on.
#[tactic(auto, using(crate::proofs::NumberLaws::number_at_four))]
pub(crate) fn number32(s: &[u8], at: usize) -> u32
    requires { at + 4 ≤ length s.now }
    ensures { result ≡ Number·number32 s.now at }
{
    u32::from_le_bytes([s[at], s[at + 1], s[at + 2], s[at + 3]])
}

// The number of eight bytes from at on.
#[tactic(auto, using(crate::proofs::NumberLaws::number_at_eight))]
pub(crate) fn number64(s: &[u8], at: usize) -> u64
    requires { at + 8 ≤ length s.now }
    ensures { result ≡ number_at s.now at 8 }
{
    u64::from_le_bytes([
        s[at],
        s[at + 1],
        s[at + 2],
        s[at + 3],
        s[at + 4],
        s[at + 5],
        s[at + 6],
        s[at + 7],
    ])
}

// The signed number of four bytes from at on.
pub(crate) fn signed32(s: &[u8], at: usize) -> i32
    requires { at + 4 ≤ length s.now }
    ensures { result ≡ Number·signed32 (Number·number32 s.now at) }
{
    number32(s, at).cast_signed()
}
