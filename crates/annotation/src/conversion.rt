// What a converted type that stands alone means.
ghost use Rattle.std.specs.Prelude.{false, ◌≡◌};
ghost use Rattle.parquet.specs.Converted.{NONE};
ghost use Rattle.logical_type.specs.Backward.{backward_of};
ghost use Rattle.annotation.specs.Packed.{packed_of};

use crate::packed;
use parquet::converted;

// The packed annotation that a converted type means where it stands alone, with UTC true; NONE means no annotation, a code outside the
// list nothing.
#[tactic(auto, unfolding(logical_type::specs::Backward::backward_of, crate::specs::Packed::packed_of))]
pub(crate) fn backward_of(converted: u8, under_map: bool) -> u64
    ensures { result ≡ packed_of (backward_of converted under_map) }
{
    if converted == converted::NONE {
        return packed::PLAIN;
    }
    if under_map {
        if converted == converted::MAP_KEY_VALUE {
            return packed::PLAIN;
        }
        return standing_alone(converted);
    }
    standing_alone(converted)
}

// The same where one stands, and MAP_KEY_VALUE means MAP.
#[tactic(auto, unfolding(logical_type::specs::Backward::backward_of, crate::specs::Packed::packed_of))]
fn standing_alone(converted: u8) -> u64
    requires { converted ≡ NONE → ⊥ }
    ensures { result ≡ packed_of (backward_of converted false) }
{
    match converted {
        converted::UTF8 => packed::STRING,
        converted::MAP => packed::MAP,
        converted::MAP_KEY_VALUE => packed::MAP,
        converted::LIST => packed::LIST,
        converted::ENUM => packed::ENUM,
        converted::DECIMAL => packed::DECIMAL,
        converted::DATE => packed::DATE,
        converted::TIME_MILLIS => packed::UTC_TIME_MILLIS,
        converted::TIME_MICROS => packed::UTC_TIME_MICROS,
        converted::TIMESTAMP_MILLIS => packed::UTC_TIMESTAMP_MILLIS,
        converted::TIMESTAMP_MICROS => packed::UTC_TIMESTAMP_MICROS,
        converted::UINT_8 => packed::UINT_8,
        converted::UINT_16 => packed::UINT_16,
        converted::UINT_32 => packed::UINT_32,
        converted::UINT_64 => packed::UINT_64,
        converted::INT_8 => packed::INT_8,
        converted::INT_16 => packed::INT_16,
        converted::INT_32 => packed::INT_32,
        converted::INT_64 => packed::INT_64,
        converted::JSON => packed::JSON,
        converted::BSON => packed::BSON,
        converted::INTERVAL => packed::INTERVAL,
        _ => packed::UNREADABLE,
    }
}
