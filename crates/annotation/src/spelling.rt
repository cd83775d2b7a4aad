// How three numbers of a slot (logical, a, b) are read.
ghost use Rattle.std.specs.Prelude.{◌≡◌};
ghost use Rattle.parquet.specs.Logical as logical;
ghost use Rattle.logical_type.specs.Parameters.{UNUSED};
ghost use Rattle.logical_type.specs.Spelling.{stated_of};
ghost use Rattle.annotation.specs.Pairs.{NO_PAIR, pair_a, pair_b};
ghost use Rattle.annotation.specs.Packed.{packed_of};

use crate::{packed, pairs};
use parquet::logical;

// The packed annotation that a logical code with its parameters says: Unreadable where the code is in no list, where none stands, or where
// the type does not take the parameters.
pub(crate) fn stated_of(logical: u8, pair: u32) -> u64
    ensures { result ≡ packed_of (stated_of logical (pair_a pair) (pair_b pair)) }
{
    if pair == pairs::NO_PAIR {
        return without_parameters(logical);
    }
    with_parameters(logical, pair)
}

// The same where the parameters are unused.
#[tactic(auto, unfolding(logical_type::specs::Spelling::stated_of, logical_type::specs::Spelling::named_of, logical_type::specs::Parameters::valid_parameters, logical_type::specs::Parameters::edge_of, crate::specs::Packed::packed_of))]
fn without_parameters(logical: u8) -> u64
    ensures { result ≡ packed_of (stated_of logical UNUSED UNUSED) }
{
    match logical {
        logical::STRING => packed::STRING,
        logical::MAP => packed::MAP,
        logical::LIST => packed::LIST,
        logical::ENUM => packed::ENUM,
        logical::DECIMAL => packed::DECIMAL,
        logical::DATE => packed::DATE,
        logical::TIME => packed::UNREADABLE,
        logical::TIMESTAMP => packed::UNREADABLE,
        logical::INTEGER => packed::UNREADABLE,
        logical::UNKNOWN => packed::UNKNOWN,
        logical::JSON => packed::JSON,
        logical::BSON => packed::BSON,
        logical::UUID => packed::UUID,
        logical::GEOMETRY => packed::GEOMETRY,
        // Unused parameters are those of SPHERICAL.
        logical::GEOGRAPHY => packed::SPHERICAL_GEOGRAPHY,
        _ => packed::UNREADABLE,
    }
}

// The same where they are not.
fn with_parameters(logical: u8, pair: u32) -> u64
    requires { pair ≡ NO_PAIR → ⊥ }
    ensures { result ≡ packed_of (stated_of logical (pair_a pair) (pair_b pair)) }
{
    match logical {
        logical::TIME => time(pair),
        logical::TIMESTAMP => timestamp(pair),
        logical::INTEGER => integer(pair),
        logical::GEOGRAPHY => geography(pair),
        _ => packed::UNREADABLE,
    }
}

// TIME and TIMESTAMP are two tables of the paper, alike in the units, and their packed numbers differ.
#[tactic(auto, unfolding(logical_type::specs::Spelling::stated_of, logical_type::specs::Spelling::named_of, logical_type::specs::Parameters::valid_parameters, logical_type::specs::Parameters::unit_of, crate::specs::Packed::packed_of))]
fn time(pair: u32) -> u64
    ensures { result ≡ packed_of (stated_of logical.TIME (pair_a pair) (pair_b pair)) }
{
    match pair {
        pairs::LOCAL_MILLIS => packed::TIME_MILLIS,
        pairs::LOCAL_MICROS => packed::TIME_MICROS,
        pairs::LOCAL_NANOS => packed::TIME_NANOS,
        pairs::UTC_MILLIS => packed::UTC_TIME_MILLIS,
        pairs::UTC_MICROS => packed::UTC_TIME_MICROS,
        pairs::UTC_NANOS => packed::UTC_TIME_NANOS,
        _ => packed::UNREADABLE,
    }
}

#[tactic(auto, unfolding(logical_type::specs::Spelling::stated_of, logical_type::specs::Spelling::named_of, logical_type::specs::Parameters::valid_parameters, logical_type::specs::Parameters::unit_of, crate::specs::Packed::packed_of))]
fn timestamp(pair: u32) -> u64
    ensures { result ≡ packed_of (stated_of logical.TIMESTAMP (pair_a pair) (pair_b pair)) }
{
    match pair {
        pairs::LOCAL_MILLIS => packed::TIMESTAMP_MILLIS,
        pairs::LOCAL_MICROS => packed::TIMESTAMP_MICROS,
        pairs::LOCAL_NANOS => packed::TIMESTAMP_NANOS,
        pairs::UTC_MILLIS => packed::UTC_TIMESTAMP_MILLIS,
        pairs::UTC_MICROS => packed::UTC_TIMESTAMP_MICROS,
        pairs::UTC_NANOS => packed::UTC_TIMESTAMP_NANOS,
        _ => packed::UNREADABLE,
    }
}

#[tactic(auto, unfolding(logical_type::specs::Spelling::stated_of, logical_type::specs::Spelling::named_of, logical_type::specs::Parameters::valid_parameters, logical_type::specs::Parameters::bit_width_of, crate::specs::Packed::packed_of))]
fn integer(pair: u32) -> u64
    ensures { result ≡ packed_of (stated_of logical.INTEGER (pair_a pair) (pair_b pair)) }
{
    match pair {
        pairs::UNSIGNED_8 => packed::UINT_8,
        pairs::UNSIGNED_16 => packed::UINT_16,
        pairs::UNSIGNED_32 => packed::UINT_32,
        pairs::UNSIGNED_64 => packed::UINT_64,
        pairs::SIGNED_8 => packed::INT_8,
        pairs::SIGNED_16 => packed::INT_16,
        pairs::SIGNED_32 => packed::INT_32,
        pairs::SIGNED_64 => packed::INT_64,
        _ => packed::UNREADABLE,
    }
}

#[tactic(auto, unfolding(logical_type::specs::Spelling::stated_of, logical_type::specs::Spelling::named_of, logical_type::specs::Parameters::valid_parameters, logical_type::specs::Parameters::edge_of, crate::specs::Packed::packed_of))]
fn geography(pair: u32) -> u64
    requires { pair ≡ NO_PAIR → ⊥ }
    ensures { result ≡ packed_of (stated_of logical.GEOGRAPHY (pair_a pair) (pair_b pair)) }
{
    match pair {
        pairs::VINCENTY_EDGES => packed::VINCENTY_GEOGRAPHY,
        pairs::THOMAS_EDGES => packed::THOMAS_GEOGRAPHY,
        pairs::ANDOYER_EDGES => packed::ANDOYER_GEOGRAPHY,
        pairs::KARNEY_EDGES => packed::KARNEY_GEOGRAPHY,
        _ => packed::UNREADABLE,
    }
}
