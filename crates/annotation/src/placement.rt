// Rule 10: the physical types that an edition has retired, and the annotations that have a rule of their own. Any other, packed, has the
// one physical type that it demands.
ghost use Rattle.std.specs.Prelude.{◌≡◌};
ghost use Rattle.annotation.specs.Rule10.{decimal_on, is_fixed, is_retired};
ghost use Rattle.annotation.specs.Steps.{geospatial_on, own_on};

use edition::{has_geospatial, int96_retired};
use parquet::{logical, physical};

const UUID_LENGTH: u32 = 16;

const INTERVAL_LENGTH: u32 = 12;

// Whether no leaf may have a physical type.
#[tactic(auto, unfolding(crate::specs::Rule10::is_retired))]
pub(crate) fn is_retired(edition: u32, physical: u8) -> bool
    ensures { result ≡ is_retired edition physical }
{
    physical == physical::INT96 && int96_retired(edition)
}

// Whether DECIMAL, UNKNOWN, UUID, GEOMETRY, GEOGRAPHY or, with no logical code, INTERVAL may stand on a physical type and length.
#[tactic(auto, unfolding(crate::specs::Steps::own_on))]
pub(crate) fn own_on(edition: u32, logical: u8, physical: u8, length: u32) -> bool
    ensures { result ≡ own_on edition logical physical length }
{
    match logical {
        logical::DECIMAL => decimal_on(physical),
        logical::UNKNOWN => physical != physical::GROUP,
        logical::UUID => is_fixed(UUID_LENGTH, physical, length),
        logical::GEOMETRY => geospatial_on(edition, physical),
        logical::GEOGRAPHY => geospatial_on(edition, physical),
        _ => is_fixed(INTERVAL_LENGTH, physical, length),
    }
}

// Whether GEOMETRY and GEOGRAPHY may, which no edition before the third has.
#[tactic(auto, unfolding(crate::specs::Steps::geospatial_on))]
fn geospatial_on(edition: u32, physical: u8) -> bool
    ensures { result ≡ geospatial_on edition physical }
{
    physical == physical::BYTE_ARRAY && has_geospatial(edition)
}

fn decimal_on(physical: u8) -> bool
    ensures { result ≡ decimal_on physical }
{
    physical == physical::INT32
        || physical == physical::INT64
        || physical == physical::FIXED_LEN_BYTE_ARRAY
        || physical == physical::BYTE_ARRAY
}

fn is_fixed(bytes: u32, physical: u8, length: u32) -> bool
    ensures { result ≡ is_fixed bytes physical length }
{
    physical == physical::FIXED_LEN_BYTE_ARRAY && length == bytes
}
