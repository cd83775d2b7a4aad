// Where a node stands, as far as rules 8 to 13 look above it.
ghost use Rattle.std.specs.Prelude.{◌≡◌};
ghost use Rattle.tree.specs.Rules.{under_map_of, standing_under};

use parquet::logical;

#[derive(Clone, Copy, Debug, PartialEq, Eq)]
pub enum Standing {
    Root,
    // A field of a node that is no resolved MAP.
    Field,
    // A field of a resolved MAP.
    MapField,
}

// Whether a node's parent is a resolved MAP.
pub(crate) fn under_map(standing: Standing) -> bool
    ensures { result ≡ under_map_of standing }
{
    standing == Standing::MapField
}

// The standing of the fields of a node of some logical type.
pub(crate) fn standing_under(logical: u8) -> Standing
    ensures { result ≡ standing_under logical }
{
    if logical == logical::MAP {
        Standing::MapField
    } else {
        Standing::Field
    }
}
