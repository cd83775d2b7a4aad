// A box, and the kinds and degrees that it may have.
ghost use Rattle.std.specs.Prelude.{◌≡◌};
ghost use Rattle.parquet.specs.Logical.{is_geospatial};

use parquet::logical;

// From the least to the greatest x, and from the least to the greatest y.
#[derive(Clone, Copy)]
pub struct BoundingBox {
    pub xmin: f64,
    pub xmax: f64,
    pub ymin: f64,
    pub ymax: f64,
}

// The greatest degrees of GEOGRAPHY.
pub(crate) const MOST_X: f64 = 180.0;

pub(crate) const MOST_Y: f64 = 90.0;

pub(crate) const GEOMETRY: u32 = logical::GEOMETRY as u32;

pub(crate) const GEOGRAPHY: u32 = logical::GEOGRAPHY as u32;

// Whether a kind has boxes.
pub(crate) fn has_boxes(kind: u32) -> bool
    ensures { result ≡ is_geospatial kind }
{
    (kind == GEOMETRY) | (kind == GEOGRAPHY)
}
