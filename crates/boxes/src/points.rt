// The box of a list of points.
ghost use Rattle.std.specs.Prelude.{◌≡◌, true, false, cond, ◌||◌};
ghost use Rattle.std.specs.Float.{inf};
ghost use Rattle.std.specs.Float.Ieee.{lt, neg};
ghost use Rattle.boxes.specs.Coordinates.{is_above};
ghost use Rattle.boxes.specs.Points.{Answers};
ghost use Rattle.boxes.specs.Steps.{BoundsFound, beyond_degrees};

use crate::bounding_box::{BoundingBox, GEOGRAPHY, MOST_X, MOST_Y, has_boxes};
use crate::refusals::{NOT_ALLOWED, ODD_RUN, UNKNOWN_KIND};
use refusal::Refusal;

// What is found of an axis: the least and the greatest of what counts. Where nothing does, the least is above all and the greatest below.
#[derive(Clone, Copy)]
struct Range {
    least: f64,
    greatest: f64,
}

impl Range {
    // That of an axis where nothing counts.
    fn unmet() -> Range
        ensures { (result.least ≡ inf false) × (result.greatest ≡ inf true) }
    {
        Range {
            least: f64::INFINITY,
            greatest: f64::NEG_INFINITY,
        }
    }

    // That with one coordinate more. A NaN is less than nothing and greater than nothing, and so does not count.
    fn reaching(self, v: f64) -> Range
        ensures { (result.least ≡ cond (lt v self.least) v self.least) × (result.greatest ≡ cond (lt self.greatest v) v self.greatest) }
    {
        Range {
            least: if v < self.least { v } else { self.least },
            greatest: if v > self.greatest { v } else { self.greatest },
        }
    }
}

// The box of points of a kind, whose coordinates stand in turn: x, y, x, y. A coordinate that is a NaN does not count, and there is no box
// where none of an axis does.
pub fn box_of(kind: u32, coordinates: &[f64]) -> Result<Option<BoundingBox>, Refusal>
    ensures { Answers kind coordinates.now result }
{
    if !has_boxes(kind) {
        return Err(UNKNOWN_KIND);
    }
    if coordinates.len() % 2 != 0 {
        return Err(ODD_RUN);
    }
    let found = bounds_of(coordinates);
    if beyond_degrees(kind, found) {
        return Err(NOT_ALLOWED);
    }
    if found.xmin > found.xmax {
        return Ok(None);
    }
    if found.ymin > found.ymax {
        return Ok(None);
    }
    Ok(Some(found))
}

// The bounds of what counts on each axis; where nothing does, the least is above all and the greatest below.
fn bounds_of(coordinates: &[f64]) -> BoundingBox
    ensures { BoundsFound coordinates.now result }
{
    let mut x = Range::unmet();
    let mut y = Range::unmet();
    for point in 0..coordinates.len() / 2 {
        x = x.reaching(coordinates[2 * point]);
        y = y.reaching(coordinates[2 * point + 1]);
    }
    BoundingBox {
        xmin: x.least,
        xmax: x.greatest,
        ymin: y.least,
        ymax: y.greatest,
    }
}

// Whether the kind does not allow one of the bounds that were found, and so a coordinate. It allows those of an axis where nothing counts.
fn beyond_degrees(kind: u32, found: BoundingBox) -> bool
    ensures { result ≡ beyond_degrees kind found }
{
    if kind != GEOGRAPHY {
        return false;
    }
    is_beyond(found.xmin, found.xmax, MOST_X) | is_beyond(found.ymin, found.ymax, MOST_Y)
}

// Whether one of two bounds is beyond so many degrees.
fn is_beyond(least: f64, greatest: f64, most: f64) -> bool
    ensures { result ≡ (is_above (neg most) least || is_above greatest most) }
{
    (least < -most) | (greatest > most)
}
