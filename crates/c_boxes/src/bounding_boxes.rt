// The box of points, and whether a point is inside a box.
ghost use Rattle.std.specs.Prelude.{◌≡◌};
ghost use Rattle.boxes.specs.Membership.{membership};
ghost use Rattle.c_boxes.specs.Boxes.{bounding_box_of, Boxing, test_answer};

use boxes::BoundingBox;
use c_answer::{RESULT, packed, refused};

// How many numbers are written of a box.
const BOUNDS: u32 = 4;

// Writes the box of points: xmin, xmax, ymin, ymax. The value is 4, or 0 where there is no box.
pub fn box_of(kind: u32, coordinates: &[f64], bounds: &mut [f64]) -> u64
    ensures { Boxing kind coordinates.now bounds.old result bounds.new }
{
    match boxes::box_of(kind, coordinates) {
        Ok(Some(b)) => c_answer::write(BOUNDS, [b.xmin, b.xmax, b.ymin, b.ymax], bounds),
        Ok(None) => packed(RESULT, 0),
        Err(r) => refused(r),
    }
}

// Tests whether a point is inside a box. The value is 1 where it is, and 0 where it is not.
pub fn inside(kind: u32, xmin: f64, xmax: f64, ymin: f64, ymax: f64, x: f64, y: f64) -> u64
    ensures { result ≡ test_answer (membership kind (bounding_box_of xmin xmax ymin ymax) x y) }
{
    let b = BoundingBox {
        xmin,
        xmax,
        ymin,
        ymax,
    };
    match boxes::contains(kind, b, x, y) {
        Ok(is_inside) => packed(RESULT, is_inside as u32),
        Err(r) => refused(r),
    }
}
