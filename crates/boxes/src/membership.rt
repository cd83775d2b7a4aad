// Whether a point is inside a box.
ghost use Rattle.std.specs.Prelude.{◌≡◌, ◌||◌};
ghost use Rattle.std.specs.Float.Ieee.{neg, is_nan};
ghost use Rattle.boxes.specs.Coordinates.{is_between};
ghost use Rattle.boxes.specs.Membership.{inside_x, has_nan, is_box, allows_point, tested, membership};

use crate::bounding_box::{BoundingBox, GEOGRAPHY, MOST_X, MOST_Y, has_boxes};
use crate::refusals::{NOT_ALLOWED, UNKNOWN_KIND};
use refusal::Refusal;

// Whether a point is inside a box of a kind. A box may go round in x: its xmin is then above its xmax. A NaN is inside nothing.
pub fn contains(kind: u32, bounding_box: BoundingBox, x: f64, y: f64) -> Result<bool, Refusal>
    ensures { tested result ≡ membership kind bounding_box x y }
{
    if !has_boxes(kind) {
        return Err(UNKNOWN_KIND);
    }
    if !is_box(kind, bounding_box) {
        return Err(NOT_ALLOWED);
    }
    if !allows_point(kind, x, y) {
        return Err(NOT_ALLOWED);
    }
    Ok(inside_x(bounding_box, x) & is_between(bounding_box.ymin, bounding_box.ymax, y))
}

// Whether a box is one: no bound is a NaN, ymin is not above ymax, and the kind allows each bound.
fn is_box(kind: u32, b: BoundingBox) -> bool
    ensures { result ≡ is_box kind b }
{
    if has_nan(b) {
        return false;
    }
    if b.ymin > b.ymax {
        return false;
    }
    allows_point(kind, b.xmin, b.ymin) & allows_point(kind, b.xmax, b.ymax)
}

// Whether a bound is a NaN.
#[tactic(auto, unfolding(crate::specs::Membership::has_nan))]
fn has_nan(b: BoundingBox) -> bool
    ensures { result ≡ has_nan b }
{
    b.xmin.is_nan() | b.xmax.is_nan() | b.ymin.is_nan() | b.ymax.is_nan()
}

// Whether the kind allows both coordinates of a point.
fn allows_point(kind: u32, x: f64, y: f64) -> bool
    ensures { result ≡ allows_point kind x y }
{
    if kind != GEOGRAPHY {
        return true;
    }
    allows_degrees(x, MOST_X) & allows_degrees(y, MOST_Y)
}

// Whether a coordinate is a NaN, or lies within so many degrees either way.
fn allows_degrees(v: f64, most: f64) -> bool
    ensures { result ≡ (is_nan v || is_between (neg most) most v) }
{
    v.is_nan() | is_between(-most, most, v)
}

// Whether x is inside: from xmin to xmax, or, where xmin is above xmax, from xmin up or from xmax down.
fn inside_x(b: BoundingBox, x: f64) -> bool
    ensures { result ≡ inside_x b x }
{
    if b.xmin > b.xmax {
        return (b.xmin <= x) | (x <= b.xmax);
    }
    is_between(b.xmin, b.xmax, x)
}

// Whether a number is on or between the bounds.
fn is_between(least: f64, greatest: f64, v: f64) -> bool
    ensures { result ≡ is_between least greatest v }
{
    (least <= v) & (v <= greatest)
}
