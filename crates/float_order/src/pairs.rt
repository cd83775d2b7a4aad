// The order of two floats: numeric, zeros equal, and a NaN unordered.
ghost use Rattle.std.specs.Prelude.{◌≡◌, Float};
ghost use Rattle.float_order.specs.Floats.{float_order};

use std::cmp::Ordering;

// A float of either width.
pub trait Ordered {
    // The float as a number, or the NaN.
    ghost number: { Self → Float };

    // The first value against the second: none where one of them is a NaN.
    fn order(self, other: Self) -> Option<Ordering>
        ensures { result ≡ float_order (number self) (number other) };
}

// FLOAT.
impl Ordered for f32 {
    ghost number = { λ x. x };

    #[tactic(auto, using(crate::proofs::OrderLaws::partial_cmp_is))]
    fn order(self, other: f32) -> Option<Ordering> {
        self.partial_cmp(&other)
    }
}

// DOUBLE.
impl Ordered for f64 {
    ghost number = { λ x. x };

    #[tactic(auto, using(crate::proofs::OrderLaws::partial_cmp_is))]
    fn order(self, other: f64) -> Option<Ordering> {
        self.partial_cmp(&other)
    }
}
