// The refusals that boxes have. None has a place.
use refusal::{Refusal, numbers};

// The kind has no boxes.
pub(crate) const UNKNOWN_KIND: Refusal = Refusal {
    number: numbers::UNKNOWN_TYPE,
    place: 0,
};

// There is an x without its y.
pub(crate) const ODD_RUN: Refusal = Refusal {
    number: numbers::WRONG_LENGTH,
    place: 0,
};

// A box is none, or the kind does not allow a coordinate.
pub(crate) const NOT_ALLOWED: Refusal = Refusal {
    number: numbers::BREAKS_ANNOTATION,
    place: 0,
};
