// The refusals of conversion alone. None has a place.
use refusal::{Refusal, numbers};

// There are not twelve bytes.
pub(crate) const WRONG_LENGTH: Refusal = Refusal {
    number: numbers::WRONG_LENGTH,
    place: 0,
};

// The nanoseconds are a full day or more.
pub(crate) const BEYOND_DAY: Refusal = Refusal {
    number: numbers::BREAKS_ANNOTATION,
    place: 0,
};
