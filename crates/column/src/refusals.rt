// The refusals of a value behind those of its column type. Text alone is refused at a byte, and anything else at 0.
ghost use Rattle.std.specs.Prelude.{◌≡◌};
ghost use Rattle.refusal.specs.Numbers.{BREAKS_ANNOTATION as BREAKS_ITS_ANNOTATION};
ghost use Rattle.refusal.specs.Outcome.{refusal};

use refusal::{Refusal, numbers};

// The value has the wrong length, or more than 65,536 bytes.
pub(crate) const WRONG_LENGTH: Refusal = Refusal {
    number: numbers::WRONG_LENGTH,
    place: 0,
};

// The value, which is no text, breaks its annotation.
pub(crate) const BREAKS_ANNOTATION: Refusal = Refusal {
    number: numbers::BREAKS_ANNOTATION,
    place: 0,
};

// The text breaks its annotation at this byte.
pub(crate) fn breaks_annotation_at(place: usize) -> Refusal
    ensures { result ≡ refusal BREAKS_ITS_ANNOTATION place }
{
    Refusal {
        number: numbers::BREAKS_ANNOTATION,
        place,
    }
}
