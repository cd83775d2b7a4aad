// The refusal of a unit that there is not.

use refusal::{Refusal, numbers};

// The unit is not 1 to 3.
pub(crate) const UNKNOWN_UNIT: Refusal = Refusal {
    number: numbers::UNKNOWN_TYPE,
    place: 0,
};
