// The refusals of ordering that are laid on neither value.
ghost use Rattle.std.specs.Prelude.{◌≡◌};
ghost use Rattle.refusal.specs.Faults.{NEITHER as NEITHER_SIDE, fault};
ghost use Rattle.column_type.specs.Lawful.{type_refusal};

use column_type::type_refusal;
use refusal::{Fault, NEITHER, Refusal, numbers};

// This column has no order.
pub(crate) const NO_ORDER: Fault = Fault {
    side: NEITHER,
    refusal: Refusal {
        number: numbers::NO_ORDER,
        place: 0,
    },
};

// The column type is not lawful in the edition.
pub(crate) fn unlawful_type(edition: u32) -> Fault
    ensures { result ≡ fault NEITHER_SIDE (type_refusal edition) }
{
    let refusal = type_refusal(edition);
    Fault {
        side: NEITHER,
        refusal,
    }
}
