// The numbers of a slot, as its annotations are judged by.
ghost use Rattle.std.specs.Prelude.{◌≡◌};
ghost use Rattle.tree.specs.Annotated.{annotated_by};

use annotation::Annotated;
use sheet::Slot;

// The numbers of a slot that its annotations go by.
pub fn annotated(s: Slot) -> Annotated
    ensures { result ≡ annotated_by s }
{
    Annotated {
        physical: s.physical,
        type_length: s.type_length,
        converted: s.converted,
        logical: s.logical,
        a: s.a,
        b: s.b,
        scale: s.scale,
        precision: s.precision,
    }
}
