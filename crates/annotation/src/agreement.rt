// Rule 9: converted and logical agree.
ghost use Rattle.std.specs.Prelude.{◌<◌, ◌||◌, ◌≡◌, eqb};
ghost use Rattle.parquet.specs.Converted.{NONE};
ghost use Rattle.annotation.specs.Packed.{DISAGREEMENT_MARK, converted_part};
ghost use Rattle.annotation.specs.Steps.{marked};

use crate::packed;
use parquet::converted;

// The packed annotation of a logical type, marked where a converted type stands beside it that is not its forward image.
pub(crate) fn agreed(annotation: u64, converted: u8) -> u64
    requires { annotation < DISAGREEMENT_MARK }
    ensures { result ≡ marked (eqb converted NONE || eqb (converted_part annotation) converted) annotation }
{
    if converted == converted::NONE {
        return annotation;
    }
    if packed::converted(annotation) == converted {
        return annotation;
    }
    annotation + packed::DISAGREEMENT_MARK
}
