// Repetitions that rules 12 and 13 ask for.
ghost use Rattle.std.specs.Prelude.{◌≡◌};
ghost use Rattle.tree.specs.Rules.{is_required_or_optional};

use parquet::repetition;

pub(crate) fn required_or_optional(code: u8) -> bool
    ensures { result ≡ is_required_or_optional code }
{
    code == repetition::REQUIRED || code == repetition::OPTIONAL
}
