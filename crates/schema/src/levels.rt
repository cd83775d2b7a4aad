// What a node adds to the levels.
ghost use Rattle.std.specs.Prelude.{◌≡◌};
ghost use Rattle.schema.specs.Levels.{is_optional_or_repeated, is_repeated_code, counted};

use parquet::repetition;

// What a node of this repetition adds to the definition level.
pub(crate) fn in_definition(code: u8) -> u32
    ensures { result ≡ counted is_optional_or_repeated code }
{
    u32::from(code == repetition::OPTIONAL || code == repetition::REPEATED)
}

// What it adds to the repetition level.
pub(crate) fn in_repetition(code: u8) -> u32
    ensures { result ≡ counted is_repeated_code code }
{
    u32::from(code == repetition::REPEATED)
}
