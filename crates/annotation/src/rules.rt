// Rules 9, 10 and 11 in order.
ghost use Rattle.std.specs.Prelude.{◌≡◌};
ghost use Rattle.annotation.specs.Outcome.{number_of};
ghost use Rattle.annotation.specs.Steps.{check_by, plain_check, own_check, stands_by};

use crate::decimals::digits_hold;
use crate::packed;
use crate::placement::{is_retired, own_on};
use crate::slot::{Annotated, natural};
use parquet::logical;
use refusal::numbers;

// The first of the rules 9, 10 and 11 that the numbers of a slot break.
#[derive(Clone, Copy, Debug, PartialEq, Eq)]
pub enum Broken {
    // 9: converted and logical type disagree.
    Disagreement,
    // 10: an annotation is on the wrong physical type, length or parameters.
    Misplaced,
    // 11: a DECIMAL's scale or precision.
    BadDecimal,
}

impl Broken {
    // The number of its refusal: 9, 10 or 11.
    pub fn number(self) -> u8
        ensures { result ≡ number_of self }
    {
        match self {
            Broken::Disagreement => numbers::DISAGREEMENT,
            Broken::Misplaced => numbers::MISPLACED,
            Broken::BadDecimal => numbers::BAD_DECIMAL,
        }
    }
}

// Whether a packed annotation tells at once that the rules are kept, as it does for most annotated slots: it demands this physical type.
pub(crate) fn stands(annotation: u64, physical: u64) -> bool
    ensures { result ≡ stands_by annotation physical }
{
    physical == packed::demand(annotation)
}

// Whether the numbers of a slot keep the rules, by its packed annotation, or the first that they break. It is inlined with what it calls, so
// that no slot goes through memory.
#[tactic(auto, unfolding(crate::specs::Steps::check_by))]
#[inline(always)]
pub(crate) fn check(edition: u32, annotation: u64, n: Annotated) -> Result<(), Broken>
    ensures { result ≡ check_by edition annotation n }
{
    if annotation >= packed::DISAGREEMENT_MARK {
        return Err(Broken::Disagreement);
    }
    let demand = packed::demand(annotation);
    if n.physical as u64 == demand {
        return Ok(());
    }
    check_plain(edition, n.physical)?;
    match demand {
        packed::ANY_PHYSICAL => Ok(()),
        packed::OWN_RULE => check_own(edition, packed::logical(annotation), n),
        _ => Err(Broken::Misplaced),
    }
}

// The same of a slot without annotations.
pub(crate) fn check_plain(edition: u32, physical: u8) -> Result<(), Broken>
    ensures { result ≡ plain_check edition physical }
{
    if is_retired(edition, physical) {
        return Err(Broken::Misplaced);
    }
    Ok(())
}

// The same of rules 10 and 11 for an annotation that has a rule of its own.
#[tactic(auto, unfolding(crate::specs::Steps::own_check))]
#[inline(always)]
fn check_own(edition: u32, logical: u8, n: Annotated) -> Result<(), Broken>
    ensures { result ≡ own_check edition logical n }
{
    if !own_on(edition, logical, n.physical, natural(n.type_length)) {
        return Err(Broken::Misplaced);
    }
    if logical != logical::DECIMAL {
        return Ok(());
    }
    if digits_hold(edition, n) {
        return Ok(());
    }
    Err(Broken::BadDecimal)
}
