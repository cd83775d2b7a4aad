// What an edition decides. Each question is answered for every number, known or not.
// A number, no enum: every entry takes any and promises its answer for each, 21 where it is none; an enum would ask more of callers.
ghost use Rattle.std.specs.Prelude.{◌≡◌};
ghost use Rattle.edition.specs.Editions.{is_known, scale_may_equal, int96_retired, has_geospatial};

// The edition of a caller that names none.
pub const FIRST: u32 = 1;

const SECOND: u32 = 2;

const THIRD: u32 = 3;

// Whether this is an edition. Every entry that takes one refuses any other number with 21.
#[tactic(auto, unfolding(crate::specs::Editions::is_known))]
pub fn is_known(edition: u32) -> bool
    ensures { result ≡ is_known edition }
{
    (FIRST..=THIRD).contains(&edition)
}

// Whether a DECIMAL's scale may equal its precision. This and the next are apart, since an edition decides each for itself.
#[tactic(auto, unfolding(crate::specs::Editions::scale_may_equal))]
pub fn scale_may_equal(edition: u32) -> bool
    ensures { result ≡ scale_may_equal edition }
{
    SECOND <= edition
}

// Whether INT96 is retired: no leaf may have it, whatever its annotation.
#[tactic(auto, unfolding(crate::specs::Editions::int96_retired))]
pub fn int96_retired(edition: u32) -> bool
    ensures { result ≡ int96_retired edition }
{
    THIRD <= edition
}

// Whether GEOMETRY and GEOGRAPHY are among the logical types.
#[tactic(auto, unfolding(crate::specs::Editions::has_geospatial))]
pub fn has_geospatial(edition: u32) -> bool
    ensures { result ≡ has_geospatial edition }
{
    edition >= THIRD
}
