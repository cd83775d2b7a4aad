// What a LIST's repeated group is by rule 12, as far as its fields tell.
ghost use Rattle.std.specs.Prelude.{◌≡◌};
ghost use Rattle.tree.specs.Layer.{layer_of};

use parquet::repetition;

#[derive(Clone, Copy, Debug, PartialEq, Eq)]
pub enum Layer {
    // Of several fields, or of one that is repeated: it is the element.
    Element,
    // Of one other field: it is the element where it is named so, and otherwise what holds it.
    ByName,
    // Of no field: neither.
    Empty,
}

// What a group of so many fields, the first of this repetition, is.
#[tactic(auto, unfolding(crate::specs::Layer::layer_of))]
pub fn layer_of(children: u16, first: u8) -> Layer
    ensures { result ≡ layer_of children first }
{
    match children {
        0 => Layer::Empty,
        1 if first != repetition::REPEATED => Layer::ByName,
        _ => Layer::Element,
    }
}
