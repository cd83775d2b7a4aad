// Rule 8: the shape of a node.
ghost use Rattle.std.specs.Prelude.{◌≡◌};
ghost use Rattle.tree.specs.Rules.{root_shape, field_shape, length_shape, decimal_shape, is_nought, standing_shape, shape};

use crate::standing::Standing;
use parquet::{converted, logical, physical, repetition};
use sheet::Slot;

// Whether a node keeps rule 8.
#[tactic(auto, unfolding(crate::specs::Rules::shape))]
pub(crate) fn shape_kept(standing: Standing, s: Slot) -> bool
    ensures { result ≡ shape standing s s.children }
{
    standing_shape(standing, s)
        && length_shape(s.physical, s.type_length)
        && decimal_shape(s.converted, s.logical, s.scale, s.precision)
}

fn standing_shape(standing: Standing, s: Slot) -> bool
    ensures { result ≡ standing_shape standing s s.children }
{
    match standing {
        Standing::Root => root_shape(s.physical, s.repetition, s.converted, s.logical),
        Standing::Field | Standing::MapField => {
            field_shape(s.physical, s.repetition, s.children)
        }
    }
}

// The root is a group without repetition or annotation.
fn root_shape(physical: u8, repetition: u8, converted: u8, logical: u8) -> bool
    ensures { result ≡ root_shape physical repetition converted logical }
{
    physical == physical::GROUP
        && repetition == repetition::NONE
        && converted == converted::NONE
        && logical == logical::NONE
}

// Every other node has a repetition, a leaf no children and a group at least one.
fn field_shape(physical: u8, repetition: u8, children: u16) -> bool
    ensures { result ≡ field_shape physical repetition children }
{
    repetition != repetition::NONE
        && if physical == physical::GROUP {
            1 <= children
        } else {
            children == 0
        }
}

// The type length is at least 1 for FIXED, 0 otherwise.
fn length_shape(physical: u8, type_length: i32) -> bool
    ensures { result ≡ length_shape physical type_length }
{
    if physical == physical::FIXED_LEN_BYTE_ARRAY {
        1 <= type_length
    } else {
        is_nought(type_length)
    }
}

// Scale and precision are 0 unless either annotation is DECIMAL. Joined with `||` alone, it was 3 to 8 instructions a node more, 4 to 10
// in a thousand.
fn decimal_shape(converted: u8, logical: u8, scale: i32, precision: i32) -> bool
    ensures { result ≡ decimal_shape converted logical scale precision }
{
    if is_nought(scale) && is_nought(precision) {
        return true;
    }
    (converted == converted::DECIMAL) | (logical == logical::DECIMAL)
}

fn is_nought(x: i32) -> bool
    ensures { result ≡ is_nought x }
{
    x == 0
}
