// The role of a node, by what its parent is to it.
ghost use Rattle.std.specs.Prelude.{◌≡◌};
ghost use Rattle.sheet.specs.Slot.{slot_at};
ghost use Rattle.schema.specs.Rows.{is_map_parent, role as Rows·role, list_role, own_role, parent_by, after_first};
ghost use Rattle.schema.specs.Steps.{role_number};
ghost use Rattle.tree.specs.Steps.{Visited, fields_at};

use parquet::{logical, physical, repetition};
use sheet::Slot;
use tree::{Layer, layer_of, named_element};

// What a node's parent is to it, as far as roles go.
#[derive(Clone, Copy, Debug, PartialEq, Eq)]
pub enum Parent {
    // Neither LIST nor MAP, and no layer of one.
    Other,
    List,
    ListLayer,
    Map,
    // A key_value layer, of which this is the first field, or a later one.
    KeyValue,
    KeyValueRest,
}

// The role of a node, with its number in a row.
#[derive(Clone, Copy, Debug, PartialEq, Eq)]
pub enum Role {
    Field = 0,
    ListLayer = 1,
    Element = 2,
    ElementLayer = 3,
    KeyValueLayer = 4,
    Key = 5,
    Value = 6,
    BareRepeated = 7,
}

impl Role {
    // Its number in a row.
    #[tactic(auto, unfolding(crate::specs::Steps::role_number))]
    pub(crate) fn number(self) -> u32
        ensures { result ≡ role_number self }
    {
        self as u32
    }
}

// A kind is its number, as a row has it for C.
const LIST: u32 = logical::LIST as u32;

const MAP: u32 = logical::MAP as u32;

// Whether a parent is a resolved MAP.
pub(crate) fn is_map_parent(parent: Parent) -> bool
    ensures { result ≡ is_map_parent parent }
{
    parent == Parent::Map
}

// The role of the node at a number, under the parent.
// That its numbers are its slot's stands here and at `list_role` alone: `tree` keeps its struct of a visited node to itself.
pub(crate) fn role_of(sheet: &[u8], parent_at: usize, at: usize, s: Slot, parent: Parent) -> Role
    requires { Visited sheet.now at s }
    ensures { role_number result ≡ Rows·role parent (slot_at sheet.now parent_at) (slot_at sheet.now at) (fields_at sheet.now at) }
{
    match parent {
        Parent::Other => own_role(s.repetition),
        Parent::List => list_role(sheet, parent_at, at, s),
        Parent::ListLayer => Role::Element,
        Parent::Map => Role::KeyValueLayer,
        Parent::KeyValue => Role::Key,
        Parent::KeyValueRest => Role::Value,
    }
}

// The role of a node to which rules 12 and 13 give none.
#[tactic(auto, unfolding(crate::specs::Steps::role_number))]
fn own_role(repetition: u8) -> Role
    ensures { role_number result ≡ own_role repetition }
{
    if repetition == repetition::REPEATED {
        Role::BareRepeated
    } else {
        Role::Field
    }
}

// The role of the child of the LIST at its parent's number.
fn list_role(sheet: &[u8], parent_at: usize, at: usize, s: Slot) -> Role
    requires { Visited sheet.now at s }
    ensures { role_number result ≡ list_role (slot_at sheet.now parent_at) (slot_at sheet.now at) (fields_at sheet.now at) }
{
    if s.physical != physical::GROUP {
        return Role::Element;
    }
    let first = sheet::slot_at(sheet, at + 1);
    match layer_of(s.children, first.repetition) {
        Layer::Empty => Role::ListLayer,
        Layer::Element => Role::ElementLayer,
        Layer::ByName if named_element(sheet, parent_at, at) => Role::ElementLayer,
        Layer::ByName => Role::ListLayer,
    }
}

// What a node of some kind and role is to its fields.
pub(crate) fn parent_by(kind: u32, role: Role) -> Parent
    ensures { result ≡ parent_by kind (role_number role) }
{
    if kind == LIST {
        return Parent::List;
    }
    if kind == MAP {
        return Parent::Map;
    }
    match role {
        Role::ListLayer => Parent::ListLayer,
        Role::KeyValueLayer => Parent::KeyValue,
        _ => Parent::Other,
    }
}

// What it is to the fields after the first.
pub(crate) fn after_first(parent: Parent) -> Parent
    ensures { result ≡ after_first parent }
{
    match parent {
        Parent::KeyValue => Parent::KeyValueRest,
        same => same,
    }
}
