//! Components by their indices.
#![tactic(auto, using(std::proofs::lemmas::Grind::common_steps))]

ghost use Rattle.std.specs.Prelude.{◌≡◌, slice_get};
ghost use Rattle.std.specs.Option.{option_copied};
ghost use Rattle.asn1_table_names.specs.Names.{addition_of, group_of, items_in};

use asn1_schema_tags::{Chosen, ItemTables};
use asn1_table_tape::{Event, lists_at};
use asn1_table_types::{Component, TypeNode, Types};

/// A component of a SEQUENCE or SET, by its index in the table (X.680 25 and 27).
#[derive(Clone, Copy, Debug, PartialEq, Eq)]
pub enum Part {
    /// The root component at an index.
    Root(usize),
    /// The addition at an index.
    Addition(usize),
    /// A component of a group of additions.
    Grouped {
        /// The index of the group among the additions.
        addition: usize,
        /// The index of the component in the group.
        component: usize,
    },
}

/// The root component at an index of the SEQUENCE, SET or group at an index of a table, or a group's component.
pub fn root_at(types: &Types, place: usize, index: usize) -> Option<&Component> {
    lists_at(types, place)?.root().get(index)
}

/// The addition at an index of the SEQUENCE or SET at an index of a table.
pub fn addition_at(types: &Types, place: usize, index: usize) -> Option<&Component>
    ensures { option_copied result ≡ addition_of types.now.nodes.items place index }
{
    lists_at(types, place)?.additions().get(index)
}

/// A component of the SEQUENCE or SET at an index of a table.
pub fn component_at(types: &Types, place: usize, part: Part) -> Option<&Component> {
    match part {
        Part::Root(index) => root_at(types, place, index),
        Part::Addition(index) => addition_at(types, place, index),
        Part::Grouped {
            addition,
            component,
        } => root_at(types, group_at(types, place, addition)?, component),
    }
}

/// The index of the type of the group of additions at an index of the SEQUENCE or SET at an index.
pub fn group_at(types: &Types, place: usize, index: usize) -> Option<usize>
    ensures { result ≡ group_of types.now.nodes.items place index }
{
    let group = addition_at(types, place, index)?.place;
    match types.node(group) {
        Some(TypeNode::Group(_)) => Some(group),
        _ => None,
    }
}

/// Whether a group of additions is at an index of a table.
pub fn is_group(types: &Types, place: usize) -> bool {
    matches!(types.node(place), Some(TypeNode::Group(_)))
}

/// Whether additions, or an extension marker, follow the root components of the type at an index.
pub fn has_additions(types: &Types, place: usize) -> bool {
    match lists_at(types, place) {
        Some(lists) => lists.is_extensible() || !lists.additions().is_empty(),
        None => false,
    }
}

/// The items of the ENUMERATED at an index, if one is there.
pub fn items_at(types: &Types, place: usize) -> Option<ItemTables<'_>>
    ensures { result ≡ items_in (slice_get types.now.nodes.items place) }
{
    match types.node(place) {
        Some(TypeNode::Enumerated(table)) => Some(ItemTables::new(
            table.root.as_slice(),
            table.is_extensible,
            table.additions.as_slice(),
        )),
        _ => None,
    }
}

/// Whether a type is a SEQUENCE OF or SET OF.
pub fn is_list(node: &TypeNode) -> bool {
    match node {
        TypeNode::SequenceOf(_, _) => true,
        TypeNode::SetOf(_, _) => true,
        _ => false,
    }
}

/// Whether a type is a SEQUENCE or SET.
pub fn is_sequence(node: &TypeNode) -> bool {
    match node {
        TypeNode::Sequence(_) => true,
        TypeNode::Set(_) => true,
        _ => false,
    }
}

/// The index of the type of an alternative, if the type is a CHOICE that has it.
pub fn alternative_of(node: &TypeNode, chosen: Chosen) -> Option<usize> {
    let TypeNode::Choice(table) = node else {
        return None;
    };
    if chosen.added {
        return Some(table.additions.get(chosen.place)?.place);
    }
    Some(table.root.get(chosen.place)?.place)
}

/// Whether an event is of the kind of a type without parts.
pub fn is_scalar(node: &TypeNode, event: &Event) -> bool {
    match event {
        Event::Flag(_) => matches!(node, TypeNode::Boolean),
        Event::Nil => matches!(node, TypeNode::Null),
        Event::Number(_, _) => matches!(node, TypeNode::Integer(_)),
        Event::Item(_, _) => matches!(node, TypeNode::Enumerated(_)),
        Event::Bits(_, _) => matches!(node, TypeNode::BitString(_)),
        Event::Octets(_, _) => matches!(node, TypeNode::OctetString(_)),
        Event::Text(_, _) => matches!(node, TypeNode::CharacterString(_)),
        Event::Arcs(_) => matches!(node, TypeNode::ObjectIdentifier),
        _ => false,
    }
}
