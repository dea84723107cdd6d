//! Whether defaults are values of their components' types (X.680 25).
#![tactic(auto, using(std::proofs::lemmas::Grind::common_steps))]

ghost use Rattle.std.specs.Prelude.{◌≡◌, ◌&&◌, Some, length, map, slice_get};
ghost use Rattle.asn1_model.specs.Lawful.{has_typed_default};
ghost use Rattle.asn1_model.specs.Normal.{is_required};
ghost use Rattle.std.specs.List.{list_all};
ghost use Rattle.asn1_model.specs.Strings.{is_identifier, is_octet, is_of_octets, may_hold};
ghost use Rattle.asn1_model.specs.Value.{values_of};
ghost use Rattle.asn1_table_nodes.specs.Defaults.{is_number_of, is_size_of, is_text_of, is_scalar};
ghost use Rattle.asn1_table_nodes.specs.Defaults.{elements_place, bag_place, chosen_place, place_in, has_type};
ghost use Rattle.asn1_table_nodes.specs.Defaults.{have_type, have_parts, has_defaults, have_defaults, Decides};
ghost use Rattle.asn1_table_nodes.specs.Meaning.{components_of, kind_of, presence_of, type_of, type_at};
ghost use Rattle.asn1_table_nodes.specs.Values.{part_of, parts_of, value_of};
ghost use Rattle.asn1_values_alphabets.specs.Permitted.{permits_all};

use crate::items::is_item;
use crate::listed::{additions_of, bag_place, elements_place, place_among, root_of};
use crate::{
    AlternativeTable, Component, DefaultValue, Event, NumberLimits, Presence, StringKind,
    StringTable, TypeNode,
};
use asn1_schema_constraints::{Bounded, Sizes};
use asn1_schema_tags::Chosen;
use asn1_values_identifiers::{ObjectIdentifier, subidentifiers_of};
use asn1_values_integers::Integer;
use asn1_values_strings::utf8_texts::text_of;
use asn1_values_strings::{
    CharacterKind, General, Graphic, Ia5, Numeric, Printable, Teletex, Visible,
};

/// Whether the defaults of a node's components are values of the components' types.
pub fn has_right_defaults(nodes: &[TypeNode], node: &TypeNode) -> bool
    ensures { Decides (λ n. has_defaults (type_of nodes.now n (Some node.now))) result }
{
    match node {
        TypeNode::Sequence(table) => {
            are_both_right(nodes, table.root.as_slice(), table.additions.as_slice())
        }
        TypeNode::Set(table) => {
            are_both_right(nodes, table.root.as_slice(), table.additions.as_slice())
        }
        TypeNode::Group(components) => are_right(nodes, components.as_slice()),
        _ => true,
    }
}

/// Whether the defaults of root components and of additions are values of their types.
fn are_both_right(nodes: &[TypeNode], root: &[Component], additions: &[Component]) -> bool
    ensures { Decides (λ n. have_defaults (components_of (λ i. type_at nodes.now n i) root.now)
        && have_defaults (components_of (λ i. type_at nodes.now n i) additions.now)) result }
{
    are_right(nodes, root) && are_right(nodes, additions)
}

/// Whether the defaults of some components are values of their types.
fn are_right(nodes: &[TypeNode], components: &[Component]) -> bool
    ensures { Decides (λ n. have_defaults (components_of (λ i. type_at nodes.now n i) components.now)) result }
{
    for component in components {
        if !is_right(nodes, component) {
            return false;
        }
    }
    true
}

/// Whether a component's default, if it has one, is a value of its type.
fn is_right(nodes: &[TypeNode], component: &Component) -> bool
    ensures { Decides (λ n. has_typed_default (type_at nodes.now n component.now.place)
        (presence_of component.now.presence)) result }
{
    match &component.presence {
        Presence::Default(value) => is_of_type(nodes, component.place, value),
        _ => true,
    }
}

/// Whether a value is of the type at an index.
#[cycle(typed)]
fn is_of_type(nodes: &[TypeNode], place: usize, value: &DefaultValue) -> bool
    ensures { result ≡ has_type nodes.now (slice_get nodes.now place) (value_of value.now) }
{
    match nodes.get(place) {
        None => true,
        Some(node) => is_of_node(nodes, node, value),
    }
}

/// Whether a value is of a type.
#[cycle(typed)]
fn is_of_node(nodes: &[TypeNode], node: &TypeNode, value: &DefaultValue) -> bool
    ensures { result ≡ has_type nodes.now (Some node.now) (value_of value.now) }
{
    match value {
        DefaultValue::Simple(event) => is_scalar_of(node, event),
        DefaultValue::SequenceOf(elements) => match elements_place(node) {
            None => false,
            Some(place) => are_of_type(nodes, place, elements.as_slice()),
        },
        DefaultValue::SetOf(elements) => match bag_place(node) {
            None => false,
            Some(place) => are_of_type(nodes, place, elements.as_slice()),
        },
        DefaultValue::Choice(chosen, value) => match chosen_place(node, *chosen) {
            None => false,
            Some(place) => is_of_type(nodes, place, value),
        },
        DefaultValue::Components(root, additions) => match root_of(node) {
            None => false,
            Some(components) => {
                have_parts(nodes, components, root.as_slice())
                    && have_parts(nodes, additions_of(node), additions.as_slice())
            }
        },
    }
}

/// Whether values are all of the type at an index.
#[cycle(typed)]
fn are_of_type(nodes: &[TypeNode], place: usize, values: &[DefaultValue]) -> bool
    ensures { result ≡ have_type nodes.now (slice_get nodes.now place) (values_of (map value_of values.now)) }
{
    for value in values {
        if !is_of_type(nodes, place, value) {
            return false;
        }
    }
    true
}

/// Whether parts are those of components (X.680 25).
#[cycle(typed)]
fn have_parts(nodes: &[TypeNode], components: &[Component], parts: &[Option<DefaultValue>]) -> bool
    ensures { result ≡ have_parts nodes.now components.now (parts_of (map part_of parts.now)) }
{
    if components.len() != parts.len() {
        return false;
    }
    for (component, part) in components.iter().zip(parts) {
        let is_part = match part {
            None => !is_required(&component.presence),
            Some(value) => is_of_type(nodes, component.place, value),
        };
        if !is_part {
            return false;
        }
    }
    true
}

/// Whether a component is always there.
fn is_required(presence: &Presence) -> bool
    ensures { result ≡ is_required (presence_of presence.now) }
{
    matches!(presence, Presence::Required)
}

/// The index of the type of the chosen alternative of a CHOICE, if there is one.
fn chosen_place(node: &TypeNode, chosen: Chosen) -> Option<usize>
    ensures { result ≡ chosen_place chosen.added chosen.place node.now }
{
    match node {
        TypeNode::Choice(table) => place_in(table, chosen),
        _ => None,
    }
}

/// The index of the type of an alternative, if there is one.
fn place_in(table: &AlternativeTable, chosen: Chosen) -> Option<usize>
    ensures { result ≡ place_in chosen.added chosen.place table.now }
{
    if !chosen.added {
        return place_among(table.root.as_slice(), chosen.place);
    }
    if !table.is_extensible {
        return None;
    }
    place_among(table.additions.as_slice(), chosen.place)
}

/// Whether a value without parts is of a type.
fn is_scalar_of(node: &TypeNode, event: &Event) -> bool
    ensures { result ≡ is_scalar node.now event.now }
{
    match event {
        Event::Truth(_) => matches!(node, TypeNode::Boolean),
        Event::Nothing => matches!(node, TypeNode::Null),
        Event::Number(number) => match node {
            TypeNode::Integer(limits) => is_number(*limits, number),
            _ => false,
        },
        Event::Item(item) => match node {
            TypeNode::Enumerated(table) => is_item(table, *item),
            _ => false,
        },
        Event::Bits(bits) => match node {
            TypeNode::BitString(sizes) => is_size(*sizes, bits.len()),
            _ => false,
        },
        Event::Octets(octets) => match node {
            TypeNode::OctetString(sizes) => are_octets(*sizes, octets.as_slice()),
            _ => false,
        },
        Event::Text(octets) => match node {
            TypeNode::CharacterString(table) => is_text(table, octets.as_slice()),
            _ => false,
        },
        Event::Arcs(arcs) => match node {
            TypeNode::ObjectIdentifier => has_octets(arcs),
            _ => false,
        },
    }
}

/// Whether a number is one of an INTEGER: under a value constraint one of 128 bits (X.680 19 and 51.4).
fn is_number(limits: Option<NumberLimits>, number: &Integer) -> bool
    ensures { result ≡ is_number_of limits number.now }
{
    match limits {
        None => true,
        Some(limits) => {
            let wide = Bounded::Range {
                start: Some(i128::MIN),
                end: Some(i128::MAX),
            };
            wide.in_bound(number) && (limits.is_extensible || limits.root.in_bound(number))
        }
    }
}

/// Whether octets are those of an OCTET STRING (X.680 23 and 51.5).
fn are_octets(sizes: Sizes, octets: &[u8]) -> bool
    ensures { result ≡ (list_all is_octet octets.now && is_size_of sizes (length octets.now)) }
{
    is_size(sizes, octets.len())
}

/// Whether characters are those of a restricted character string (X.680 41 and 51.5).
fn is_text(table: &StringTable, characters: &[u8]) -> bool
    ensures { result ≡ is_text_of table.now characters.now }
{
    may_hold(table.kind, characters)
        && (is_of_octets(table.kind) || is_size(table.sizes, characters.len()))
}

/// Whether a restricted character string is represented by its octets, so that its length is no size.
fn is_of_octets(kind: StringKind) -> bool
    ensures { result ≡ is_of_octets (kind_of kind) }
{
    matches!(
        kind,
        StringKind::General | StringKind::Graphic | StringKind::Teletex | StringKind::Utf8
    )
}

/// Whether a string of a kind may hold these characters (X.680 41).
fn may_hold(kind: StringKind, characters: &[u8]) -> bool
    ensures { result ≡ may_hold (kind_of kind) characters.now }
{
    match kind {
        StringKind::Numeric => are_permitted::<Numeric>(characters),
        StringKind::Printable => are_permitted::<Printable>(characters),
        StringKind::Visible => are_permitted::<Visible>(characters),
        StringKind::Ia5 => are_permitted::<Ia5>(characters),
        StringKind::Bmp => true,
        StringKind::General => are_permitted::<General>(characters),
        StringKind::Graphic => are_permitted::<Graphic>(characters),
        StringKind::Teletex => are_permitted::<Teletex>(characters),
        StringKind::Utf8 => text_of(characters).is_some(),
    }
}

/// Whether a kind permits each of these characters.
fn are_permitted<K: CharacterKind>(characters: &[u8]) -> bool
    ensures { result ≡ permits_all K.kind characters.now }
{
    for character in characters {
        if !K::permits(u32::from(*character)) {
            return false;
        }
    }
    true
}

/// Whether a string of this length is admitted (X.680 51.5).
fn is_size(sizes: Sizes, length: usize) -> bool
    ensures { result ≡ is_size_of sizes length }
{
    sizes.is_extensible || sizes.root.contains(&length)
}

/// Whether arcs have contents octets: there are at least two (X.690 8.19).
fn has_octets(arcs: &ObjectIdentifier) -> bool
    ensures { result ≡ is_identifier arcs.now }
{
    match subidentifiers_of(&arcs.as_oid()) {
        Some(_) => true,
        None => false,
    }
}
