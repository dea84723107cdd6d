//! Whether defaults are in normal form: no component has its own default as its value, and no group of additions is
//! empty (X.691 19.5 and 19.9, X.696 16).
#![tactic(auto, using(std::proofs::lemmas::Grind::common_steps))]

ghost use Rattle.std.specs.Prelude.{◌≡◌, Some, map, slice_get};
ghost use Rattle.asn1_model.specs.Value.{are_absent, values_of};
ghost use Rattle.asn1_table_nodes.specs.Meaning.{presence_of};
ghost use Rattle.asn1_table_nodes.specs.Reduced.{are_reduced, has_reduced_default, has_reduced_defaults};
ghost use Rattle.asn1_table_nodes.specs.Reduced.{have_reduced, have_reduced_defaults, is_group_without, is_left_out};
ghost use Rattle.asn1_table_nodes.specs.Reduced.{is_own_default, is_reduced, is_without};
ghost use Rattle.asn1_table_nodes.specs.Values.{part_of, parts_of, value_of};

use crate::listed::{
    additions_of, alternatives_of, bag_place, elements_place, place_among, root_of,
};
use crate::sameness::is_same_value;
use crate::{Component, DefaultValue, Presence, TypeNode};

/// Whether the defaults of a node's components are in normal form.
pub fn has_reduced_defaults(nodes: &[TypeNode], node: &TypeNode) -> bool
    ensures { result ≡ has_reduced_defaults nodes.now (Some node.now) }
{
    match root_of(node) {
        None => true,
        Some(components) => {
            have_reduced_defaults(nodes, components)
                && have_reduced_defaults(nodes, additions_of(node))
        }
    }
}

/// Whether the defaults of components are.
fn have_reduced_defaults(nodes: &[TypeNode], components: &[Component]) -> bool
    ensures { result ≡ have_reduced_defaults nodes.now components.now }
{
    for component in components {
        if !has_reduced_default(nodes, component) {
            return false;
        }
    }
    true
}

/// Whether a component's default, if it has one, is.
fn has_reduced_default(nodes: &[TypeNode], component: &Component) -> bool
    ensures { result ≡ has_reduced_default nodes.now component.now }
{
    match &component.presence {
        Presence::Default(value) => is_reduced(nodes, component.place, value),
        _ => true,
    }
}

/// Whether a value of the type at an index is.
#[cycle(reduced)]
fn is_reduced(nodes: &[TypeNode], place: usize, value: &DefaultValue) -> bool
    ensures { result ≡ is_reduced nodes.now (slice_get nodes.now place) (value_of value.now) }
{
    match nodes.get(place) {
        None => true,
        Some(node) => is_reduced_of(nodes, node, value),
    }
}

/// Whether a value of a type is.
#[cycle(reduced)]
fn is_reduced_of(nodes: &[TypeNode], node: &TypeNode, value: &DefaultValue) -> bool
    ensures { result ≡ is_reduced nodes.now (Some node.now) (value_of value.now) }
{
    match value {
        DefaultValue::Simple(_) => true,
        DefaultValue::SequenceOf(elements) => match elements_place(node) {
            None => true,
            Some(place) => are_reduced(nodes, place, elements.as_slice()),
        },
        DefaultValue::SetOf(elements) => match bag_place(node) {
            None => true,
            Some(place) => are_reduced(nodes, place, elements.as_slice()),
        },
        DefaultValue::Choice(chosen, value) => {
            match place_among(alternatives_of(node, chosen.added), chosen.place) {
                None => true,
                Some(place) => is_reduced(nodes, place, value),
            }
        }
        DefaultValue::Components(root, additions) => match root_of(node) {
            None => true,
            Some(components) => {
                have_reduced(nodes, components, root.as_slice())
                    && have_reduced(nodes, additions_of(node), additions.as_slice())
            }
        },
    }
}

/// Whether values of the type at an index all are.
#[cycle(reduced)]
fn are_reduced(nodes: &[TypeNode], place: usize, values: &[DefaultValue]) -> bool
    ensures { result ≡ are_reduced nodes.now (slice_get nodes.now place) (values_of (map value_of values.now)) }
{
    for value in values {
        if !is_reduced(nodes, place, value) {
            return false;
        }
    }
    true
}

/// Whether no part of components is left out, and each is in normal form.
#[cycle(reduced)]
fn have_reduced(
    nodes: &[TypeNode],
    components: &[Component],
    parts: &[Option<DefaultValue>],
) -> bool
    ensures { result ≡ have_reduced nodes.now components.now (parts_of (map part_of parts.now)) }
{
    for (component, part) in components.iter().zip(parts) {
        let is_kept = match part {
            None => true,
            Some(value) => {
                !is_left_out(nodes, component, value) && is_reduced(nodes, component.place, value)
            }
        };
        if !is_kept {
            return false;
        }
    }
    true
}

/// Whether the normal form leaves out a component with this value.
fn is_left_out(nodes: &[TypeNode], component: &Component, value: &DefaultValue) -> bool
    ensures { result ≡ is_left_out nodes.now component.now (value_of value.now) }
{
    is_own_default(&component.presence, value) || is_empty_group(nodes, component.place, value)
}

/// Whether a value is a component's own default.
fn is_own_default(presence: &Presence, value: &DefaultValue) -> bool
    ensures { result ≡ is_own_default (presence_of presence.now) (value_of value.now) }
{
    match presence {
        Presence::Default(default) => is_same_value(value, default),
        _ => false,
    }
}

/// Whether the type at an index is a group of additions, and no component of it is there.
fn is_empty_group(nodes: &[TypeNode], place: usize, value: &DefaultValue) -> bool
    ensures { result ≡ is_group_without (slice_get nodes.now place) (value_of value.now) }
{
    match nodes.get(place) {
        Some(TypeNode::Group(_)) => is_without(value),
        _ => false,
    }
}

/// Whether a value has components and none is there.
fn is_without(value: &DefaultValue) -> bool
    ensures { result ≡ is_without (value_of value.now) }
{
    match value {
        DefaultValue::Components(root, _additions) => are_absent(root.as_slice()),
        _ => false,
    }
}

/// Whether no part is there.
fn are_absent(parts: &[Option<DefaultValue>]) -> bool
    ensures { result ≡ are_absent (parts_of (map part_of parts.now)) }
{
    for part in parts {
        if part.is_some() {
            return false;
        }
    }
    true
}
