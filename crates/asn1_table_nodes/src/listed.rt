//! What a type leads to: the types of elements, of components and of alternatives, by their indices.
#![tactic(auto, using(std::proofs::lemmas::Grind::common_steps))]

ghost use Rattle.std.specs.Prelude.{◌≡◌, slice_get};
ghost use Rattle.std.specs.Option.{option_copied, option_map};
ghost use Rattle.asn1_table_nodes.specs.Defaults.{elements_place, bag_place};
ghost use Rattle.asn1_table_nodes.specs.Listed.{additions_in, alternatives_in, root_in};

use crate::{Alternative, Component, TypeNode};

/// The index of the type of a SEQUENCE OF's elements.
pub fn elements_place(node: &TypeNode) -> Option<usize>
    ensures { result ≡ elements_place node.now }
{
    match node {
        TypeNode::SequenceOf(_sizes, place) => Some(*place),
        _ => None,
    }
}

/// The index of the type of a SET OF's elements.
pub fn bag_place(node: &TypeNode) -> Option<usize>
    ensures { result ≡ bag_place node.now }
{
    match node {
        TypeNode::SetOf(_sizes, place) => Some(*place),
        _ => None,
    }
}

/// The root components of a SEQUENCE or SET, or the components of a group of additions.
pub fn root_of(node: &TypeNode) -> Option<&[Component]>
    ensures { option_copied result ≡ root_in node.now }
{
    match node {
        TypeNode::Sequence(table) => Some(table.root.as_slice()),
        TypeNode::Set(table) => Some(table.root.as_slice()),
        TypeNode::Group(components) => Some(components.as_slice()),
        _ => None,
    }
}

/// The additions of a SEQUENCE or SET.
pub fn additions_of(node: &TypeNode) -> &[Component]
    ensures { result.now ≡ additions_in node.now }
{
    match node {
        TypeNode::Sequence(table) => table.additions.as_slice(),
        TypeNode::Set(table) => table.additions.as_slice(),
        _ => &[],
    }
}

/// The root alternatives of a CHOICE, or the added ones.
pub fn alternatives_of(node: &TypeNode, added: bool) -> &[Alternative]
    ensures { result.now ≡ alternatives_in added node.now }
{
    match node {
        TypeNode::Choice(table) => {
            if added {
                table.additions.as_slice()
            } else {
                table.root.as_slice()
            }
        }
        _ => &[],
    }
}

/// The index of the type of an alternative with this choice index, if there is one.
pub fn place_among(alternatives: &[Alternative], index: usize) -> Option<usize>
    ensures { result ≡ option_map (λ a. a.place) (slice_get alternatives.now index) }
{
    if index >= alternatives.len() {
        return None;
    }
    Some(alternatives[index].place)
}
