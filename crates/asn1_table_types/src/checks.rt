//! Whether a type of a table meets the conditions of a lawful type, apart from the types that it leads to,
//! and whether the defaults of its components are values of their types.
#![tactic(auto, using(std::proofs::lemmas::Grind::common_steps))]

ghost use Rattle.std.specs.Prelude.{◌≡◌, ℕ, true, IfErr, OnOk, Some};
ghost use Rattle.asn1_model.specs.Lawful.{is_range, are_counts};
ghost use Rattle.asn1_schema_constraints.specs.Bounds.{range_of, counts_of};
ghost use Rattle.asn1_table_nodes.specs.Defaults.{AtSome, has_defaults};
ghost use Rattle.asn1_table_nodes.specs.Meaning.{type_of};
ghost use Rattle.asn1_table_types.specs.Flaws.{is_sound, lacks, bounds_lack, sizes_lack};
ghost use Rattle.asn1_table_types.specs.Tables.{IsDue};

use crate::choices::check_choice;
use crate::components::{check_group, check_sequence, check_set};
use crate::faults::Refusal;
use crate::groups::check_members;
use crate::items::check_items;
use crate::{Flaw, TypeNode};
use asn1_schema_constraints::{Bounded, Sizes};
use asn1_table_nodes::has_right_defaults;
use std::alloc::Global;

/// Checks the conditions of a lawful type for a node of a table.
pub fn check_node(alloc: Global, nodes: &[TypeNode], node: &TypeNode) -> Result<(), Refusal>
    ensures sound { OnOk result (is_sound (type_of nodes.now 2 (Some node.now)) ≡ true) }
    ensures lacking { IfErr result (λ r. IsDue (lacks (type_of nodes.now 2 (Some node.now))) r) }
{
    match node {
        TypeNode::Boolean => Ok(()),
        TypeNode::Null => Ok(()),
        TypeNode::ObjectIdentifier => Ok(()),
        TypeNode::Integer(None) => Ok(()),
        TypeNode::Integer(Some(limits)) => {
            check_numbers(limits.root)?;
            Ok(())
        }
        TypeNode::Enumerated(table) => {
            check_items(alloc, table)?;
            Ok(())
        }
        TypeNode::BitString(sizes) => {
            check_sizes(*sizes)?;
            Ok(())
        }
        TypeNode::OctetString(sizes) => {
            check_sizes(*sizes)?;
            Ok(())
        }
        TypeNode::CharacterString(table) => {
            check_sizes(table.sizes)?;
            Ok(())
        }
        TypeNode::SequenceOf(sizes, place) => {
            check_sizes(*sizes)?;
            check_members(nodes, *place)?;
            Ok(())
        }
        TypeNode::SetOf(sizes, place) => {
            check_sizes(*sizes)?;
            check_members(nodes, *place)?;
            Ok(())
        }
        TypeNode::Sequence(table) => {
            check_sequence(alloc, nodes, table)?;
            Ok(())
        }
        TypeNode::Set(table) => {
            check_set(alloc, nodes, table)?;
            Ok(())
        }
        TypeNode::Group(components) => {
            check_group(alloc, nodes, components.as_slice())?;
            Ok(())
        }
        TypeNode::Choice(table) => {
            check_choice(alloc, nodes, table)?;
            Ok(())
        }
    }
}

/// The lower bound, where there is one, is not above the upper one (X.680 51.4).
fn check_numbers(bounds: Bounded<i128>) -> Result<(), Flaw>
    ensures sound { OnOk result (is_range (range_of bounds) ≡ true) }
    ensures lacking { IfErr result (λ f. bounds_lack f (range_of bounds) ≡ true) }
{
    match bounds {
        Bounded::Range {
            start: Some(low),
            end: Some(high),
        } if low > high => Err(Flaw::BoundsOutOfOrder),
        _ => Ok(()),
    }
}

/// The least size is not above the greatest one (X.680 51.5).
fn check_sizes(sizes: Sizes) -> Result<(), Flaw>
    ensures sound { OnOk result (are_counts (counts_of sizes.root) ≡ true) }
    ensures lacking { IfErr result (λ f. sizes_lack f (counts_of sizes.root) ≡ true) }
{
    match sizes.root {
        Bounded::Range {
            start: Some(low),
            end: Some(high),
        } if low > high => Err(Flaw::SizesOutOfOrder),
        _ => Ok(()),
    }
}

/// The defaults of a node's components are values of the components' types.
pub fn check_defaults(nodes: &[TypeNode], node: &TypeNode) -> Result<(), Flaw>
    ensures typed { OnOk result ((n : ℕ) → has_defaults (type_of nodes.now n (Some node.now)) ≡ true) }
    ensures lacking { IfErr result (λ f. AtSome (λ n. lacks (type_of nodes.now n (Some node.now)) f) true) }
{
    if !has_right_defaults(nodes, node) {
        return Err(Flaw::DefaultOfOtherType);
    }
    Ok(())
}
