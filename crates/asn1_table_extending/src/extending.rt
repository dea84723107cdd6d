//! Whether a type of one table is a newer version of a type of another, however deep both are unfolded.
ghost use Rattle.std.specs.Prelude.{◌≡◌, ℕ, IfErr, OnOk, slice_get};
ghost use Rattle.asn1_model.specs.Versions.{Begins, Extends};
ghost use Rattle.asn1_schema_constraints.specs.Terms.{size_of};
ghost use Rattle.asn1_table_nodes.specs.Meaning.{type_at};
ghost use Rattle.asn1_table_extending.specs.Differing.{BothDiffer, IsDue, IsRefusedAt, NodesDiffer};
ghost use Rattle.asn1_table_extending.specs.Differing.{ScalarsDiffer, SizesDiffer, error_of};
ghost use Rattle.asn1_table_extending.specs.Leading.{AddsOnly, BothParts, IsRefused, NodeParts};
ghost use Rattle.asn1_table_extending.specs.Matching.{IsListed, NodesMatch, PairMatches, ScalarsMatch};

use crate::alternatives::check_choice;
use crate::components::{check_components, check_table};
use crate::constraints::{check_items, check_limits, check_sizes, check_strings};
use crate::differences::Fault;
use crate::pairs::{Pair, add_pair};
use crate::{Difference, ExtendingError};
use asn1_schema_constraints::Sizes;
use asn1_table_types::{TypeNode, Types};
use std::alloc::Global;

/// The type at the place `new_place` of one table is a newer version of that at `old_place` of another, however deep
/// both are unfolded: of the same kind, and with the same constraints, tags, defaults and parts, with further
/// components, alternatives and items only after extension markers (X.680 52). A default of a SEQUENCE or SET with
/// further additions counts as another default, also where these are absent in it.
///
/// Each pair of types to which the two lead is compared once, and looked up among those listed so far: `n` such pairs
/// take up to `n * n` steps.
///
/// # Errors
///
/// `NotExtended` with the places of two types that differ, and how; `OutOfMemory`.
pub fn check_extends(
    alloc: Global,
    newer: &Types,
    new_place: usize,
    older: &Types,
    old_place: usize,
) -> Result<(), ExtendingError>
    ensures extends { OnOk result ((n : ℕ) → Extends (type_at older.now.nodes.items n old_place)
        (type_at newer.now.nodes.items n new_place)) }
    ensures refused { IfErr result (IsRefused older.now.nodes.items newer.now.nodes.items old_place new_place) }
{
    let first = Pair {
        older: old_place,
        newer: new_place,
    };
    let Ok(mut pairs) = Vec::from_array(alloc, [first]) else {
        return Err(ExtendingError::OutOfMemory);
    };
    let mut next = 0;
    while next < pairs.len() {
        let pair = pairs[next];
        check_pair(older, newer, pair, &mut pairs)?;
        next += 1;
    }
    Ok(())
}

/// The error of a fault of a pair.
fn error_at(pair: Pair, fault: Fault) -> ExtendingError
    ensures { result ≡ error_of pair fault }
{
    match fault {
        Fault::Differs(difference) => ExtendingError::NotExtended {
            newer: pair.newer,
            older: pair.older,
            difference,
        },
        Fault::NoMemory => ExtendingError::OutOfMemory,
    }
}

/// Compares the types of a pair, apart from the types of their parts. Lists the pairs of these.
fn check_pair(
    older: &Types,
    newer: &Types,
    pair: Pair,
    pairs: &mut Vec<Pair>,
) -> Result<(), ExtendingError>
    ensures matches { OnOk result (PairMatches older.now.nodes.items newer.now.nodes.items pairs.new.items pair) }
    ensures refused { IfErr result (IsRefusedAt older.now.nodes.items newer.now.nodes.items pair) }
    ensures kept { OnOk result (Begins pairs.old.items pairs.new.items) }
    ensures added { OnOk result (AddsOnly (BothParts (slice_get older.now.nodes.items pair.older)
        (slice_get newer.now.nodes.items pair.newer)) pairs.old.items pairs.new.items) }
{
    match check_places(older, newer, pair, pairs) {
        Ok(()) => Ok(()),
        Err(fault) => Err(error_at(pair, fault)),
    }
}

/// The same, without the places in the error.
fn check_places(
    older: &Types,
    newer: &Types,
    pair: Pair,
    pairs: &mut Vec<Pair>,
) -> Result<(), Fault>
    ensures matches { OnOk result (PairMatches older.now.nodes.items newer.now.nodes.items pairs.new.items pair) }
    ensures refused { IfErr result (IsDue (λ d. BothDiffer d (slice_get older.now.nodes.items pair.older)
        (slice_get newer.now.nodes.items pair.newer))) }
    ensures kept { OnOk result (Begins pairs.old.items pairs.new.items) }
    ensures added { OnOk result (AddsOnly (BothParts (slice_get older.now.nodes.items pair.older)
        (slice_get newer.now.nodes.items pair.newer)) pairs.old.items pairs.new.items) }
{
    match (older.node(pair.older), newer.node(pair.newer)) {
        (None, None) => Ok(()),
        (Some(node), Some(other)) => check_node(node, other, pairs),
        _ => Err(Fault::Differs(Difference::Place)),
    }
}

/// The same of two types.
fn check_node(older: &TypeNode, newer: &TypeNode, pairs: &mut Vec<Pair>) -> Result<(), Fault>
    ensures matches { OnOk result (NodesMatch (IsListed pairs.new.items) older.now newer.now) }
    ensures refused { IfErr result (IsDue (λ d. NodesDiffer d older.now newer.now)) }
    ensures kept { OnOk result (Begins pairs.old.items pairs.new.items) }
    ensures added { OnOk result (AddsOnly (NodeParts older.now newer.now) pairs.old.items pairs.new.items) }
{
    match (older, newer) {
        (TypeNode::SequenceOf(sizes, place), TypeNode::SequenceOf(others, other)) => {
            check_list(*sizes, *place, *others, *other, pairs)
        }
        (TypeNode::SetOf(sizes, place), TypeNode::SetOf(others, other)) => {
            check_list(*sizes, *place, *others, *other, pairs)
        }
        (TypeNode::Sequence(table), TypeNode::Sequence(other)) => check_table(table, other, pairs),
        (TypeNode::Set(table), TypeNode::Set(other)) => check_table(table, other, pairs),
        (TypeNode::Group(components), TypeNode::Group(others)) => {
            check_components(components.as_slice(), others.as_slice(), false, pairs)
        }
        (TypeNode::Choice(table), TypeNode::Choice(other)) => check_choice(table, other, pairs),
        _ => {
            check_scalar(older, newer)?;
            Ok(())
        }
    }
}

/// The sizes of two lists are equal. Lists the pair of their elements' types.
fn check_list(
    sizes: Sizes,
    place: usize,
    others: Sizes,
    other: usize,
    pairs: &mut Vec<Pair>,
) -> Result<(), Fault>
    ensures sizes { OnOk result (size_of sizes ≡ size_of others) }
    ensures refused { IfErr result (IsDue (λ d. SizesDiffer d sizes others)) }
    ensures listed { OnOk result (IsListed pairs.new.items place other) }
    ensures kept { OnOk result (Begins pairs.old.items pairs.new.items) }
    ensures added { OnOk result (AddsOnly (λ i j. (place ≡ i) × (other ≡ j)) pairs.old.items pairs.new.items) }
{
    check_sizes(sizes, others)?;
    add_pair(
        pairs,
        Pair {
            older: place,
            newer: other,
        },
    )?;
    Ok(())
}

/// Two types without parts are of one kind and have the same constraints.
fn check_scalar(older: &TypeNode, newer: &TypeNode) -> Result<(), Difference>
    ensures matches { OnOk result (ScalarsMatch older.now newer.now) }
    ensures refused { IfErr result (λ d. ScalarsDiffer d older.now newer.now) }
{
    match (older, newer) {
        (TypeNode::Boolean, TypeNode::Boolean) => Ok(()),
        (TypeNode::Null, TypeNode::Null) => Ok(()),
        (TypeNode::Integer(limits), TypeNode::Integer(others)) => check_limits(*limits, *others),
        (TypeNode::Enumerated(table), TypeNode::Enumerated(other)) => check_items(table, other),
        (TypeNode::BitString(sizes), TypeNode::BitString(others)) => check_sizes(*sizes, *others),
        (TypeNode::OctetString(sizes), TypeNode::OctetString(others)) => {
            check_sizes(*sizes, *others)
        }
        (TypeNode::CharacterString(table), TypeNode::CharacterString(other)) => {
            check_strings(table, other)
        }
        (TypeNode::ObjectIdentifier, TypeNode::ObjectIdentifier) => Ok(()),
        _ => Err(Difference::Kind),
    }
}
