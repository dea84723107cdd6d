//! A value begins.
#![tactic(auto, using(std::proofs::lemmas::Grind::common_steps))]

ghost use Rattle.std.specs.Prelude.{◌≡◌, ◌+◌, ◌≤◌, IfOk, IfErr, OnOk, Some, true, slice_get, vec_len, ⊤};
ghost use Rattle.asn1_schema_errors.specs.Calls.{DecoderCall, SameLevel};
ghost use Rattle.asn1_table_laws.specs.Walks.{NoValue, Opens, Told};
ghost use Rattle.asn1_table_nodes.specs.Meaning.{type_at, type_of};
ghost use Rattle.asn1_table_tape.specs.Records.{records_of};
ghost use Rattle.asn1_table_walker.specs.Frames.{pending_in, levels_in, is_single};

use crate::choices::begin_choice;
use crate::frames::Frame;
use crate::members::{begin_bag, begin_list};
use crate::sequences::{begin_group, begin_sequence, begin_set};
use asn1_schema_decode::Decoder;
use asn1_schema_errors::DecodeError;
use asn1_schema_tags::Tag;
use asn1_table_tape::{
    Event, read_arcs, read_bits, read_flag, read_in_form, read_item, read_nil, read_number,
    read_octets, read_text,
};
use asn1_table_types::{TypeNode, Types};
use std::alloc::Global;

/// Reads a value of the type at an index, if it is one record, or begins it.
#[inline(always)]
pub fn open<D: Decoder>(
    alloc: Global,
    decoder: &mut D,
    types: &Types,
    place: usize,
    tape: &mut Vec<Event>,
) -> Result<Option<Frame>, DecodeError>
    ensures ok { IfOk result (λ o. Opens D.step D.too_few D.too_few_members
        (type_at types.now.nodes.items (D.levels decoder.old) place)
        (pending_in types.now.nodes.items (D.levels decoder.new) o) decoder.old decoder.new
        (records_of types.now.nodes.items tape.old.items)
        (records_of types.now.nodes.items tape.new.items)) }
    ensures level { IfOk result (λ o. D.levels decoder.old ≡ D.levels decoder.new + levels_in o) }
    ensures only { IfErr result (NoValue D.step D.too_few
        (type_at types.now.nodes.items (D.levels decoder.old) place) decoder.old decoder.new) }
    ensures going { OnOk result (D.has_failed decoder.new → ⊥) }
    ensures call { DecoderCall D.has_failed (λ _ _. ⊤) decoder.old decoder.new result }
{
    if let Some(form) = types.number_form(place) {
        read_in_form(alloc, decoder, form, place, tape)?;
        return Ok(None);
    }
    open_node(alloc, decoder, types, place, tape)
}

// The same of any type.
fn open_node<D: Decoder>(
    alloc: Global,
    decoder: &mut D,
    types: &Types,
    place: usize,
    tape: &mut Vec<Event>,
) -> Result<Option<Frame>, DecodeError>
    ensures ok { IfOk result (λ o. Opens D.step D.too_few D.too_few_members
        (type_at types.now.nodes.items (D.levels decoder.old) place)
        (pending_in types.now.nodes.items (D.levels decoder.new) o) decoder.old decoder.new
        (records_of types.now.nodes.items tape.old.items)
        (records_of types.now.nodes.items tape.new.items)) }
    ensures level { IfOk result (λ o. D.levels decoder.old ≡ D.levels decoder.new + levels_in o) }
    ensures only { IfErr result (NoValue D.step D.too_few
        (type_at types.now.nodes.items (D.levels decoder.old) place) decoder.old decoder.new) }
    ensures going { OnOk result (D.has_failed decoder.new → ⊥) }
    ensures call { DecoderCall D.has_failed (λ _ _. ⊤) decoder.old decoder.new result }
{
    match types.node(place) {
        None => Err(refuse_any(decoder)),
        Some(TypeNode::SequenceOf(sizes, _members)) => {
            let frame = begin_list(decoder, *sizes, place, tape)?;
            Ok(Some(frame))
        }
        Some(TypeNode::SetOf(sizes, _members)) => {
            let frame = begin_bag(decoder, *sizes, place, tape)?;
            Ok(Some(frame))
        }
        Some(TypeNode::Sequence(table)) => {
            let frame = begin_sequence(decoder, table, place, tape)?;
            Ok(Some(frame))
        }
        Some(TypeNode::Set(table)) => {
            let frame = begin_set(decoder, table, place, tape)?;
            Ok(Some(frame))
        }
        Some(TypeNode::Group(components)) => {
            let frame = begin_group(decoder, components.as_slice(), place, tape)?;
            Ok(Some(frame))
        }
        Some(TypeNode::Choice(table)) => {
            let frame = begin_choice(decoder, types, table, place, tape)?;
            Ok(Some(frame))
        }
        Some(node) => {
            read_single(alloc, decoder, types, node, place, tape)?;
            Ok(None)
        }
    }
}

// Reads a value of one record; its type is at an index.
#[inline(always)]
fn read_single<D: Decoder>(
    alloc: Global,
    decoder: &mut D,
    types: &Types,
    node: &TypeNode,
    place: usize,
    tape: &mut Vec<Event>,
) -> Result<(), DecodeError>
    requires placed { slice_get types.now.nodes.items place ≡ Some node.now }
    requires single { is_single node.now ≡ true }
    ensures ok { OnOk result (Told D.step (type_of types.now.nodes.items (D.levels decoder.old) (Some node.now))
        decoder.old decoder.new (records_of types.now.nodes.items tape.old.items)
        (records_of types.now.nodes.items tape.new.items)) }
    ensures only { IfErr result (NoValue D.step D.too_few
        (type_of types.now.nodes.items (D.levels decoder.old) (Some node.now)) decoder.old decoder.new) }
    ensures going { OnOk result (D.has_failed decoder.new → ⊥) }
    ensures call { DecoderCall D.has_failed (SameLevel D.levels) decoder.old decoder.new result }
{
    match node {
        TypeNode::Boolean => read_flag(decoder, tape),
        TypeNode::Null => read_nil(decoder, tape),
        TypeNode::Integer(limits) => read_number(alloc, decoder, limits, place, tape),
        TypeNode::Enumerated(table) => read_item(decoder, types, table, place, tape),
        TypeNode::BitString(sizes) => read_bits(alloc, decoder, *sizes, place, tape),
        TypeNode::OctetString(sizes) => read_octets(alloc, decoder, *sizes, place, tape),
        TypeNode::CharacterString(table) => read_text(alloc, decoder, table, place, tape),
        TypeNode::ObjectIdentifier => read_arcs(alloc, decoder, tape),
        _ => Err(refuse_any(decoder)),
    }
}

/// The decoder fails, since no value has a type outside the table. Reading a NULL, which takes no octets, shows whether
// it had failed before. No clause says which error this is.
pub fn refuse_any<D: Decoder>(decoder: &mut D) -> DecodeError
    ensures failed { D.has_failed decoder.new }
    ensures already { D.has_failed decoder.old → result ≡ DecodeError.AlreadyFailed }
    ensures after { result ≡ DecodeError.AlreadyFailed → D.has_failed decoder.old }
{
    match decoder.decode_null(Tag::NULL) {
        Ok(()) => decoder.refuse(DecodeError::TypeNotExtensible),
        Err(error) => error,
    }
}
