//! Values of one record are read.
#![tactic(auto, using(std::proofs::lemmas::Grind::common_steps))]

ghost use Rattle.std.specs.Prelude.{◌≡◌, ◌+◌, ◌≤◌, List, Some, IfErr, OnOk, vec_len, slice_get};
ghost use Rattle.asn1_model.specs.Schema.{boolean, null, object_identifier};
ghost use Rattle.asn1_schema_errors.specs.Calls.{DecoderCall, SameLevel};
ghost use Rattle.asn1_schema_forms.specs.Forms.{form_bounds};
ghost use Rattle.asn1_table_laws.specs.Walks.{Told, NoValue};
ghost use Rattle.asn1_table_nodes.specs.Meaning.{type_of};
ghost use Rattle.asn1_table_nodes.specs.declared.nodes.TypeNode.{TypeNode as Node};
ghost use Rattle.asn1_table_nodes.specs.declared.nodes.TypeNode.TheVariants as node;
ghost use Rattle.asn1_table_tape.specs.Records.{records_of};
ghost use Rattle.asn1_table_types.specs.Forms.{bounds_there};

use crate::octets::TapeOctets;
use crate::tape::{Event, keep};
use crate::terms::{items_at, number_constraints, size_constraints};
use asn1_schema_constraints::{Bounded, Sizes};
use asn1_schema_decode::Decoder;
use asn1_schema_errors::DecodeError;
use asn1_schema_forms::NumberForm;
use asn1_schema_tags::Tag;
use asn1_table_types::{ItemTable, NumberLimits, Types};
use asn1_values_integers::Integer;
use std::alloc::Global;

/// BOOLEAN (X.680 18).
pub fn read_flag<D: Decoder>(decoder: &mut D, tape: &mut Vec<Event>) -> Result<(), DecodeError>
    ensures ok { OnOk result ((ns : List Node) → Told D.step boolean decoder.old decoder.new
        (records_of ns tape.old.items) (records_of ns tape.new.items)) }
    ensures only { IfErr result (NoValue D.step D.too_few boolean decoder.old decoder.new) }
    ensures going { OnOk result (D.has_failed decoder.new → ⊥) }
    ensures call { DecoderCall D.has_failed (SameLevel D.levels) decoder.old decoder.new result }
{
    let value = decoder.decode_bool(Tag::BOOL)?;
    keep(decoder, tape, Event::Flag(value))?;
    Ok(())
}

/// NULL (X.680 24).
pub fn read_nil<D: Decoder>(decoder: &mut D, tape: &mut Vec<Event>) -> Result<(), DecodeError>
    ensures ok { OnOk result ((ns : List Node) → Told D.step null decoder.old decoder.new
        (records_of ns tape.old.items) (records_of ns tape.new.items)) }
    ensures only { IfErr result (NoValue D.step D.too_few null decoder.old decoder.new) }
    ensures going { OnOk result (D.has_failed decoder.new → ⊥) }
    ensures call { DecoderCall D.has_failed (SameLevel D.levels) decoder.old decoder.new result }
{
    decoder.decode_null(Tag::NULL)?;
    keep(decoder, tape, Event::Nil)?;
    Ok(())
}

/// OBJECT IDENTIFIER (X.680 32).
pub fn read_arcs<D: Decoder>(
    alloc: Global,
    decoder: &mut D,
    tape: &mut Vec<Event>,
) -> Result<(), DecodeError>
    ensures ok { OnOk result ((ns : List Node) → Told D.step object_identifier decoder.old decoder.new
        (records_of ns tape.old.items) (records_of ns tape.new.items)) }
    ensures only { IfErr result (NoValue D.step D.too_few object_identifier decoder.old decoder.new) }
    ensures going { OnOk result (D.has_failed decoder.new → ⊥) }
    ensures call { DecoderCall D.has_failed (SameLevel D.levels) decoder.old decoder.new result }
{
    let value = decoder.decode_object_identifier(alloc, Tag::OBJECT_IDENTIFIER)?;
    keep(decoder, tape, Event::Arcs(value))?;
    Ok(())
}

/// INTEGER (X.680 19) with these limits; its type is at an index.
pub fn read_number<D: Decoder>(
    alloc: Global,
    decoder: &mut D,
    limits: &Option<NumberLimits>,
    place: usize,
    tape: &mut Vec<Event>,
) -> Result<(), DecodeError>
    ensures ok { OnOk result ((ns : List Node) → slice_get ns place ≡ Some (node.Integer limits.now)
        → Told D.step (type_of ns (D.levels decoder.old) (Some (node.Integer limits.now))) decoder.old decoder.new
        (records_of ns tape.old.items) (records_of ns tape.new.items)) }
    ensures only { IfErr result (λ x. (ns : List Node) → NoValue D.step D.too_few
        (type_of ns (D.levels decoder.old) (Some (node.Integer limits.now))) decoder.old decoder.new x) }
    ensures going { OnOk result (D.has_failed decoder.new → ⊥) }
    ensures call { DecoderCall D.has_failed (SameLevel D.levels) decoder.old decoder.new result }
{
    let constraints = number_constraints(limits);
    let number: Integer = decoder.decode_integer(alloc, Tag::INTEGER, &constraints)?;
    keep(decoder, tape, Event::Number(place, number))?;
    Ok(())
}

/// INTEGER (X.680 19) in this form; its type is at an index.
#[inline(never)]
pub fn read_in_form<D: Decoder>(
    alloc: Global,
    decoder: &mut D,
    form: &NumberForm,
    place: usize,
    tape: &mut Vec<Event>,
) -> Result<(), DecodeError>
    ensures ok { OnOk result ((ns : List Node) → bounds_there (slice_get ns place) ≡ Some (form_bounds form.now)
        → Told D.step (type_of ns (D.levels decoder.old) (slice_get ns place)) decoder.old decoder.new
        (records_of ns tape.old.items) (records_of ns tape.new.items)) }
    ensures only { IfErr result
        (λ x. (ns : List Node) → bounds_there (slice_get ns place) ≡ Some (form_bounds form.now)
        → NoValue D.step D.too_few (type_of ns (D.levels decoder.old) (slice_get ns place)) decoder.old decoder.new x) }
    ensures going { OnOk result (D.has_failed decoder.new → ⊥) }
    ensures call { DecoderCall D.has_failed (SameLevel D.levels) decoder.old decoder.new result }
{
    read_element_in_form(alloc, decoder, form, place, tape)
}

/// The same, as a part of the loop over the elements of a list.
#[inline(always)]
pub fn read_element_in_form<D: Decoder>(
    alloc: Global,
    decoder: &mut D,
    form: &NumberForm,
    place: usize,
    tape: &mut Vec<Event>,
) -> Result<(), DecodeError>
    ensures ok { OnOk result ((ns : List Node) → bounds_there (slice_get ns place) ≡ Some (form_bounds form.now)
        → Told D.step (type_of ns (D.levels decoder.old) (slice_get ns place)) decoder.old decoder.new
        (records_of ns tape.old.items) (records_of ns tape.new.items)) }
    ensures only { IfErr result
        (λ x. (ns : List Node) → bounds_there (slice_get ns place) ≡ Some (form_bounds form.now)
        → NoValue D.step D.too_few (type_of ns (D.levels decoder.old) (slice_get ns place)) decoder.old decoder.new x) }
    ensures going { OnOk result (D.has_failed decoder.new → ⊥) }
    ensures call { DecoderCall D.has_failed (SameLevel D.levels) decoder.old decoder.new result }
{
    let number = decoder.decode_number(alloc, form)?;
    keep(
        decoder,
        tape,
        Event::Number(place, Integer::from_i128(number)),
    )?;
    Ok(())
}

/// BIT STRING (X.680 22) of these sizes; its type is at an index.
pub fn read_bits<D: Decoder>(
    alloc: Global,
    decoder: &mut D,
    sizes: Sizes,
    place: usize,
    tape: &mut Vec<Event>,
) -> Result<(), DecodeError>
    ensures ok { OnOk result ((ns : List Node) → slice_get ns place ≡ Some (node.BitString sizes)
        → Told D.step (type_of ns (D.levels decoder.old) (Some (node.BitString sizes))) decoder.old decoder.new
        (records_of ns tape.old.items) (records_of ns tape.new.items)) }
    ensures only { IfErr result (λ x. (ns : List Node) → NoValue D.step D.too_few
        (type_of ns (D.levels decoder.old) (Some (node.BitString sizes))) decoder.old decoder.new x) }
    ensures going { OnOk result (D.has_failed decoder.new → ⊥) }
    ensures call { DecoderCall D.has_failed (SameLevel D.levels) decoder.old decoder.new result }
{
    let constraints = size_constraints(sizes);
    let bits = decoder.decode_bit_string(alloc, Tag::BIT_STRING, &constraints, Bounded::None)?;
    keep(decoder, tape, Event::Bits(place, bits))?;
    Ok(())
}

/// OCTET STRING (X.680 23) of these sizes; its type is at an index.
pub fn read_octets<D: Decoder>(
    alloc: Global,
    decoder: &mut D,
    sizes: Sizes,
    place: usize,
    tape: &mut Vec<Event>,
) -> Result<(), DecodeError>
    ensures ok { OnOk result ((ns : List Node) → slice_get ns place ≡ Some (node.OctetString sizes)
        → Told D.step (type_of ns (D.levels decoder.old) (Some (node.OctetString sizes))) decoder.old decoder.new
        (records_of ns tape.old.items) (records_of ns tape.new.items)) }
    ensures only { IfErr result (λ x. (ns : List Node) → NoValue D.step D.too_few
        (type_of ns (D.levels decoder.old) (Some (node.OctetString sizes))) decoder.old decoder.new x) }
    ensures going { OnOk result (D.has_failed decoder.new → ⊥) }
    ensures call { DecoderCall D.has_failed (SameLevel D.levels) decoder.old decoder.new result }
{
    let constraints = size_constraints(sizes);
    let read = decoder.decode_octet_string(alloc, Tag::OCTET_STRING, &constraints, Bounded::None)?;
    let Ok(octets) = TapeOctets::read(alloc, read) else {
        return Err(decoder.refuse(DecodeError::OutOfMemory));
    };
    keep(decoder, tape, Event::Octets(place, octets))?;
    Ok(())
}

/// ENUMERATED (X.680 20) with these items; its type is at an index.
pub fn read_item<D: Decoder>(
    decoder: &mut D,
    types: &Types,
    table: &ItemTable,
    place: usize,
    tape: &mut Vec<Event>,
) -> Result<(), DecodeError>
    ensures ok { OnOk result (slice_get types.now.nodes.items place ≡ Some (node.Enumerated table.now)
        → Told D.step (type_of types.now.nodes.items (D.levels decoder.old) (Some (node.Enumerated table.now)))
        decoder.old decoder.new (records_of types.now.nodes.items tape.old.items)
        (records_of types.now.nodes.items tape.new.items)) }
    ensures only { IfErr result
        (λ x. slice_get types.now.nodes.items place ≡ Some (node.Enumerated table.now)
        → NoValue D.step D.too_few
        (type_of types.now.nodes.items (D.levels decoder.old) (Some (node.Enumerated table.now)))
        decoder.old decoder.new x) }
    ensures going { OnOk result (D.has_failed decoder.new → ⊥) }
    ensures call { DecoderCall D.has_failed (SameLevel D.levels) decoder.old decoder.new result }
{
    let items = items_at(types, place);
    let item = decoder.decode_item_of(Tag::ENUMERATED, &items)?;
    keep(decoder, tape, Event::Item(place, item))?;
    Ok(())
}
