//! The records of a tape are given to an encoder.
#![tactic(auto, using(std::proofs::lemmas::Grind::common_steps))]

ghost use Rattle.std.specs.Prelude.{◌≡◌, ◌≤◌, Some, Err, IfOk, IfErr, OnOk, OnErr, length, slice_get};
ghost use Rattle.asn1_schema_encode.specs.Writes.{Refused};
ghost use Rattle.asn1_schema_errors.specs.Calls.{EncoderCall};
ghost use Rattle.asn1_schema_forms.specs.Forms.{form_bounds};
ghost use Rattle.asn1_schema_laws.specs.Chains.{Chain};
ghost use Rattle.asn1_schema_laws.specs.Records.{identifier, whole};
ghost use Rattle.asn1_table_tape.specs.Records.{record_of, records_of, number_record, item_record};
ghost use Rattle.asn1_table_tape.specs.Records.{bits_record, octets_record, list_record, choice_record};
ghost use Rattle.asn1_table_tape.specs.Replays.{CannotChain, Replayed};
ghost use Rattle.asn1_table_types.specs.Forms.{bounds_there};
ghost use Rattle.asn1_table_types.specs.Choices.{tags_at};
ghost use Rattle.asn1_table_nodes.specs.Meaning.{bounds_in, held_in};

use crate::strings::replay_text;
use crate::tape::Event;
use crate::terms::{
    any_sizes, bit_sizes_at, elements_at, items_at, number_constraints, octet_sizes_at,
    size_constraints,
};
use asn1_schema_constraints::Bounded;
use asn1_schema_encode::Encoder;
use asn1_schema_errors::EncodeError;
use asn1_schema_forms::NumberForm;
use asn1_schema_tags::{Chosen, Identifier, Tag};
use asn1_table_types::{NumberLimits, TypeNode, Types};
use asn1_values_bit_strings::BitString;
use asn1_values_identifiers::ObjectIdentifier;
use asn1_values_integers::Integer;

/// Gives the records of a tape to an encoder, each once.
pub fn replay<E: Encoder>(encoder: &mut E, types: &Types, tape: &[Event]) -> Result<(), EncodeError>
    ensures ok { OnOk result
        (Chain E.step (records_of types.now.nodes.items tape.now) encoder.old encoder.new) }
    ensures only { IfErr result
        (CannotChain E.step (records_of types.now.nodes.items tape.now) encoder.old) }
    ensures failed { OnErr result (E.has_failed encoder.new) }
    ensures front { E.front encoder.new ≡ E.front encoder.old }
    ensures after { result ≡ Err EncodeError.AlreadyFailed → E.has_failed encoder.old }
{
    let mut rest = tape;
    while let Some((event, behind)) = rest.split_first() {
        replay_one(encoder, types, event)?;
        rest = behind;
        if let Event::ListBegins(list, _count) = event {
            rest = replay_elements(encoder, types, *list, behind)?;
        }
    }
    Ok(())
}

// The elements of a list of the type at this index, if they are numbers in a form. Answers what is behind them.
#[inline(always)]
fn replay_elements<'a, E: Encoder>(
    encoder: &mut E,
    types: &Types,
    list: usize,
    tape: &'a [Event],
) -> Result<&'a [Event], EncodeError>
    ensures ok { IfOk result (λ rest.
        Replayed E.step types.now.nodes.items tape.now rest.now encoder.old encoder.new) }
    ensures left { IfOk result (λ rest. length rest.now ≤ length tape.now) }
    ensures only { IfErr result
        (CannotChain E.step (records_of types.now.nodes.items tape.now) encoder.old) }
    ensures failed { OnErr result (E.has_failed encoder.new) }
    ensures going { OnOk result (E.has_failed encoder.new → E.has_failed encoder.old) }
    ensures front { E.front encoder.new ≡ E.front encoder.old }
    ensures after { result ≡ Err EncodeError.AlreadyFailed → E.has_failed encoder.old }
{
    let Some(members) = elements_at(types, list) else {
        return Ok(tape);
    };
    match types.number_form(members) {
        Some(form) => replay_numbers(encoder, types, form, members, tape),
        None => Ok(tape),
    }
}

// Numbers of the type at this index, which has this form, and whether others follow. Answers what is behind them.
fn replay_numbers<'a, E: Encoder>(
    encoder: &mut E,
    types: &Types,
    form: &NumberForm,
    members: usize,
    tape: &'a [Event],
) -> Result<&'a [Event], EncodeError>
    requires { bounds_there (slice_get types.now.nodes.items members) ≡ Some (form_bounds form.now) }
    ensures ok { IfOk result (λ rest.
        Replayed E.step types.now.nodes.items tape.now rest.now encoder.old encoder.new) }
    ensures left { IfOk result (λ rest. length rest.now ≤ length tape.now) }
    ensures only { IfErr result
        (CannotChain E.step (records_of types.now.nodes.items tape.now) encoder.old) }
    ensures failed { OnErr result (E.has_failed encoder.new) }
    ensures going { OnOk result (E.has_failed encoder.new → E.has_failed encoder.old) }
    ensures front { E.front encoder.new ≡ E.front encoder.old }
    ensures after { result ≡ Err EncodeError.AlreadyFailed → E.has_failed encoder.old }
{
    let mut rest = tape;
    while let Some((event, behind)) = rest.split_first() {
        match event {
            Event::Further(more) => encoder.encode_further(*more)?,
            Event::Number(place, value) => {
                if *place != members {
                    return Ok(rest);
                }
                let Some(number) = value.to_i128() else {
                    return Ok(rest);
                };
                encoder.encode_number(form, number)?;
            }
            _ => return Ok(rest),
        }
        rest = behind;
    }
    Ok(rest)
}

// One record.
#[inline(always)]
fn replay_one<E: Encoder>(encoder: &mut E, types: &Types, event: &Event) -> Result<(), EncodeError>
    ensures ok { OnOk result
        (E.step encoder.old (record_of types.now.nodes.items event.now) encoder.new) }
    ensures only { IfErr result
        (Refused E.step (record_of types.now.nodes.items event.now) encoder.old) }
    ensures call { EncoderCall E.has_failed E.front encoder.old encoder.new result }
{
    match event {
        Event::Flag(value) => encoder.encode_bool(Tag::BOOL, *value, Identifier::BOOL),
        Event::Nil => encoder.encode_null(Tag::NULL, Identifier::NULL),
        Event::Item(place, item) => replay_item(encoder, types, *place, *item),
        Event::Bits(place, bits) => replay_bits(encoder, types, *place, bits),
        Event::Octets(place, octets) => replay_octets(encoder, types, *place, octets.as_slice()),
        Event::Text(place, text) => replay_text(encoder, types, *place, text),
        Event::Arcs(arcs) => replay_arcs(encoder, arcs),
        Event::Number(place, value) => replay_number(encoder, types, *place, value),
        Event::ListBegins(place, count) => replay_list(encoder, types, *place, *count),
        Event::Further(more) => encoder.encode_further(*more),
        Event::SequenceBegins(is_extensible, optional) => encoder.begin_sequence(
            Tag::SEQUENCE,
            *is_extensible,
            *optional,
        ),
        Event::SetBegins(is_extensible, optional) => encoder.begin_set(
            Tag::SET,
            *is_extensible,
            *optional,
        ),
        Event::GroupBegins(optional) => encoder.begin_group(*optional),
        Event::ChoiceBegins(place, chosen) => replay_choice(encoder, types, *place, *chosen),
        Event::PresenceBit(is_present) => encoder.encode_presence_bit(*is_present),
        Event::AdditionsBegin(count) => encoder.begin_additions(*count),
        Event::Addition(is_present) => encoder.encode_addition(*is_present),
        Event::AdditionEnds => encoder.end_addition(),
        Event::Ends => encoder.end(),
    }
}

// A number of the type at this index.
#[inline(always)]
fn replay_number<E: Encoder>(
    encoder: &mut E,
    types: &Types,
    place: usize,
    value: &Integer,
) -> Result<(), EncodeError>
    ensures ok { OnOk result
        (E.step encoder.old (number_record (slice_get types.now.nodes.items place) value.now) encoder.new) }
    ensures only { IfErr result
        (Refused E.step (number_record (slice_get types.now.nodes.items place) value.now) encoder.old) }
    ensures call { EncoderCall E.has_failed E.front encoder.old encoder.new result }
{
    if let (Some(form), Some(number)) = (types.number_form(place), value.to_i128()) {
        return encoder.encode_number(form, number);
    }
    replay_any_number(encoder, types, place, value)
}

// The same without a form.
fn replay_any_number<E: Encoder>(
    encoder: &mut E,
    types: &Types,
    place: usize,
    value: &Integer,
) -> Result<(), EncodeError>
    ensures ok { OnOk result
        (E.step encoder.old (number_record (slice_get types.now.nodes.items place) value.now) encoder.new) }
    ensures only { IfErr result
        (Refused E.step (number_record (slice_get types.now.nodes.items place) value.now) encoder.old) }
    ensures call { EncoderCall E.has_failed E.front encoder.old encoder.new result }
{
    match types.node(place) {
        Some(TypeNode::Integer(limits)) => write_number(encoder, limits, value),
        _ => write_number(encoder, &None, value),
    }
}

// A number with these limits.
fn write_number<E: Encoder>(
    encoder: &mut E,
    limits: &Option<NumberLimits>,
    value: &Integer,
) -> Result<(), EncodeError>
    ensures ok { OnOk result
        (E.step encoder.old (whole (bounds_in limits.now) (held_in limits.now) value.now) encoder.new) }
    ensures only { IfErr result
        (Refused E.step (whole (bounds_in limits.now) (held_in limits.now) value.now) encoder.old) }
    ensures call { EncoderCall E.has_failed E.front encoder.old encoder.new result }
{
    let constraints = number_constraints(limits);
    encoder.encode_integer(Tag::INTEGER, &constraints, value, Identifier::INTEGER)?;
    Ok(())
}

// An item, whose type is at an index.
fn replay_item<E: Encoder>(
    encoder: &mut E,
    types: &Types,
    place: usize,
    item: isize,
) -> Result<(), EncodeError>
    ensures ok { OnOk result
        (E.step encoder.old (item_record (slice_get types.now.nodes.items place) item) encoder.new) }
    ensures only { IfErr result
        (Refused E.step (item_record (slice_get types.now.nodes.items place) item) encoder.old) }
    ensures call { EncoderCall E.has_failed E.front encoder.old encoder.new result }
{
    let items = items_at(types, place);
    encoder.encode_item_of(Tag::ENUMERATED, &items, &item, Identifier::ENUMERATED)
}

// Bits, whose type is at an index.
fn replay_bits<E: Encoder>(
    encoder: &mut E,
    types: &Types,
    place: usize,
    bits: &BitString,
) -> Result<(), EncodeError>
    ensures ok { OnOk result
        (E.step encoder.old (bits_record (slice_get types.now.nodes.items place) bits.now) encoder.new) }
    ensures only { IfErr result
        (Refused E.step (bits_record (slice_get types.now.nodes.items place) bits.now) encoder.old) }
    ensures call { EncoderCall E.has_failed E.front encoder.old encoder.new result }
{
    let constraints = size_constraints(bit_sizes_at(types, place));
    encoder.encode_bit_string(
        Tag::BIT_STRING,
        &constraints,
        Bounded::None,
        bits.as_bitslice(),
        Identifier::BIT_STRING,
    )
}

// Octets, whose type is at an index.
fn replay_octets<E: Encoder>(
    encoder: &mut E,
    types: &Types,
    place: usize,
    octets: &[u8],
) -> Result<(), EncodeError>
    ensures ok { OnOk result
        (E.step encoder.old (octets_record (slice_get types.now.nodes.items place) octets.now) encoder.new) }
    ensures only { IfErr result
        (Refused E.step (octets_record (slice_get types.now.nodes.items place) octets.now) encoder.old) }
    ensures call { EncoderCall E.has_failed E.front encoder.old encoder.new result }
{
    let constraints = size_constraints(octet_sizes_at(types, place));
    encoder.encode_octet_string(
        Tag::OCTET_STRING,
        &constraints,
        Bounded::None,
        octets,
        Identifier::OCTET_STRING,
    )
}

// The arcs of an object identifier.
fn replay_arcs<E: Encoder>(encoder: &mut E, arcs: &ObjectIdentifier) -> Result<(), EncodeError>
    ensures ok { OnOk result (E.step encoder.old (identifier arcs.now) encoder.new) }
    ensures only { IfErr result (Refused E.step (identifier arcs.now) encoder.old) }
    ensures call { EncoderCall E.has_failed E.front encoder.old encoder.new result }
{
    encoder.encode_object_identifier(
        Tag::OBJECT_IDENTIFIER,
        arcs.as_oid(),
        Identifier::OBJECT_IDENTIFIER,
    )
}

// The beginning of a list of the type at this index.
fn replay_list<E: Encoder>(
    encoder: &mut E,
    types: &Types,
    place: usize,
    count: usize,
) -> Result<(), EncodeError>
    ensures ok { OnOk result
        (E.step encoder.old (list_record (slice_get types.now.nodes.items place) count) encoder.new) }
    ensures only { IfErr result
        (Refused E.step (list_record (slice_get types.now.nodes.items place) count) encoder.old) }
    ensures call { EncoderCall E.has_failed E.front encoder.old encoder.new result }
{
    match types.node(place) {
        Some(TypeNode::SequenceOf(sizes, _members)) => {
            let constraints = size_constraints(*sizes);
            encoder.begin_list(Tag::SEQUENCE, &constraints, Bounded::None, count)?;
            Ok(())
        }
        Some(TypeNode::SetOf(sizes, _members)) => {
            let constraints = size_constraints(*sizes);
            encoder.begin_bag(Tag::SET, &constraints, Bounded::None, count)?;
            Ok(())
        }
        _ => {
            let constraints = size_constraints(any_sizes());
            encoder.begin_list(Tag::SEQUENCE, &constraints, Bounded::None, count)?;
            Ok(())
        }
    }
}

// The beginning of a CHOICE of the type at this index.
fn replay_choice<E: Encoder>(
    encoder: &mut E,
    types: &Types,
    place: usize,
    chosen: Chosen,
) -> Result<(), EncodeError>
    ensures ok { OnOk result
        (E.step encoder.old (choice_record (tags_at types.now.nodes.items place) chosen) encoder.new) }
    ensures only { IfErr result
        (Refused E.step (choice_record (tags_at types.now.nodes.items place) chosen) encoder.old) }
    ensures call { EncoderCall E.has_failed E.front encoder.old encoder.new result }
{
    match types.choice_tags(place) {
        Some(tables) => encoder.begin_choice(
            Tag::CHOICE,
            tables.roots(),
            tables.extensible(),
            tables.additions(),
            chosen,
        ),
        None => encoder.begin_choice(Tag::CHOICE, &[], false, &[], chosen),
    }
}
