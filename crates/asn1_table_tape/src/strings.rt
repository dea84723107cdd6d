//! Restricted character strings (X.680 41) are read and written.
#![tactic(auto, using(std::proofs::lemmas::Grind::common_steps))]

ghost use Rattle.std.specs.Prelude.{◌≡◌, ◌+◌, ◌≤◌, List, Some, IfOk, IfErr, OnOk, vec_len, slice_get};
ghost use Rattle.asn1_schema_decode.specs.Reads.{NoRecord};
ghost use Rattle.asn1_schema_encode.specs.Writes.{Refused};
ghost use Rattle.asn1_schema_errors.specs.Calls.{DecoderCall, EncoderCall, SameLevel};
ghost use Rattle.asn1_schema_types.specs.Told.{characters_under, asks_characters_under};
ghost use Rattle.asn1_table_laws.specs.Walks.{Told, NoValue};
ghost use Rattle.asn1_table_nodes.specs.Meaning.{type_of, kind_of};
ghost use Rattle.asn1_table_nodes.specs.declared.nodes.TypeNode.{TypeNode as Node};
ghost use Rattle.asn1_table_nodes.specs.declared.nodes.TypeNode.TheVariants as node;
ghost use Rattle.asn1_table_tape.specs.Records.{records_of, text_record};
ghost use Rattle.asn1_table_tape.specs.Strings.{kind_in, text_of};

use crate::tape::{Event, keep};
use crate::terms::{text_constraints, text_constraints_at};
use asn1_schema_constraints::Constraints;
use asn1_schema_decode::Decoder;
use asn1_schema_encode::Encoder;
use asn1_schema_errors::{DecodeError, EncodeError};
use asn1_schema_tags::{Identifier, Tag};
use asn1_table_types::{StringKind, StringTable, Types};
use asn1_values_strings::{
    BmpString, GeneralString, GraphicString, Ia5String, NumericString, PrintableString,
    TeletexString, VisibleString,
};
use std::alloc::Global;

/// A restricted character string (X.680 41).
#[derive(Drop)]
pub enum CharacterString {
    /// A NumericString.
    Numeric(NumericString),
    /// A PrintableString.
    Printable(PrintableString),
    /// A VisibleString.
    Visible(VisibleString),
    /// An IA5String.
    Ia5(Ia5String),
    /// A BMPString.
    Bmp(BmpString),
    /// A GeneralString.
    General(GeneralString),
    /// A GraphicString.
    Graphic(GraphicString),
    /// A TeletexString.
    Teletex(TeletexString),
    /// A UTF8String.
    Utf8(String),
}

/// A restricted character string (X.680 41); its type is at an index.
pub fn read_text<D: Decoder>(
    alloc: Global,
    decoder: &mut D,
    table: &StringTable,
    place: usize,
    tape: &mut Vec<Event>,
) -> Result<(), DecodeError>
    ensures ok { OnOk result ((ns : List Node) → slice_get ns place ≡ Some (node.CharacterString table.now)
        → Told D.step (type_of ns (D.levels decoder.old) (Some (node.CharacterString table.now)))
        decoder.old decoder.new (records_of ns tape.old.items) (records_of ns tape.new.items)) }
    ensures only { IfErr result (λ x. (ns : List Node) → NoValue D.step D.too_few
        (type_of ns (D.levels decoder.old) (Some (node.CharacterString table.now))) decoder.old decoder.new x) }
    ensures going { OnOk result (D.has_failed decoder.new → ⊥) }
    ensures call { DecoderCall D.has_failed (SameLevel D.levels) decoder.old decoder.new result }
{
    let constraints = text_constraints(table);
    let text = read_characters(alloc, decoder, table.kind, &constraints)?;
    keep(decoder, tape, Event::Text(place, text))?;
    Ok(())
}

// The characters of a string of a kind.
fn read_characters<D: Decoder>(
    alloc: Global,
    decoder: &mut D,
    kind: StringKind,
    constraints: &Constraints,
) -> Result<CharacterString, DecodeError>
    ensures ok { IfOk result
        (λ x. D.step decoder.old (characters_under (kind_of kind) constraints.now (text_of x)) decoder.new) }
    ensures kind { IfOk result (λ x. kind_in x ≡ kind_of kind) }
    ensures only { IfErr result
        (NoRecord D.step D.too_few (asks_characters_under (kind_of kind) constraints.now) decoder.old decoder.new) }
    ensures call { DecoderCall D.has_failed (SameLevel D.levels) decoder.old decoder.new result }
{
    match kind {
        StringKind::Numeric => {
            let text = decoder.decode_characters(alloc, Tag::NUMERIC_STRING, constraints)?;
            Ok(CharacterString::Numeric(text))
        }
        StringKind::Printable => {
            let text = decoder.decode_characters(alloc, Tag::PRINTABLE_STRING, constraints)?;
            Ok(CharacterString::Printable(text))
        }
        StringKind::Visible => {
            let text = decoder.decode_characters(alloc, Tag::VISIBLE_STRING, constraints)?;
            Ok(CharacterString::Visible(text))
        }
        StringKind::Ia5 => {
            let text = decoder.decode_characters(alloc, Tag::IA5_STRING, constraints)?;
            Ok(CharacterString::Ia5(text))
        }
        StringKind::Bmp => {
            let text = decoder.decode_characters(alloc, Tag::BMP_STRING, constraints)?;
            Ok(CharacterString::Bmp(text))
        }
        StringKind::General => {
            let text = decoder.decode_characters(alloc, Tag::GENERAL_STRING, constraints)?;
            Ok(CharacterString::General(text))
        }
        StringKind::Graphic => {
            let text = decoder.decode_characters(alloc, Tag::GRAPHIC_STRING, constraints)?;
            Ok(CharacterString::Graphic(text))
        }
        StringKind::Teletex => {
            let text = decoder.decode_characters(alloc, Tag::TELETEX_STRING, constraints)?;
            Ok(CharacterString::Teletex(text))
        }
        StringKind::Utf8 => {
            let text = decoder.decode_utf8_string(alloc, Tag::UTF8_STRING, constraints)?;
            Ok(CharacterString::Utf8(text))
        }
    }
}

/// A restricted character string, whose type is at an index.
pub fn replay_text<E: Encoder>(
    encoder: &mut E,
    types: &Types,
    place: usize,
    text: &CharacterString,
) -> Result<(), EncodeError>
    ensures ok { OnOk result
        (E.step encoder.old (text_record (slice_get types.now.nodes.items place) text.now) encoder.new) }
    ensures only { IfErr result
        (Refused E.step (text_record (slice_get types.now.nodes.items place) text.now) encoder.old) }
    ensures call { EncoderCall E.has_failed E.front encoder.old encoder.new result }
{
    let constraints = text_constraints_at(types, place);
    write_characters(encoder, &constraints, text)
}

// The characters of a string of a kind.
fn write_characters<E: Encoder>(
    encoder: &mut E,
    constraints: &Constraints,
    text: &CharacterString,
) -> Result<(), EncodeError>
    ensures ok { OnOk result (E.step encoder.old
        (characters_under (kind_in text.now) constraints.now (text_of text.now)) encoder.new) }
    ensures only { IfErr result
        (Refused E.step (characters_under (kind_in text.now) constraints.now (text_of text.now)) encoder.old) }
    ensures call { EncoderCall E.has_failed E.front encoder.old encoder.new result }
{
    let (tag, name) = names_of(text);
    match text {
        CharacterString::Numeric(text) => {
            encoder.encode_characters(tag, constraints, text, name)
        }
        CharacterString::Printable(text) => {
            encoder.encode_characters(tag, constraints, text, name)
        }
        CharacterString::Visible(text) => {
            encoder.encode_characters(tag, constraints, text, name)
        }
        CharacterString::Ia5(text) => { encoder.encode_characters(tag, constraints, text, name) }
        CharacterString::Bmp(text) => { encoder.encode_characters(tag, constraints, text, name) }
        CharacterString::General(text) => {
            encoder.encode_characters(tag, constraints, text, name)
        }
        CharacterString::Graphic(text) => {
            encoder.encode_characters(tag, constraints, text, name)
        }
        CharacterString::Teletex(text) => {
            encoder.encode_characters(tag, constraints, text, name)
        }
        CharacterString::Utf8(text) => {
            encoder.encode_utf8_string(tag, constraints, text.as_str(), name)
        }
    }
}

// The tag and the name of a string's type.
fn names_of(text: &CharacterString) -> (Tag, Identifier) {
    match text {
        CharacterString::Numeric(_) => (Tag::NUMERIC_STRING, Identifier::NUMERIC_STRING),
        CharacterString::Printable(_) => (Tag::PRINTABLE_STRING, Identifier::PRINTABLE_STRING),
        CharacterString::Visible(_) => (Tag::VISIBLE_STRING, Identifier::VISIBLE_STRING),
        CharacterString::Ia5(_) => (Tag::IA5_STRING, Identifier::IA5_STRING),
        CharacterString::Bmp(_) => (Tag::BMP_STRING, Identifier::BMP_STRING),
        CharacterString::General(_) => (Tag::GENERAL_STRING, Identifier::GENERAL_STRING),
        CharacterString::Graphic(_) => (Tag::GRAPHIC_STRING, Identifier::GRAPHIC_STRING),
        CharacterString::Teletex(_) => (Tag::TELETEX_STRING, Identifier::TELETEX_STRING),
        CharacterString::Utf8(_) => (Tag::UTF8_STRING, Identifier::UTF8_STRING),
    }
}
