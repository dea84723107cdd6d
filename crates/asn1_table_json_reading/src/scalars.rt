//! Values without parts are read from JSON.
#![tactic(auto, using(std::proofs::lemmas::Grind::common_steps))]

use crate::errors::{JsonErrorKind, JsonForm};
use crate::finding::find_item;
use crate::levels::BitsMembers;
use crate::numbers::{is_long, is_plain, number_of};
use crate::strings::string_of;
use asn1_schema_constraints::Sizes;
use asn1_table_json_writing::fixed_size;
use asn1_table_names::Names;
use asn1_table_tape::{Event, TapeOctets};
use asn1_table_types::{TypeNode, Types};
use asn1_values_bit_strings::BitString;
use asn1_values_identifiers::{ObjectIdentifier, Oid};
use json::Token;
use std::alloc::Global;

/// The value of the type at an index that a token is.
///
/// # Errors
///
/// `Expected` if the type has another form in JSON; what else is wrong with the token; `OutOfMemory`.
pub fn scalar_of(
    alloc: Global,
    types: &Types,
    names: &Names,
    place: usize,
    token: &Token<'_>,
) -> Result<Event, JsonErrorKind> {
    let Some(node) = types.node(place) else {
        return Err(JsonErrorKind::NotOfType);
    };
    let event = match token {
        Token::Bool(value) => flag_of(node, *value),
        Token::Null => nil_of(node),
        Token::Number(digits) => number_in(alloc, node, place, digits)?,
        Token::String(text) => match node {
            TypeNode::Enumerated(_) => Some(item_in(types, names, place, text)?),
            _ => string_in(alloc, node, place, text)?,
        },
        _ => None,
    };
    match event {
        Some(event) => Ok(event),
        None => Err(JsonErrorKind::Expected(form_of(node))),
    }
}

/// A value of BOOLEAN, if the type is that.
fn flag_of(node: &TypeNode, value: bool) -> Option<Event> {
    match node {
        TypeNode::Boolean => Some(Event::Flag(value)),
        _ => None,
    }
}

/// NULL, if the type is that.
fn nil_of(node: &TypeNode) -> Option<Event> {
    match node {
        TypeNode::Null => Some(Event::Nil),
        _ => None,
    }
}

/// A number, if the type is INTEGER.
fn number_in(
    alloc: Global,
    node: &TypeNode,
    place: usize,
    digits: &str,
) -> Result<Option<Event>, JsonErrorKind> {
    if !matches!(node, TypeNode::Integer(_)) {
        return Ok(None);
    }
    if is_long(digits) {
        return Err(JsonErrorKind::LongNumber);
    }
    match number_of(alloc, digits)? {
        Some(number) => Ok(Some(Event::Number(place, number))),
        None => Err(JsonErrorKind::NotWhole),
    }
}

/// The item with a name of the ENUMERATED at an index.
fn item_in(
    types: &Types,
    names: &Names,
    place: usize,
    label: &str,
) -> Result<Event, JsonErrorKind> {
    match find_item(types, names, place, label) {
        Some(item) => Ok(Event::Item(place, item)),
        None => Err(JsonErrorKind::UnknownItem),
    }
}

/// A value that is a string in JSON, if the type is one of those but ENUMERATED.
fn string_in(
    alloc: Global,
    node: &TypeNode,
    place: usize,
    text: &str,
) -> Result<Option<Event>, JsonErrorKind> {
    match node {
        TypeNode::BitString(sizes) => {
            let bits = sized_bits(alloc, hex::decode(alloc, text)?.as_slice(), *sizes)?;
            Ok(Some(Event::Bits(place, bits)))
        }
        TypeNode::OctetString(_) => {
            let octets = TapeOctets::from_vec(hex::decode(alloc, text)?);
            Ok(Some(Event::Octets(place, octets)))
        }
        TypeNode::CharacterString(table) => {
            let string = string_of(alloc, table.kind, text)?;
            Ok(Some(Event::Text(place, string)))
        }
        TypeNode::ObjectIdentifier => Ok(Some(Event::Arcs(arcs_of(alloc, text)?))),
        _ => Ok(None),
    }
}

/// The form of a type's values in JSON.
pub fn form_of(node: &TypeNode) -> JsonForm {
    match node {
        TypeNode::Boolean => JsonForm::Boolean,
        TypeNode::Null => JsonForm::Null,
        TypeNode::Integer(_) => JsonForm::Number,
        TypeNode::BitString(_) => JsonForm::Bits,
        TypeNode::SequenceOf(_, _) | TypeNode::SetOf(_, _) => JsonForm::Array,
        TypeNode::Sequence(_) | TypeNode::Set(_) | TypeNode::Group(_) | TypeNode::Choice(_) => {
            JsonForm::Object
        }
        _ => JsonForm::String,
    }
}

/// The bits of a BIT STRING that is a string of octets: those of its one size, or all.
fn sized_bits(alloc: Global, octets: &[u8], sizes: Sizes) -> Result<BitString, JsonErrorKind> {
    match fixed_size(sizes) {
        Some(size) => bits_of(alloc, octets, size),
        None => Ok(BitString::from_slice(alloc, octets)?),
    }
}

/// The bits of a BIT STRING that is an object.
///
/// # Errors
///
/// `MissingMember` if it lacks one of the two; `NotJson` if a name is without its value; `WrongLength`.
pub fn object_bits(alloc: Global, members: BitsMembers) -> Result<BitString, JsonErrorKind> {
    let BitsMembers {
        awaited,
        value,
        length,
    } = members;
    if awaited.is_some() {
        return Err(JsonErrorKind::NotJson);
    }
    let (Some(octets), Some(length)) = (value, length) else {
        return Err(JsonErrorKind::MissingMember);
    };
    bits_of(alloc, octets.as_slice(), length)
}

/// The first bits of octets. No octet is to spare, and the bits after them are zero.
fn bits_of(alloc: Global, octets: &[u8], length: usize) -> Result<BitString, JsonErrorKind> {
    if octets.len() != length.div_ceil(8) {
        return Err(JsonErrorKind::WrongLength);
    }
    let spare = (8 - length % 8) % 8;
    if let Some(last) = octets.last() {
        if last.trailing_zeros() < spare as u32 {
            return Err(JsonErrorKind::WrongLength);
        }
    }
    let mut buffer = BitString::from_slice(alloc, octets)?.into_buffer();
    buffer.truncate(length);
    Ok(BitString::from_buffer(buffer))
}

/// A length in bits.
pub fn length_of(token: &Token<'_>) -> Result<usize, JsonErrorKind> {
    let Token::Number(text) = token else {
        return Err(JsonErrorKind::Expected(JsonForm::Number));
    };
    if !is_plain(text) {
        return Err(JsonErrorKind::NotWhole);
    }
    match text.parse::<usize>() {
        Ok(length) => Ok(length),
        Err(_) => Err(JsonErrorKind::WrongLength),
    }
}

/// Octets in hexadecimal.
pub fn octets_of(alloc: Global, token: &Token<'_>) -> Result<Vec<u8>, JsonErrorKind> {
    let Token::String(text) = token else {
        return Err(JsonErrorKind::Expected(JsonForm::String));
    };
    Ok(hex::decode(alloc, *text)?)
}

/// The arcs of an OBJECT IDENTIFIER in decimal, separated by dots.
fn arcs_of(alloc: Global, text: &str) -> Result<ObjectIdentifier, JsonErrorKind> {
    let mut arcs: Vec<u32> = Vec::new(alloc);
    for digits in text.split('.') {
        match arc_of(digits) {
            Some(arc) => arcs.push(arc)?,
            None => return Err(JsonErrorKind::NotIdentifier),
        }
    }
    if arcs.len() < 2 {
        return Err(JsonErrorKind::NotIdentifier);
    }
    match Oid::new(arcs.as_slice()) {
        Some(oid) => Ok(ObjectIdentifier::from_oid(alloc, &oid)?),
        None => Err(JsonErrorKind::NotIdentifier),
    }
}

/// An arc in decimal.
fn arc_of(digits: &str) -> Option<u32> {
    if !is_plain(digits) {
        return None;
    }
    digits.parse::<u32>().ok()
}
