//! A value is written as JSON.
#![tactic(auto, using(std::proofs::lemmas::Grind::common_steps))]

ghost use Rattle.std.specs.Prelude.{IfOk, string_bytes};
ghost use Rattle.asn1_table_json_writing.specs.Styles.{IsLaidOut};

use crate::decimals::{is_long, number_text};
use crate::errors::WriteError;
use crate::labels::{alternative_label, item_label, part_label};
use crate::output::{CompactText, JsonOutput, Style, pretty_text, put_number};
use crate::sizes::fixed_size;
use crate::strings::text_of;
use asn1_table_names::{NamedEvent, NamedEvents, Names, Role, is_list};
use asn1_table_tape::Event;
use asn1_table_types::{TypeNode, Types};
use asn1_values_bit_strings::BitString;
use json::{Pretty, Token};
use std::alloc::{AllocError, Global};

/// The JSON text of a value of the type at an index of a table, from its tape. Names may be missing.
///
/// # Errors
///
/// `OutOfPlace` where the walk over the tape stops, as the tape is that of no value of the type; `NotUnicode`;
/// `LongNumber`; `OutOfMemory`.
pub fn write_json(
    alloc: Global,
    types: &Types,
    names: &Names,
    place: usize,
    tape: &[Event],
    style: Style,
) -> Result<String, WriteError>
    ensures { IfOk result (λ s. IsLaidOut style (string_bytes s)) }
{
    match style {
        Style::Compact => {
            let mut output = CompactText::new(alloc);
            put_value(alloc, types, names, place, tape, &mut output)?;
            Ok(output.finish())
        }
        Style::Pretty => {
            let mut output = Pretty::new(alloc);
            put_value(alloc, types, names, place, tape, &mut output)?;
            Ok(pretty_text(output))
        }
    }
}

/// A value of the type at an index.
fn put_value<W: JsonOutput>(
    alloc: Global,
    types: &Types,
    names: &Names,
    place: usize,
    tape: &[Event],
    output: &mut W,
) -> Result<(), WriteError> {
    for named in NamedEvents::new(alloc, types, names, place, tape) {
        let named = named?;
        put_key(alloc, output, &named.role)?;
        put_event(alloc, types, names, output, &named)?;
    }
    Ok(())
}

/// The name of a component or alternative.
fn put_key<W: JsonOutput>(
    alloc: Global,
    output: &mut W,
    role: &Role<'_>,
) -> Result<(), AllocError> {
    match role {
        Role::Component(part, name) => {
            let label = part_label(alloc, *name, *part)?;
            output.put(Token::Key(label.as_str()))
        }
        Role::Alternative(chosen, name) => {
            let label = alternative_label(alloc, *name, *chosen)?;
            output.put(Token::Key(label.as_str()))
        }
        _ => Ok(()),
    }
}

/// A value without parts, or the beginning or end of one with parts.
fn put_event<W: JsonOutput>(
    alloc: Global,
    types: &Types,
    names: &Names,
    output: &mut W,
    named: &NamedEvent<'_>,
) -> Result<(), WriteError> {
    match named.event {
        Event::ListBegins(_, _) => output.put(Token::BeginArray)?,
        Event::SequenceBegins(_, _) => output.put(Token::BeginObject)?,
        Event::SetBegins(_, _) => output.put(Token::BeginObject)?,
        Event::ChoiceBegins(_, _) => output.put(Token::BeginObject)?,
        Event::Ends => put_end(types, named.place, output)?,
        event => put_scalar(alloc, types, names, named.place, event, output)?,
    }
    Ok(())
}

/// The end of a value of the type at an index.
fn put_end<W: JsonOutput>(types: &Types, place: usize, output: &mut W) -> Result<(), AllocError> {
    match types.node(place) {
        Some(node) if is_list(node) => output.put(Token::EndArray),
        _ => output.put(Token::EndObject),
    }
}

/// A value without parts. Nothing is written of an event that only says what follows.
fn put_scalar<W: JsonOutput>(
    alloc: Global,
    types: &Types,
    names: &Names,
    place: usize,
    event: &Event,
    output: &mut W,
) -> Result<(), WriteError> {
    match event {
        Event::Flag(value) => output.put(Token::Bool(*value))?,
        Event::Nil => output.put(Token::Null)?,
        Event::Number(_, number) => {
            if is_long(number) {
                return Err(WriteError::LongNumber);
            }
            let digits = number_text(alloc, number)?;
            put_number(output, digits.as_str())?
        }
        Event::Item(_, item) => {
            let label = item_label(alloc, names.item_name(types, place, *item), *item)?;
            output.put(Token::String(label.as_str()))?
        }
        Event::Bits(_, bits) => put_bits(alloc, is_fixed_at(types, place), bits, output)?,
        Event::Octets(_, octets) => put_octets(alloc, octets.as_slice(), output)?,
        Event::Text(_, text) => {
            let text = text_of(alloc, text)?;
            output.put(Token::String(text.as_str()))?
        }
        Event::Arcs(arcs) => {
            let arcs = arcs.to_string(alloc)?;
            output.put(Token::String(arcs.as_str()))?
        }
        _ => {}
    }
    Ok(())
}

/// Whether the BIT STRING at an index has one size, and no extension marker.
fn is_fixed_at(types: &Types, place: usize) -> bool {
    match types.node(place) {
        Some(TypeNode::BitString(sizes)) => fixed_size(*sizes).is_some(),
        _ => false,
    }
}

/// The bits of a BIT STRING: their octets in hexadecimal, and their number where it is not fixed.
fn put_bits<W: JsonOutput>(
    alloc: Global,
    is_fixed: bool,
    bits: &BitString,
    output: &mut W,
) -> Result<(), AllocError> {
    if is_fixed {
        return put_octets(alloc, bits.as_bytes(), output);
    }
    output.put(Token::BeginObject)?;
    output.put(Token::Key("value"))?;
    put_octets(alloc, bits.as_bytes(), output)?;
    output.put(Token::Key("length"))?;
    let length = bits.len();
    let digits = format!(in alloc; "{length}")?;
    put_number(output, digits.as_str())?;
    output.put(Token::EndObject)
}

/// Octets in hexadecimal.
fn put_octets<W: JsonOutput>(
    alloc: Global,
    octets: &[u8],
    output: &mut W,
) -> Result<(), AllocError> {
    let digits = hex::encode_upper(alloc, octets)?;
    output.put(Token::String(digits.as_str()))
}
