//! Values as JSON text and as octets in COER. Each outcome has a space before each of its words.
use crate::words::octets_of;
use asn1_notation_types::Table;
use asn1_table_json_reading::read_json;
use asn1_table_json_writing::{Style, write_json};
use asn1_table_relay::{decode_oer, encode_oer};
use asn1_table_tape::Event;
use oer_codec::oer::EncodingRules;
use std::alloc::{AllocError, Global};
use std::fmt::Write;

/// The octets of the value that is read from a text, after the space before this; or what is wrong with it, and where.
pub fn read(alloc: Global, table: &Table, text: &str) -> Result<String, AllocError> {
    let text = text.strip_prefix(' ').unwrap_or(text);
    match read_json(alloc, &table.types, &table.names, table.place, text) {
        Ok(tape) => encoded(alloc, table, tape.as_slice()),
        Err(error) => {
            let kind = error.kind;
            let offset = error.offset;
            if error.path.is_empty() {
                return format!(in alloc; " {kind:?} at {offset}");
            }
            let path = error.path.as_str();
            format!(in alloc; " {kind:?} at {offset} in {path}")
        }
    }
}

/// The text that is written of the value that these octets encode, or why there is none.
pub fn written(
    alloc: Global,
    table: &Table,
    octets: &str,
    style: Style,
) -> Result<String, AllocError> {
    let Some(octets) = octets_of(alloc, octets)? else {
        return String::from_str(alloc, "no octets");
    };
    let rules = EncodingRules::Coer;
    match decode_oer(alloc, &table.types, table.place, octets.as_slice(), rules) {
        Ok((tape, [])) => text_of(alloc, table, tape.as_slice(), style),
        Ok(_) => String::from_str(alloc, "further octets"),
        Err(refusal) => {
            let error = refusal.error;
            format!(in alloc; "{error:?}")
        }
    }
}

/// The octets of the value of a tape, or why there are none.
pub fn encoded(alloc: Global, table: &Table, tape: &[Event]) -> Result<String, AllocError> {
    match encode_oer(alloc, &table.types, tape) {
        Ok(octets) => shown(alloc, octets.as_slice()),
        Err(error) => format!(in alloc; " {error:?}"),
    }
}

/// The text of the value of a tape, or why there is none.
pub fn text_of(
    alloc: Global,
    table: &Table,
    tape: &[Event],
    style: Style,
) -> Result<String, AllocError> {
    match write_json(alloc, &table.types, &table.names, table.place, tape, style) {
        Ok(text) => Ok(text),
        Err(error) => format!(in alloc; "{error:?}"),
    }
}

/// Octets in hexadecimal.
fn shown(alloc: Global, octets: &[u8]) -> Result<String, AllocError> {
    let mut text = String::new(alloc);
    for octet in octets {
        write!(text, " {octet:02X}")?;
    }
    Ok(text)
}
