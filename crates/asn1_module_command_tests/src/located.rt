//! Where messages of some types are refused, in words.
use asn1_notation_syntax::read_syntax;
use asn1_notation_types::{Additions, Table, table_of};
use asn1_table_locating::{Located, locate_oer, locate_per};
use oer_codec_reading::EncodingRules;
use per_codec_reading::PackedRules;
use std::alloc::Global;

/// Cam is the type of most messages.
const MODULE: &str = "M DEFINITIONS AUTOMATIC TAGS ::= BEGIN
    Cam ::= SEQUENCE {
        header SEQUENCE {version INTEGER (0..255), flag BOOLEAN},
        parameters SEQUENCE {
            speed INTEGER (0..100) OPTIONAL,
            items SEQUENCE OF Item,
            ...,
            [[note OCTET STRING OPTIONAL, mode ENUMERATED {on, off} OPTIONAL]],
            more Item OPTIONAL
        }
    }
    Item ::= CHOICE {name IA5String, size INTEGER (0..10), ..., extra INTEGER (0..5)}
    Usual ::= SEQUENCE {level INTEGER (0..255) DEFAULT 7, flag BOOLEAN}
    Later ::= SEQUENCE {flag BOOLEAN, ..., next BOOLEAN}
    END";

/// The table of a type of the module.
fn table(alloc: Global, name: &str) -> Option<Table> {
    let files = [read_syntax(alloc, MODULE.as_bytes()).ok()?];
    table_of(alloc, &files, None, name, Additions::AreRequired.into()).ok()
}

/// Rules of a reader.
#[derive(Clone, Copy)]
pub enum Rules {
    Octets(EncodingRules),
    Packed(PackedRules),
}

/// A message of a type, and what is said of it.
pub struct PlaceRow {
    pub name: &'static str,
    pub rules: Rules,
    pub message: &'static [u8],
    pub said: &'static str,
}

/// Where a message ends or is refused, in words.
fn words(alloc: Global, row: &PlaceRow) -> Option<String> {
    let table = table(alloc, row.name)?;
    let types = &table.types;
    let names = &table.names;
    let located = match row.rules {
        Rules::Octets(rules) => locate_oer(alloc, types, names, table.place, row.message, rules),
        Rules::Packed(rules) => locate_per(alloc, types, names, table.place, row.message, rules),
    };
    match located.ok()? {
        Located::Read(end) => format!(in alloc; "read to {end}").ok(),
        Located::Refused(refused) => format!(in alloc; "{refused}").ok(),
    }
}

/// What is said of the first row of which something else is to be said.
pub fn first_wrong_place(alloc: Global, rows: &[PlaceRow]) -> Option<String> {
    for row in rows {
        let said = words(alloc, row)?;
        if said.as_str() != row.said {
            return Some(said);
        }
    }
    None
}
