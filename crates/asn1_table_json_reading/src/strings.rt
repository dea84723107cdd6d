//! Restricted character strings (X.680 41) of the characters of a text: a GeneralString, GraphicString or
//! TeletexString has the first 256 characters of Unicode, each an octet, and a BMPString is UTF-16.
#![tactic(auto, using(std::proofs::lemmas::Grind::common_steps))]

use crate::errors::JsonErrorKind;
use asn1_table_tape::CharacterString;
use asn1_table_types::StringKind;
use asn1_values_alphabets::PermittedAlphabetError;
use asn1_values_strings::{
    BmpString, GeneralString, GraphicString, Ia5String, NumericString, PrintableString,
    TeletexString, VisibleString,
};
use std::alloc::Global;

/// The string of a kind with these characters.
pub fn string_of(
    alloc: Global,
    kind: StringKind,
    text: &str,
) -> Result<CharacterString, JsonErrorKind> {
    match characters_of(alloc, kind, text) {
        Ok(string) => Ok(string),
        Err(PermittedAlphabetError::Memory(_)) => Err(JsonErrorKind::OutOfMemory),
        Err(_) => Err(JsonErrorKind::CharacterNotPermitted),
    }
}

/// The string of a kind with these characters.
fn characters_of(
    alloc: Global,
    kind: StringKind,
    text: &str,
) -> Result<CharacterString, PermittedAlphabetError> {
    match kind {
        StringKind::Numeric => {
            Ok(CharacterString::Numeric(NumericString::from_text(alloc, text)?))
        }
        StringKind::Printable => {
            Ok(CharacterString::Printable(PrintableString::from_text(alloc, text)?))
        }
        StringKind::Visible => {
            Ok(CharacterString::Visible(VisibleString::from_text(alloc, text)?))
        }
        StringKind::Ia5 => Ok(CharacterString::Ia5(Ia5String::from_text(alloc, text)?)),
        StringKind::Bmp => {
            let units: Vec<u16> = text.encode_utf16().collect(alloc)?;
            Ok(CharacterString::Bmp(BmpString::from(units)))
        }
        StringKind::General => {
            Ok(CharacterString::General(GeneralString::from_text(alloc, text)?))
        }
        StringKind::Graphic => {
            Ok(CharacterString::Graphic(GraphicString::from_text(alloc, text)?))
        }
        StringKind::Teletex => {
            Ok(CharacterString::Teletex(TeletexString::from_text(alloc, text)?))
        }
        StringKind::Utf8 => Ok(CharacterString::Utf8(String::from_str(alloc, text)?)),
    }
}
