//! The characters of restricted character strings (X.680 41) as text. The octets of a GeneralString, GraphicString or
//! TeletexString are taken for the first 256 characters of Unicode, and a BMPString for UTF-16.
#![tactic(auto, using(std::proofs::lemmas::Grind::common_steps))]

use crate::errors::WriteError;
use asn1_table_tape::CharacterString;
use std::alloc::{AllocError, Global};
use std::borrow::CowStr;

/// The characters of a string as text.
pub fn text_of<'a>(alloc: Global, string: &'a CharacterString) -> Result<CowStr<'a>, WriteError> {
    match string {
        CharacterString::Utf8(text) => Ok(CowStr::Borrowed(text.as_str())),
        CharacterString::Bmp(text) => match String::from_utf16(alloc, text.as_units())? {
            Ok(text) => Ok(CowStr::Owned(text)),
            Err(_) => Err(WriteError::NotUnicode),
        },
        CharacterString::Numeric(text) => Ok(CowStr::Owned(spread(alloc, text.as_bytes())?)),
        CharacterString::Printable(text) => Ok(CowStr::Owned(spread(alloc, text.as_bytes())?)),
        CharacterString::Visible(text) => Ok(CowStr::Owned(spread(alloc, text.as_bytes())?)),
        CharacterString::Ia5(text) => Ok(CowStr::Owned(spread(alloc, text.as_bytes())?)),
        CharacterString::General(text) => Ok(CowStr::Owned(spread(alloc, text.as_bytes())?)),
        CharacterString::Graphic(text) => Ok(CowStr::Owned(spread(alloc, text.as_bytes())?)),
        CharacterString::Teletex(text) => Ok(CowStr::Owned(spread(alloc, text.as_bytes())?)),
    }
}

/// Octets as characters, one each.
fn spread(alloc: Global, octets: &[u8]) -> Result<String, AllocError> {
    octets.iter().map(|octet| char::from(*octet)).collect(alloc)
}
