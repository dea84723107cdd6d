//! Rows of widths and codes, and the messages of errors.
use crate::common::assert_none;
use crate::rows::{KINDS, Kind, number_of, numbers_of, refusal};
use asn1_values::{
    CharacterAlphabet, InvalidBmpString, InvalidPrintableString, PermittedAlphabetError,
};
use std::alloc::{AllocError, Global};
use std::process::Abort;

/// The alphabets: their characters, or the first and the last of them; whether the width of a code is raised to 1, 2,
/// 4, 8, 16 or 32 bits; this width; characters with their codes; and a character and a code that the alphabet lacks.
/// All numbers are hexadecimal. The alphabets are: that of NumericString; 0 to 3, which take two bits, as do 0, 1 and
/// 3, where no character has the code 2; single characters, where 61 does not fit a code of no bits, 0 does, and both
/// have the code 0; those of VisibleString, IA5String and BMPString, whose codes are the characters' values; and
/// consecutive characters from 3E8 on, whose codes are their indices.
const ROWS: &str = "\
of 20 30 31 32 33 34 35 36 37 38 39;plain;4;31:2 32:3 33:4 20:0 39:A;41 B
of 0 1 3;plain;2;0:0 1:1 3:3;2 2
of;raised;0;;
of 61;raised;0;61:0;
of 0;raised;0;0:0;
of 61 62;raised;1;;
of 61 62 63 64 65;plain;3;;
of 61 62 63 64 65;raised;4;;
of 20 30 31 32 33 34 35 36 37 38 39;raised;4;;
of 7 FFFFFFFF;plain;1;7:0 FFFFFFFF:1;
of 31 32 33;plain;2;31:0 32:1 33:2;
of 31 32 33;raised;2;31:0 32:1 33:2;
from 20 7E;plain;7;20:20 7E:7E;
from 20 7E;raised;8;20:20 7E:7E;
from 0 7F;plain;7;0:0 7F:7F;
from 0 7F;raised;8;0:0 7F:7F;
from 0 FFFF;plain;10;0:0 FFFF:FFFF;
from 0 FFFF;raised;10;0:0 FFFF:FFFF;
from 3E8 3E9;plain;1;3E8:0 3E9:1;
from 3E8 3E9;raised;1;;
from 3E8 3EA;plain;2;3E8:0 3EA:2;
from 3E8 3EA;raised;2;;
from 3E8 3EB;plain;2;3E8:0 3EB:3;
from 3E8 3EB;raised;2;;
from 3E8 3EC;plain;3;3E8:0 3EC:4;
from 3E8 3EC;raised;4;;
from 3E8 3F7;plain;4;3E8:0 3F7:F;
from 3E8 3F7;raised;4;;
from 3E8 3F8;plain;5;3E8:0 3F8:10;
from 3E8 3F8;raised;8;;
from 3E8 4E7;plain;8;3E8:0 4E7:FF;
from 3E8 4E7;raised;8;;
from 3E8 4E8;plain;9;3E8:0 4E8:100;
from 3E8 4E8;raised;10;;";

/// The characters from `first` to `last`.
fn characters_from_to(alloc: Global, first: u32, last: u32) -> Result<Vec<u32>, AllocError> {
    let mut characters = Vec::new(alloc);
    for character in first..=last {
        characters.push(character)?;
    }
    Ok(characters)
}

/// The characters of a row.
fn listed(alloc: Global, words: &str) -> Result<Vec<u32>, AllocError> {
    match words.split_once(' ') {
        Some(("from", ends)) => match ends.split_once(' ') {
            Some((first, last)) => characters_from_to(alloc, number_of(first), number_of(last)),
            None => Ok(Vec::new(alloc)),
        },
        Some((_, characters)) => numbers_of(alloc, characters),
        None => Ok(Vec::new(alloc)),
    }
}

/// Whether a character has this code, and the code decodes to the character.
fn has_code(alphabet: &CharacterAlphabet, character: u32, code: u32) -> bool {
    alphabet.encode(character).ok() == Some(code) && alphabet.decode(code).ok() == Some(character)
}

/// Whether each character has its code in these rows, and each code decodes to its character.
fn has_codes(alphabet: &CharacterAlphabet, rows: &str) -> bool {
    for row in rows.split_whitespace() {
        match row.split_once(':') {
            Some((character, code)) if has_code(alphabet, number_of(character), number_of(code)) =>
                {}
            _ => return false,
        }
    }
    true
}

/// Whether an alphabet reports this character and this code as missing.
fn lacks(alphabet: &CharacterAlphabet, missing: u32, unused: u32) -> bool {
    matches!(
        alphabet.encode(missing),
        Err(PermittedAlphabetError::CharacterNotFound { character }) if character == missing
    ) && matches!(
        alphabet.decode(unused),
        Err(PermittedAlphabetError::IndexNotFound { index }) if index == unused
    )
}

/// Whether an alphabet has codes of this width, including these, and lacks a character and a code, if any are given.
fn is_as_said(alphabet: &CharacterAlphabet, width: &str, codes: &str, lacking: &str) -> bool {
    alphabet.width() == number_of(width)
        && has_codes(alphabet, codes)
        && match lacking.split_once(' ') {
            Some((missing, unused)) => lacks(alphabet, number_of(missing), number_of(unused)),
            None => true,
        }
}

/// Whether the alphabet of a row is made as the row says, or memory runs out.
fn is_row(alloc: Global, row: &str) -> Result<bool, AllocError> {
    let mut parts = row.split(';');
    let characters = listed(alloc, parts.next().unwrap_or(""))?;
    let is_raised = parts.next() == Some("raised");
    let width = parts.next().unwrap_or("");
    let codes = parts.next().unwrap_or("");
    let lacking = parts.next().unwrap_or("");
    match CharacterAlphabet::new(alloc, &characters, is_raised) {
        Ok(alphabet) => Ok(is_as_said(&alphabet, width, codes, lacking)),
        Err(PermittedAlphabetError::Memory(refused)) => Err(refused),
        Err(_) => Ok(false),
    }
}

/// Whether a list of characters that does not ascend is an error.
fn is_no_list(alloc: Global, characters: &[u32]) -> bool {
    matches!(
        CharacterAlphabet::new(alloc, characters, false),
        Err(PermittedAlphabetError::InvalidData)
    )
}

/// The row whose alphabet is not made as it says, if there is one. A failed allocation sets `granted` to false.
fn wrong_row(alloc: Global, granted: &mut bool) -> Option<&'static str> {
    for row in ROWS.lines() {
        match is_row(alloc, row) {
            Ok(true) => {}
            Ok(false) => return Some(row),
            Err(AllocError) => *granted = false,
        }
    }
    None
}

/// Makes each alphabet; it is complete, or memory ran out. Returns whether no allocation failed.
pub fn requests(rt: &impl Abort, alloc: Global) -> bool {
    let mut granted = true;
    assert_none(rt, &wrong_row(alloc, &mut granted));
    assert!(rt; is_no_list(alloc, &[49, 49]) && is_no_list(alloc, &[50, 49]));
    granted
}

/// Errors, and their messages.
const TOLD: [(PermittedAlphabetError, &'static str); 4] = [
    (
        PermittedAlphabetError::Other,
        "the characters are not permitted",
    ),
    (
        PermittedAlphabetError::InvalidData,
        "the characters are not well formed",
    ),
    (
        PermittedAlphabetError::IndexNotFound { index: 11 },
        "no permitted character has the code 11",
    ),
    (
        PermittedAlphabetError::CharacterNotFound { character: 65 },
        "character 65 is not permitted",
    ),
];

/// The message of each kind of string about the character 65.
const REFUSED: [&'static str; 8] = [
    "character 65 is not permitted in a NumericString",
    "character 65 is not permitted in a PrintableString",
    "character 65 is not permitted in a VisibleString",
    "character 65 is not permitted in an IA5String",
    "character 65 is not permitted in a GeneralString",
    "character 65 is not permitted in a GraphicString",
    "character 65 is not permitted in a TeletexString",
    "character 65 is not permitted in a BMPString",
];

/// The message of an error; after a failed allocation it is made again.
fn told(alloc: Global, error: &PermittedAlphabetError) -> Result<String, AllocError> {
    match format!(in alloc; "{error}") {
        Err(AllocError) => format!(in alloc; "{error}"),
        told => told,
    }
}

/// Whether an error has this message.
fn tells(alloc: Global, error: &PermittedAlphabetError, wanted: &str) -> bool {
    match told(alloc, error) {
        Ok(text) => text.as_str() == wanted,
        Err(AllocError) => false,
    }
}

/// The message that its error does not print, if there is one.
fn wrong_text(alloc: Global) -> Option<&'static str> {
    for (error, wanted) in &TOLD {
        if !tells(alloc, error, wanted) {
            return Some(*wanted);
        }
    }
    None
}

/// Whether a kind of string has this message about the character 65.
fn tells_of_65(alloc: Global, kind: Option<&Kind>, wanted: &str) -> bool {
    match kind {
        Some(kind) => tells(
            alloc,
            &PermittedAlphabetError::from(refusal(*kind, 65)),
            wanted,
        ),
        None => false,
    }
}

/// The message that its kind of string does not print, if there is one.
fn wrong_refusal(alloc: Global) -> Option<&'static str> {
    for (place, wanted) in REFUSED.iter().enumerate() {
        if !tells_of_65(alloc, KINDS.get(place), wanted) {
            return Some(*wanted);
        }
    }
    None
}

#[test]
fn errors_are_told(rt: HostRuntime) {
    assert_none(&rt, &wrong_text(rt.alloc()));
    assert_none(&rt, &wrong_refusal(rt.alloc()));
    assert!(rt;
        InvalidBmpString { character: 65536 } == InvalidBmpString { character: 65536 }
            && InvalidPrintableString { character: 42 } != InvalidPrintableString { character: 43 }
    );
}
