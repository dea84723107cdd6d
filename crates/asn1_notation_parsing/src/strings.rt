//! What strings of the notation hold (X.680 12.10 to 12.14).
use crate::refusals::Parsed;
use std::alloc::Global;

/// The text of a name, whose octets are letters, digits, hyphens and `&`.
pub fn copied_name(alloc: Global, octets: &[u8]) -> Parsed<String> {
    let mut text = String::new(alloc);
    for octet in octets {
        text.push(char::from(*octet))?;
    }
    Ok(text)
}

/// The digits of a bstring or an hstring, by their numbers. Its apostrophes, its last letter and white-space are none.
pub fn digits_of(alloc: Global, octets: &[u8]) -> Parsed<Vec<u8>> {
    let mut digits = Vec::new(alloc);
    let count = octets.len().saturating_sub(1);
    for octet in octets.iter().take(count) {
        match octet {
            b'0'..=b'9' => digits.push(*octet - b'0')?,
            b'A'..=b'F' => digits.push(*octet - b'A' + 10)?,
            _ => {}
        }
    }
    Ok(digits)
}

/// Whether an octet is white-space (X.680 12.1.6).
fn is_space(octet: u8) -> bool {
    matches!(octet, 9..=13 | b' ')
}

/// Whether an octet ends a line (X.680 12.1.6).
fn is_newline(octet: u8) -> bool {
    matches!(octet, 10..=13)
}

/// The number of octets of a text without white-space at its end.
fn trimmed_length(text: &[u8]) -> usize {
    let mut length = text.len();
    for octet in text.iter().rev() {
        if !is_space(*octet) {
            break;
        }
        length = length.saturating_sub(1);
    }
    length
}

/// The characters of a cstring: without its quotation marks, one for two within it, and without ends of lines and the
/// white-space around them (X.680 12.14).
pub fn characters_of(alloc: Global, octets: &[u8]) -> Parsed<Vec<u8>> {
    let mut characters = Vec::new(alloc);
    let mut is_second = true;
    let mut is_line_begin = false;
    let count = octets.len().saturating_sub(1);
    for octet in octets.iter().take(count) {
        if *octet == b'"' {
            is_second = !is_second;
            is_line_begin = false;
            if !is_second {
                continue;
            }
        }
        if is_newline(*octet) {
            let length = trimmed_length(characters.as_slice());
            characters.truncate(length);
            is_line_begin = true;
        }
        if is_line_begin && is_space(*octet) {
            continue;
        }
        is_line_begin = false;
        characters.push(*octet)?;
    }
    Ok(characters)
}
