//! Octets and events in words.
use asn1_table_tape::{CharacterString, Event, TapeOctets};
use asn1_values_bit_strings::BitString;
use asn1_values_identifiers::{ObjectIdentifier, Oid};
use asn1_values_integers::Integer;
use asn1_values_strings::Ia5String;
use std::alloc::{AllocError, Global};

/// Octets of two hexadecimal digits each, separated by spaces.
pub fn octets_of(alloc: Global, words: &str) -> Result<Option<Vec<u8>>, AllocError> {
    let mut octets = Vec::new(alloc);
    for word in words.split_whitespace() {
        match u8::from_str_radix(word, 16) {
            Ok(octet) => octets.push(octet)?,
            Err(_) => return Ok(None),
        }
    }
    Ok(Some(octets))
}

/// An event: a value without parts, or one of a list. The index of its type is this one.
pub fn event_of(alloc: Global, place: usize, words: &str) -> Result<Option<Event>, AllocError> {
    let (kind, value) = match words.split_once(' ') {
        Some(pair) => pair,
        None => (words, ""),
    };
    match kind {
        "flag" => Ok(Some(Event::Flag(value == "true"))),
        "null" => Ok(Some(Event::Nil)),
        "list" => Ok(
            value
                .parse::<usize>()
                .ok()
                .map(|count| Event::ListBegins(place, count)),
        ),
        "further" => Ok(Some(Event::Further(value == "true"))),
        "number" => Ok(
            value
                .parse::<i64>()
                .ok()
                .map(|number| Event::Number(place, Integer::from(number))),
        ),
        "item" => Ok(
            value
                .parse::<isize>()
                .ok()
                .map(|item| Event::Item(place, item)),
        ),
        _ => string_of(alloc, place, kind, value),
    }
}

/// A value whose memory is its own.
fn string_of(
    alloc: Global,
    place: usize,
    kind: &str,
    value: &str,
) -> Result<Option<Event>, AllocError> {
    match kind {
        "bits" => Ok(Some(Event::Bits(place, bits_of(alloc, value)?))),
        "octets" => Ok(octets_of(alloc, value)?.map(|octets| Event::Octets(
            place,
            TapeOctets::from_vec(octets),
        ))),
        "ia5" => Ok(
            Ia5String::from_text(alloc, value)
                .ok()
                .map(|text| Event::Text(place, CharacterString::Ia5(text))),
        ),
        "utf8" => {
            let text = String::from_str(alloc, value)?;
            Ok(Some(Event::Text(place, CharacterString::Utf8(text))))
        }
        "arcs" => Ok(arcs_of(alloc, value)?.map(Event::Arcs)),
        _ => Ok(None),
    }
}

/// Bits as zeros and ones.
fn bits_of(alloc: Global, digits: &str) -> Result<BitString, AllocError> {
    let mut bits = BitString::new(alloc);
    for digit in digits.chars() {
        bits.push(digit == '1')?;
    }
    Ok(bits)
}

/// The arcs of an object identifier, separated by spaces.
fn arcs_of(alloc: Global, words: &str) -> Result<Option<ObjectIdentifier>, AllocError> {
    let mut arcs: Vec<u32> = Vec::new(alloc);
    for word in words.split_whitespace() {
        match word.parse::<u32>() {
            Ok(arc) => arcs.push(arc)?,
            Err(_) => return Ok(None),
        }
    }
    match Oid::new(arcs.as_slice()) {
        Some(oid) => Ok(Some(ObjectIdentifier::from_oid(alloc, &oid)?)),
        None => Ok(None),
    }
}
