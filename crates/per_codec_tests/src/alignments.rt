//! Values of each type without components, and lists, after 0 to 7 bits, unaligned and aligned.
use crate::spelled::push_spelled;
use asn1_schema_constraints::{Bounded, Constraints, Extensible, Size, Value as Range};
use asn1_schema_decode::{Decode, Decoder as _};
use asn1_schema_encode::{Encode, Encoder as _};
use asn1_schema_errors::{DecodeError, EncodeError};
use asn1_schema_tags::{Identifier, Tag};
use asn1_values_bit_strings::BitString;
use asn1_values_bits::BitBuffer;
use asn1_values_identifiers::{ObjectIdentifier, Oid};
use asn1_values_integers::Integer;
use asn1_values_octets::OctetString;
use asn1_values_strings::{BmpString, GeneralString, NumericString, VisibleString};
use per_codec::uper::{Decoder, DecoderOptions, Encoder, EncoderOptions};
use per_codec_reading::Variant;
use std::alloc::{AllocError, Global};
use std::test::Fail;

/// A value, and its type.
enum Value {
    Truth(bool),
    Nothing,
    Number(i64),
    Bits(&'static str),
    Octets(&'static [u8]),
    Text(&'static str),
    Numeric(&'static str),
    Visible(&'static str),
    General(&'static str),
    Bmp(&'static str),
    Identifier(&'static [u32]),
    Numbers(&'static [i64]),
    /// Lists with these numbers of elements, all of them TRUE.
    Lists(&'static [usize]),
}

/// The size that a value is constrained to, or the upper bound of a range from 0.
#[derive(Clone, Copy)]
enum Limit {
    Any,
    Most(i128),
    Fixed(usize),
    UpTo(usize),
    /// A range of sizes, with an extension marker.
    Extensible(usize, usize),
}

/// A value, its constraint, and its bits: in both variants, or before a slash in the unaligned one and after it in
/// the aligned one.
type Row = (Value, Limit, &'static str);

/// BOOLEAN, NULL, and numbers (X.691 11.5, 12, 13 and 24). A message without bits has one octet. Ranges of 256 and of
/// 65536 values take whole octets. For a wider range, the number of octets comes first in the aligned variant.
const NUMBERS: [Row; 8] = [
    (Value::Truth(true), Limit::Any, "b1"),
    (Value::Nothing, Limit::Any, ""),
    (Value::Number(4096), Limit::Any, "| 02 10 00"),
    (Value::Number(7), Limit::Most(255), "| 07"),
    (Value::Number(0xAB), Limit::Most(255), "| AB"),
    (Value::Number(300), Limit::Most(65535), "| 01 2C"),
    (
        Value::Number(300),
        Limit::Most(4294967295),
        "00 00 01 2C / b01 | 01 2C",
    ),
    (
        Value::Number(1234311),
        Limit::Most(1234311),
        "96 AC b00111 / b10 | 12 D5 87",
    ),
];

/// Strings after a length determinant (X.691 16, 17, 24 and 30). Characters of seven bits have eight in the aligned
/// variant.
const STRINGS: [Row; 10] = [
    (Value::Bits("FF b010000"), Limit::Any, "| 0E FF b010000"),
    (Value::Bits("b11111"), Limit::Any, "| 05 b11111"),
    (Value::Octets(&[1, 2, 3]), Limit::Any, "| 03 01 02 03"),
    (Value::Text("Jo"), Limit::Any, "| 02 4A 6F"),
    (Value::Numeric("123"), Limit::Any, "| 03 23 b0100"),
    (
        Value::Visible("Jo"),
        Limit::Any,
        "02 95 b101111 / | 02 4A 6F",
    ),
    (Value::General("Jo"), Limit::Any, "| 02 4A 6F"),
    (Value::Bmp("Jo"), Limit::Any, "| 02 00 4A 00 6F"),
    (
        Value::Identifier(&[1, 2, 3321]),
        Limit::Any,
        "| 03 2A 99 79",
    ),
    (
        Value::Identifier(&[1, 2, 840, 113549]),
        Limit::Any,
        "| 06 2A 86 48 86 F7 0D",
    ),
];

/// Strings under a size constraint (X.691 16, 17 and 30). Strings of a fixed size of up to 16 bits, and of up to two
/// octets, are not aligned. A size does not affect strings whose characters have no fixed number of octets.
const SIZED: [Row; 12] = [
    (Value::General("abc"), Limit::Fixed(2), "| 03 61 62 63"),
    (Value::Bits("FF FF"), Limit::Fixed(16), "FF FF"),
    (Value::Bits("FF FF b1"), Limit::Fixed(17), "| FF FF b1"),
    (Value::Octets(&[1, 2, 3]), Limit::Fixed(3), "| 01 02 03"),
    (Value::Octets(&[1, 2]), Limit::Fixed(2), "01 02"),
    (Value::Octets(&[1, 2]), Limit::UpTo(3), "b10 | 01 02"),
    (Value::Octets(&[]), Limit::UpTo(3), "b00"),
    (Value::Octets(&[9]), Limit::UpTo(65535), "| 00 01 09"),
    (Value::Octets(&[9]), Limit::UpTo(65536), "| 01 09"),
    (
        Value::Octets(&[1, 2, 3]),
        Limit::Extensible(1, 2),
        "b1 | 03 01 02 03",
    ),
    (Value::Octets(&[1]), Limit::Extensible(1, 2), "b00 | 01"),
    (
        Value::Octets(&[1, 2, 3, 4]),
        Limit::Extensible(1, 3),
        "b1 | 04 01 02 03 04",
    ),
];

/// SEQUENCE OF (X.691 20). After the bits of an element the next one is padded again.
const LISTS: [Row; 2] = [
    (Value::Numbers(&[1, 2]), Limit::Any, "| 02 01 01 01 02"),
    (Value::Lists(&[1, 3]), Limit::Any, "| 02 | 01 b1 | 03 b111"),
];

/// The constraint to a size.
fn sized(range: Bounded<usize>, is_extensible: bool) -> Option<Constraints<'static>> {
    let size = Extensible::new(Size::new(range)).set_extensible(is_extensible);
    Some(Constraints {
        size: Some(size),
        ..Constraints::NONE
    })
}

/// The constraint to a size or a range, if there is one.
fn constraints_of(limit: Limit) -> Option<Constraints<'static>> {
    match limit {
        Limit::Any => None,
        Limit::Most(last) => Some(Constraints {
            value: Some(Extensible::new(Range::new(Bounded::const_new(0, last)))),
            ..Constraints::NONE
        }),
        Limit::Fixed(size) => sized(Bounded::Single(size), false),
        Limit::UpTo(high) => sized(Bounded::up_to(high), false),
        Limit::Extensible(low, high) => sized(Bounded::const_new(low, high), true),
    }
}

/// Writes `count` one bits.
fn write_bits(encoder: &mut Encoder, count: usize) -> Result<(), EncodeError> {
    for _ in 0..count {
        encoder.encode_bool(Tag::BOOL, true, Identifier::EMPTY)?;
    }
    Ok(())
}

/// Writes a value.
fn write<T: Encode>(encoder: &mut Encoder, value: &T, limit: Limit) -> Result<(), EncodeError> {
    match constraints_of(limit) {
        Some(constraints) => value.encode_with_constraints(encoder, &constraints),
        None => value.encode(encoder),
    }
}

/// Writes `count` one bits and then the value.
fn write_behind<T: Encode>(
    encoder: &mut Encoder,
    count: usize,
    value: &T,
    limit: Limit,
) -> Result<(), EncodeError> {
    write_bits(encoder, count)?;
    write(encoder, value, limit)
}

/// The message of a number of one bits and then the value.
fn message<T: Encode>(
    alloc: Global,
    (variant, count): (Variant, usize),
    value: &T,
    limit: Limit,
) -> Result<Vec<u8>, EncodeError> {
    let options = match variant {
        Variant::Unaligned => EncoderOptions::unaligned(),
        Variant::Aligned => EncoderOptions::aligned(),
    };
    let mut encoder = Encoder::new(alloc, options);
    write_behind(&mut encoder, count, value, limit)?;
    encoder.output_into_vec()
}

/// Reads `count` bits.
fn skip(decoder: &mut Decoder<'_>, count: usize) -> Result<(), DecodeError> {
    for _ in 0..count {
        decoder.decode_bool(Tag::BOOL)?;
    }
    Ok(())
}

/// Reads a value under constraints.
fn read_under<T: Decode>(
    alloc: Global,
    decoder: &mut Decoder<'_>,
    constraints: &Constraints<'_>,
) -> Result<T, DecodeError> {
    T::decode_with_constraints(alloc, decoder, constraints)
}

/// Reads a value.
fn read<T: Decode>(
    alloc: Global,
    decoder: &mut Decoder<'_>,
    limit: Limit,
) -> Result<T, DecodeError> {
    match constraints_of(limit) {
        Some(constraints) => read_under(alloc, decoder, &constraints),
        None => T::decode(alloc, decoder),
    }
}

/// Reads a value. Returns whether it is this one.
fn reads<T: Decode + PartialEq>(
    alloc: Global,
    decoder: &mut Decoder<'_>,
    value: &T,
    limit: Limit,
) -> Result<bool, DecodeError> {
    let read: T = read(alloc, decoder, limit)?;
    Ok(read == *value)
}

/// Reads `count` bits. Returns whether this value follows them, and nothing follows it.
fn reads_behind<T: Decode + PartialEq>(
    alloc: Global,
    decoder: &mut Decoder<'_>,
    count: usize,
    value: &T,
    limit: Limit,
) -> Result<bool, DecodeError> {
    skip(decoder, count)?;
    let is_value = reads(alloc, decoder, value, limit)?;
    decoder.finish()?;
    Ok(is_value && decoder.input().is_empty())
}

/// Whether the message of a number of one bits and then the value is these octets.
fn is_written_behind<T: Encode>(
    alloc: Global,
    front: (Variant, usize),
    value: &T,
    limit: Limit,
    octets: &[u8],
) -> Result<bool, EncodeError> {
    let written = message(alloc, front, value, limit)?;
    Ok(written.as_slice() == octets)
}

/// A number of one bits and these bits, padded to whole octets, at least one.
fn expected(
    alloc: Global,
    (variant, count): (Variant, usize),
    spelled: &str,
) -> Result<Vec<u8>, Fail> {
    let mut message = BitBuffer::new(alloc);
    message.resize(count, true)?;
    push_spelled(&mut message, spelled, variant)?;
    if message.is_empty() {
        message.resize(8, false)?;
    }
    Ok(message.into_vec())
}

/// The lenient and the strict reader of a variant.
fn readers(variant: Variant) -> [DecoderOptions; 2] {
    match variant {
        Variant::Unaligned => [
            DecoderOptions::unaligned(),
            DecoderOptions::unaligned_strict(),
        ],
        Variant::Aligned => [DecoderOptions::aligned(), DecoderOptions::aligned_strict()],
    }
}

/// Whether the value has these bits after a number of others in one variant, and is decoded again, leniently and
/// strictly.
fn stands_behind<T: Encode + Decode + PartialEq>(
    alloc: Global,
    front: (Variant, usize),
    value: &T,
    limit: Limit,
    spelled: &str,
) -> Result<bool, Fail> {
    let (variant, count) = front;
    let octets = expected(alloc, front, spelled)?;
    for options in readers(variant) {
        let mut decoder = Decoder::new(alloc, octets.as_slice(), options);
        if reads_behind(alloc, &mut decoder, count, value, limit) != Ok(true) {
            return Ok(false);
        }
    }
    Ok(is_written_behind(alloc, front, value, limit, &octets)?)
}

/// Whether the value has the bits of its row after 0 to 7 bits, and is read back.
fn stands<T: Encode + Decode + PartialEq>(
    alloc: Global,
    value: T,
    (limit, spelled): (Limit, &str),
) -> Result<bool, Fail> {
    let (unaligned, aligned) = spelled.split_once('/').unwrap_or((spelled, spelled));
    for count in 0..8 {
        if !stands_behind(alloc, (Variant::Unaligned, count), &value, limit, unaligned)?
            || !stands_behind(alloc, (Variant::Aligned, count), &value, limit, aligned)?
        {
            return Ok(false);
        }
    }
    Ok(true)
}

/// A BIT STRING of these bits.
fn bits(alloc: Global, spelled: &str) -> Result<BitString, Fail> {
    let mut bits = BitBuffer::new(alloc);
    push_spelled(&mut bits, spelled, Variant::Unaligned)?;
    Ok(BitString::from_buffer(bits))
}

/// The identifier of these arcs.
fn identifier(alloc: Global, arcs: &[u32]) -> Result<ObjectIdentifier, Fail> {
    let oid = Oid::new(arcs).ok_or("no identifier")?;
    Ok(ObjectIdentifier::from_oid(alloc, &oid)?)
}

/// A list of numbers.
fn numbers(alloc: Global, members: &[i64]) -> Result<Vec<Integer>, AllocError> {
    let mut list = Vec::new(alloc);
    for member in members {
        list.push(Integer::from(*member))?;
    }
    Ok(list)
}

/// Lists with these numbers of elements, all of them TRUE.
fn lists(alloc: Global, counts: &[usize]) -> Result<Vec<Vec<bool>>, AllocError> {
    let mut lists = Vec::new(alloc);
    for count in counts {
        let list = vec![in alloc; true; *count]?;
        lists.push(list)?;
    }
    Ok(lists)
}

/// Whether a value other than a character string is as its row says.
fn is_right(alloc: Global, (value, limit, spelled): &Row) -> Result<bool, Fail> {
    let row = (*limit, *spelled);
    match value {
        Value::Truth(value) => stands(alloc, *value, row),
        Value::Nothing => stands(alloc, (), row),
        Value::Number(value) => stands(alloc, Integer::from(*value), row),
        Value::Bits(spelled) => stands(alloc, bits(alloc, spelled)?, row),
        Value::Octets(octets) => stands(alloc, OctetString::from_slice(alloc, octets)?, row),
        Value::Text(text) => stands(alloc, String::from_str(alloc, text)?, row),
        Value::Identifier(arcs) => stands(alloc, identifier(alloc, arcs)?, row),
        Value::Numbers(members) => stands(alloc, numbers(alloc, members)?, row),
        Value::Lists(counts) => stands(alloc, lists(alloc, counts)?, row),
        text => is_right_text(alloc, text, row),
    }
}

/// Whether a character string is as its row says.
fn is_right_text(alloc: Global, value: &Value, row: (Limit, &str)) -> Result<bool, Fail> {
    match value {
        Value::Numeric(text) => stands(alloc, NumericString::from_text(alloc, text)?, row),
        Value::Visible(text) => stands(alloc, VisibleString::from_text(alloc, text)?, row),
        Value::General(text) => stands(alloc, GeneralString::from_text(alloc, text)?, row),
        Value::Bmp(text) => stands(alloc, BmpString::from_text(alloc, text)?, row),
        _ => Ok(false),
    }
}

/// The index of the first wrong row of a table, if there is one.
fn wrong_row(alloc: Global, rows: &[Row]) -> Result<Option<usize>, Fail> {
    for place in 0..rows.len() {
        if !is_right(alloc, &rows[place])? {
            return Ok(Some(place));
        }
    }
    Ok(None)
}

#[test]
fn values_behind_bits(rt: HostRuntime) -> Result<(), Fail> {
    let tables: [&[Row]; 4] = [&NUMBERS, &STRINGS, &SIZED, &LISTS];
    for rows in tables {
        let wrong = wrong_row(rt.alloc(), rows)?;
        assert!(rt; wrong == None, "{wrong:?}");
    }
    Ok(())
}
