//! Octets after a length determinant, in one piece and in fragments, after 0 to 7 bits (X.691 11.9), and which of them
//! are borrowed or copied.
use crate::spelled::octets;
use asn1_schema_errors::{DecodeError, EncodeError};
use asn1_values_bits::BitBuffer;
use per_codec_packing::Packing;
use per_codec_reading::{Cursor, InputOctets, PackedRules, Variant, read_counted_octets};
use per_codec_writing::push_counted_octets;
use std::alloc::{AllocError, Global};
use std::test::Fail;

/// Octets, their encoding with a length determinant, and whether it is the canonical one: at the limits between two
/// forms, and next to them.
const ROWS: [(&str, &str, bool); 13] = [
    ("", "00", true),
    ("A5", "01 A5", true),
    ("A5*127", "7F A5*127", true),
    ("A5*128", "80 80 A5*128", true),
    ("A5*16383", "BF FF A5*16383", true),
    ("A5*16384", "C1 A5*16384 00", true),
    ("A5*16384 3C", "C1 A5*16384 01 3C", true),
    ("A5*32768", "C2 A5*32768 00", true),
    ("A5*32768", "C1 A5*16384 C1 A5*16384 00", false),
    ("A5*49152 3C*16383", "C3 A5*49152 BF FF 3C*16383", true),
    ("A5*65536", "C4 A5*65536 00", true),
    ("A5*65536 3C", "C4 A5*65536 01 3C", true),
    ("A5*65536 3C*14464", "C4 A5*65536 B8 80 3C*14464", true),
];

/// The rules that accept all forms of a variant.
fn rules_of(variant: Variant) -> PackedRules {
    match variant {
        Variant::Unaligned => PackedRules::Uper,
        Variant::Aligned => PackedRules::Aper,
    }
}

/// A number of one bits, padding in the aligned variant, and these octets.
fn behind(
    alloc: Global,
    (variant, count): (Variant, usize),
    octets: &[u8],
) -> Result<BitBuffer, AllocError> {
    let mut bits = BitBuffer::new(alloc);
    bits.resize(count, true)?;
    if variant.is_aligned() {
        let whole = bits.as_bytes().len().saturating_mul(8);
        bits.resize(whole, false)?;
    }
    bits.extend_from_bytes(octets)?;
    Ok(bits)
}

/// Whether octets are read from these after a number of bits, and only the padding of the last octet follows.
fn is_read(
    alloc: Global,
    (variant, count): (Variant, usize),
    input: &[u8],
    octets: &[u8],
) -> Result<bool, DecodeError> {
    let mut cursor = Cursor::new(input);
    cursor.take(count)?;
    let found = read_counted_octets(alloc, &mut cursor, rules_of(variant))?;
    Ok(found.as_slice() == octets && cursor.len() < 8)
}

/// `count` one bits.
fn set_bits(alloc: Global, count: usize) -> Result<Packing, AllocError> {
    let mut output = Packing::new(alloc);
    output.resize(count, true)?;
    Ok(output)
}

/// Writes octets after a length determinant, at a position that is known from the start.
fn placed(
    alloc: Global,
    (variant, count): (Variant, usize),
    octets: &[u8],
) -> Result<Packing, EncodeError> {
    let mut output = set_bits(alloc, count)?;
    push_counted_octets(&mut output, variant, octets)?;
    Ok(output)
}

/// Octets after a length determinant at an unknown position.
fn unplaced(alloc: Global, variant: Variant, octets: &[u8]) -> Result<Packing, EncodeError> {
    let mut text = Packing::unplaced(alloc);
    push_counted_octets(&mut text, variant, octets)?;
    Ok(text)
}

/// Writes octets after a length determinant at an unknown position, and then puts them in place.
fn placed_later(
    alloc: Global,
    (variant, count): (Variant, usize),
    octets: &[u8],
) -> Result<Packing, EncodeError> {
    let text = unplaced(alloc, variant, octets)?;
    let mut output = set_bits(alloc, count)?;
    output.append_field_list(text.as_field_list())?;
    Ok(output)
}

/// Whether octets are written as these bits, at a known and at an unknown position.
fn is_written(
    alloc: Global,
    front: (Variant, usize),
    bits: &BitBuffer,
    octets: &[u8],
) -> Result<bool, EncodeError> {
    let early = placed(alloc, front, octets)?;
    let late = placed_later(alloc, front, octets)?;
    let bits = bits.as_bitslice();
    Ok(early.as_bits().as_bitslice() == bits && late.as_bits().as_bitslice() == bits)
}

/// Whether octets are read from these bits, and written as these if they are canonical.
fn stands_in(
    alloc: Global,
    front: (Variant, usize),
    bits: &BitBuffer,
    (octets, is_canonical): (&[u8], bool),
) -> Result<bool, Fail> {
    if is_canonical && !is_written(alloc, front, bits, octets)? {
        return Ok(false);
    }
    Ok(is_read(alloc, front, bits.as_bytes(), octets)?)
}

/// Whether octets are read after a number of bits, and written if they are canonical.
fn stands_behind(
    alloc: Global,
    front: (Variant, usize),
    (octets, counted, is_canonical): (&[u8], &[u8], bool),
) -> Result<bool, Fail> {
    let bits = behind(alloc, front, counted)?;
    stands_in(alloc, front, &bits, (octets, is_canonical))
}

/// Whether octets are as their row says after 0 to 7 bits.
fn stands_anywhere(
    alloc: Global,
    (contents, counted, is_canonical): (&str, &str, bool),
) -> Result<bool, Fail> {
    let counted = octets(alloc, counted)?;
    let octets = octets(alloc, contents)?;
    for count in 0..8 {
        let row: (&[u8], &[u8], bool) = (&octets, &counted, is_canonical);
        if !stands_behind(alloc, (Variant::Unaligned, count), row)?
            || !stands_behind(alloc, (Variant::Aligned, count), row)?
        {
            return Ok(false);
        }
    }
    Ok(true)
}

#[test]
fn octets_behind_bits(rt: HostRuntime) -> Result<(), Fail> {
    for row in ROWS {
        assert!(rt; stands_anywhere(rt.alloc(), row)?, "{row:?}");
    }
    Ok(())
}

/// Where the octets are that were read.
#[derive(Clone, Copy, Debug, PartialEq)]
enum Place {
    Input,
    Answer,
    Memory,
}

/// The bits before octets with a length determinant, these, the octets alone, and where they are.
const PLACES: [((Variant, usize), &str, &str, Place); 11] = [
    (
        (Variant::Aligned, 0),
        "03 01 02 03",
        "01 02 03",
        Place::Input,
    ),
    (
        (Variant::Aligned, 1),
        "03 01 02 03",
        "01 02 03",
        Place::Input,
    ),
    (
        (Variant::Unaligned, 0),
        "80 03 01 02 03",
        "01 02 03",
        Place::Input,
    ),
    ((Variant::Unaligned, 0), "00", "", Place::Input),
    ((Variant::Unaligned, 1), "00", "", Place::Answer),
    (
        (Variant::Unaligned, 1),
        "03 01 02 03",
        "01 02 03",
        Place::Answer,
    ),
    (
        (Variant::Unaligned, 7),
        "20 5A*31 A5",
        "5A*31 A5",
        Place::Answer,
    ),
    ((Variant::Unaligned, 4), "21 5A*33", "5A*33", Place::Memory),
    ((Variant::Unaligned, 8), "21 5A*33", "5A*33", Place::Input),
    (
        (Variant::Unaligned, 0),
        "C4 5A*65536 B8 80 5A*14464",
        "5A*80000",
        Place::Memory,
    ),
    (
        (Variant::Aligned, 0),
        "C4 5A*65536 B8 80 5A*14464",
        "5A*80000",
        Place::Memory,
    ),
];

/// Where the octets are.
fn place_of(octets: &InputOctets<'_>) -> Place {
    match octets {
        InputOctets::Lent(_) => Place::Input,
        InputOctets::Few(_) => Place::Answer,
        InputOctets::Owned(_) => Place::Memory,
    }
}

/// Whether the octets after a number of bits are these, also as a vector, and in this place.
fn is_in_place(
    alloc: Global,
    ((variant, count), counted, contents, place): ((Variant, usize), &str, &str, Place),
) -> Result<bool, Fail> {
    let wanted = octets(alloc, contents)?;
    let input = behind(alloc, (variant, count), &octets(alloc, counted)?)?;
    let mut cursor = Cursor::new(input.as_bytes());
    cursor.take(count)?;
    let found = read_counted_octets(alloc, &mut cursor, rules_of(variant))?;
    let is_there = place_of(&found) == place && found.as_slice() == wanted.as_slice();
    Ok(is_there && found.into_vec(alloc)? == wanted)
}

/// Octets in one piece are borrowed if they begin at an octet, and else copied; fragments are joined.
#[test]
fn where_octets_are(rt: HostRuntime) -> Result<(), Fail> {
    for row in PLACES {
        assert!(rt; is_in_place(rt.alloc(), row)?, "{row:?}");
    }
    Ok(())
}
