//! Parts of encodings after a number of bits: numbers, length determinants, indexes, and other parts that are not a
//! message by themselves (X.691 11).
use crate::spelled::push_spelled;
use asn1_schema_errors::EncodeError;
use asn1_schema_tags::Chosen;
use asn1_values_bits::BitBuffer;
use per_codec_additions::push_normally_few;
use per_codec_packing::Packing;
use per_codec_reading::Variant;
use per_codec_writing::{
    push_boolean, push_constrained, push_fragment_length, push_index, push_normally_small,
    push_open_type, push_short_length,
};
use std::alloc::{AllocError, Global};
use std::test::Fail;

/// A part of an encoding.
#[derive(Clone, Copy)]
enum Part {
    Truth(bool),
    /// A number from 0 to a maximum: the maximum and the number.
    Number(u128, u128),
    Small(u64),
    Length(usize),
    /// The length determinant of a fragment, by its multiple of 16384 units.
    Fragment(usize),
    /// An alternative in a root of two.
    Root(usize),
    /// An added alternative, with a root of two.
    Added(usize),
    /// An open type without bits.
    OpenType,
    /// A presence bitmap for one addition, which is present.
    Bitmap,
}

/// A variant, the number of one bits before, parts, and all bits after that.
type Row = (Variant, usize, &'static [Part], &'static str);

const ROWS: [Row; 23] = [
    (UPER, 0, &TRUTHS, "b101"),
    (APER, 0, &TRUTHS, "b101"),
    (UPER, 0, &[Part::Number(0, 0)], ""),
    (APER, 0, &[Part::Number(0, 0)], ""),
    (APER, 3, &[Part::Number(2, 2)], "b11110"),
    (APER, 1, &[Part::Number(254, 7)], "83 b1"),
    (UPER, 1, &[Part::Number(255, 7)], "83 b1"),
    (APER, 1, &[Part::Number(255, 7)], "80 07"),
    (APER, 2, &[Part::Number(65535, 258)], "C0 01 02"),
    (APER, 1, &[Part::Number(65536, 65536)], "C0 01 00 00"),
    (
        APER,
        8,
        &[Part::Number(u128::MAX, u128::MAX)],
        "FF F0 FF*16",
    ),
    (UPER, 1, &[Part::Length(1)], "80 b1"),
    (APER, 1, &[Part::Length(1)], "80 01"),
    (APER, 3, &[Part::Truth(true), Part::Length(1)], "F0 01"),
    (APER, 1, &[Part::Fragment(4), Part::Fragment(1)], "80 C4 C1"),
    (UPER, 0, &[Part::Small(5), Part::Small(63)], "0A b111111"),
    (APER, 0, &[Part::Small(5), Part::Small(63)], "0A b111111"),
    (UPER, 0, &[Part::Small(64)], "80 A0 b0"),
    (APER, 0, &[Part::Small(64)], "80 01 40"),
    (UPER, 0, &[Part::Root(1)], "b1"),
    (UPER, 0, &[Part::Added(0)], "80"),
    (UPER, 0, &[Part::OpenType], "01 00"),
    (APER, 0, &[Part::Bitmap], "01"),
];

const UPER: Variant = Variant::Unaligned;

const APER: Variant = Variant::Aligned;

const TRUTHS: [Part; 3] = [Part::Truth(true), Part::Truth(false), Part::Truth(true)];

/// A presence bitmap for one addition, which is present.
fn bitmap_of_one(alloc: Global) -> Result<BitBuffer, AllocError> {
    let mut bitmap = BitBuffer::new(alloc);
    bitmap.push(true)?;
    Ok(bitmap)
}

/// Writes a presence bitmap for one addition, which is present.
fn push_bitmap_of_one(
    alloc: Global,
    output: &mut Packing,
    variant: Variant,
) -> Result<(), EncodeError> {
    let bitmap = bitmap_of_one(alloc)?;
    push_normally_few(output, variant, &bitmap.as_bitslice())
}

/// Writes a part.
fn push_part(
    alloc: Global,
    output: &mut Packing,
    variant: Variant,
    part: Part,
) -> Result<(), EncodeError> {
    match part {
        Part::Truth(value) => push_boolean(output, variant, value),
        Part::Number(span, value) => push_constrained(output, variant, span, value),
        Part::Small(number) => push_normally_small(output, variant, number),
        Part::Length(length) if length < 16384 => push_short_length(output, variant, length),
        Part::Fragment(times) if times <= 4 => push_fragment_length(output, variant, times),
        Part::Length(_) | Part::Fragment(_) => Err(EncodeError::SizeConstraintNotSatisfied),
        Part::Root(place) => push_index(output, variant, 2, false, Chosen::root(place)),
        Part::Added(place) => push_index(output, variant, 2, true, Chosen::addition(place)),
        Part::OpenType => push_open_type(output, variant, &BitBuffer::new(alloc)),
        Part::Bitmap => push_bitmap_of_one(alloc, output, variant),
    }
}

/// Appends parts.
fn push_parts(
    alloc: Global,
    output: &mut Packing,
    variant: Variant,
    parts: &[Part],
) -> Result<(), EncodeError> {
    for part in parts {
        push_part(alloc, output, variant, *part)?;
    }
    Ok(())
}

/// A number of one bits and then parts, at a position that is known from the start or is not.
fn written(
    alloc: Global,
    (variant, count, parts, _): Row,
    is_placed: bool,
) -> Result<Packing, EncodeError> {
    let mut output = Packing::new(alloc);
    output.resize(count, true)?;
    if is_placed {
        push_parts(alloc, &mut output, variant, parts)?;
    } else {
        let mut text = Packing::unplaced(alloc);
        push_parts(alloc, &mut text, variant, parts)?;
        output.append_field_list(text.as_field_list())?;
    }
    Ok(output)
}

/// Whether parts are as their row says.
fn is_right(alloc: Global, row: Row, is_placed: bool) -> Result<bool, Fail> {
    let mut wanted = BitBuffer::new(alloc);
    push_spelled(&mut wanted, row.3, row.0)?;
    let output = written(alloc, row, is_placed)?;
    Ok(output.as_bits().as_bitslice() == wanted.as_bitslice())
}

#[test]
fn parts_behind_bits(rt: HostRuntime) -> Result<(), Fail> {
    for (place, row) in ROWS.iter().enumerate() {
        assert!(rt; is_right(rt.alloc(), *row, true)?, "row {place}");
        assert!(rt;
            is_right(rt.alloc(), *row, false)?,
            "row {place}, placed later"
        );
    }
    Ok(())
}

/// Whether a number above its maximum is refused.
fn is_outside(alloc: Global, variant: Variant, span: u128, number: u128) -> bool {
    let answer = push_constrained(&mut Packing::new(alloc), variant, span, number);
    answer == Err(EncodeError::ValueConstraintNotSatisfied)
}

#[test]
fn numbers_outside(rt: HostRuntime) {
    for variant in [UPER, APER] {
        for span in [0, 1, 254, 255, 256, 65535, 65536, 1 << 64] {
            assert!(rt; is_outside(rt.alloc(), variant, span, span + 1));
        }
    }
}
