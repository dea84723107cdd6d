//! What the calls leave in a buffer, what they borrow, and the values that they refuse.
use crate::reading::PACKED;
use asn1_schema_constraints::{Bounded, Constraint, Constraints, Extensible, Size, Value};
use asn1_schema_encode::Encode;
use asn1_schema_errors::{DecodeError, EncodeError};
use asn1_values_identifiers::Oid;
use asn1_values_integers::Integer;
use asn1_values_octets::OctetString;
use asn1_values_strings::VisibleString;
use per_codec::reading::decode_with_remainder;
use per_codec::{aper, uper};
use per_codec_packing::Packing;
use per_codec_reading::{PackedRules, Variant};
use per_codec_writing::push_identifier;
use std::alloc::Global;
use std::test::Fail;

/// Encodes a value into a buffer, in place of its contents.
fn put<T: Encode>(
    alloc: Global,
    variant: Variant,
    value: &T,
    buffer: &mut Vec<u8>,
) -> Result<(), EncodeError> {
    match variant {
        Variant::Unaligned => uper::encode_buf(alloc, value, buffer),
        Variant::Aligned => aper::encode_buf(alloc, value, buffer),
    }
}

/// Whether each BOOLEAN replaces the contents of the buffer, and a number outside its bounds leaves it empty.
fn is_replaced(alloc: Global, variant: Variant, buffer: &mut Vec<u8>) -> Result<bool, EncodeError> {
    put(alloc, variant, &true, buffer)?;
    let first = buffer.as_slice() == [0x80].as_slice();
    put(alloc, variant, &false, buffer)?;
    let second = buffer.as_slice() == [0x00].as_slice();
    let refused = put(alloc, variant, &u128::MAX, buffer);
    Ok(
        first
            && second
            && refused == Err(EncodeError::ValueConstraintNotSatisfied)
            && buffer.is_empty(),
    )
}

#[test]
fn a_buffer_is_replaced(rt: HostRuntime) -> Result<(), Fail> {
    let alloc = rt.alloc();
    for variant in [Variant::Unaligned, Variant::Aligned] {
        let mut buffer = vec![in alloc; 0xAAu8; 3]?;
        assert!(rt; is_replaced(alloc, variant, &mut buffer)?);
    }
    Ok(())
}

/// Whether TRUE, and NULL in another message, are decoded, with these octets after them.
fn lends(
    alloc: Global,
    rules: PackedRules,
    (truth, nothing): (&[u8], &[u8]),
    behind: &[u8],
) -> Result<bool, DecodeError> {
    let (value, behind_truth) = decode_with_remainder::<bool>(alloc, truth, rules)?;
    let (_, behind_nothing) = decode_with_remainder::<()>(alloc, nothing, rules)?;
    Ok(value && behind_truth == behind && behind_nothing == behind)
}

#[test]
fn what_stands_behind_a_message_is_lent(rt: HostRuntime) -> Result<(), Fail> {
    for rules in PACKED {
        let messages: (&[u8], &[u8]) = (&[0x80, 0x07, 0x08], &[0x00, 0x07, 0x08]);
        assert!(rt; lends(rt.alloc(), rules, messages, &[0x07, 0x08])?);
    }
    Ok(())
}

/// Whether both variants refuse a value under constraints, with this error.
fn is_unwritten<T: Encode>(
    alloc: Global,
    constraint: Constraint<'_>,
    value: &T,
    error: EncodeError,
) -> bool {
    let constraints = Constraints::new(&[constraint]);
    uper::encode_with_constraints(alloc, &constraints, value).err() == Some(error)
        && aper::encode_with_constraints(alloc, &constraints, value).err() == Some(error)
}

/// Numbers, and bounds that they are outside of.
const NUMBERS: [(i64, i128, i128); 4] = [
    (6, -5, 5),
    (255, 256, 1234567),
    (-1, 0, 255),
    (256, 0, 255),
];

/// Whether a number outside its bounds is refused.
fn is_outside(alloc: Global, (number, low, high): (i64, i128, i128)) -> bool {
    let bounds = Constraint::Value(Extensible::new(Value::new(Bounded::const_new(low, high))));
    is_unwritten(
        alloc,
        bounds,
        &number,
        EncodeError::ValueConstraintNotSatisfied,
    )
}

/// Whether 2^128 is refused for a lower bound with an extension marker.
fn is_past_128_bits(alloc: Global) -> Result<bool, Fail> {
    let octets = [1, 0, 0, 0, 0, 0, 0, 0, 0, 0, 0, 0, 0, 0, 0, 0, 0];
    let number = Integer::from_signed_octets(alloc, &octets)?;
    let bounds = Extensible::new(Value::new(Bounded::start_from(0))).set_extensible(true);
    let error = EncodeError::ValueConstraintNotSatisfied;
    Ok(is_unwritten(alloc, Constraint::Value(bounds), &number, error))
}

/// Whether a string of three characters, and one octet, are refused if the size is two.
fn are_not_two(alloc: Global) -> Result<bool, Fail> {
    let two = Constraint::Size(Extensible::new(Size::new(Bounded::Single(2))));
    let error = EncodeError::SizeConstraintNotSatisfied;
    let text = VisibleString::from_text(alloc, "abc")?;
    let octets = OctetString::from_slice(alloc, &[1])?;
    Ok(is_unwritten(alloc, two, &text, error) && is_unwritten(alloc, two, &octets, error))
}

/// Whether an identifier of one arc is refused.
fn is_no_identifier(alloc: Global, arcs: &[u32]) -> Result<bool, Fail> {
    let lone = Oid::new(arcs).ok_or("no identifier")?;
    let answer = push_identifier(&mut Packing::new(alloc), Variant::Aligned, alloc, &lone);
    Ok(answer == Err(EncodeError::ValueConstraintNotSatisfied))
}

#[test]
fn values_that_are_not_written(rt: HostRuntime) -> Result<(), Fail> {
    let alloc = rt.alloc();
    for row in NUMBERS {
        assert!(rt; is_outside(alloc, row));
    }
    assert!(rt; is_past_128_bits(alloc)?);
    assert!(rt; are_not_two(alloc)?);
    assert!(rt; is_no_identifier(alloc, &[1])?);
    Ok(())
}
