//! The calls that encode and decode.
use asn1_schema_constraints::{Bounded, Constraint, Constraints, Extensible, Size, Value};
use asn1_schema_encode::Encode;
use asn1_schema_errors::{DecodeError, EncodeError};
use asn1_schema_wrapped::{Constrained, SetOf, SizeRange};
use asn1_values_bit_strings::BitString;
use asn1_values_bits::BitStr;
use asn1_values_octets::OctetString;
use oer_codec::reading::{decode_with_constraints, decode_with_remainder};
use oer_codec::{coer, oer, writing};
use oer_codec_reading::EncodingRules;
use std::alloc::{AllocError, Global};
use std::test::Fail;

/// OCTET STRING (SIZE (5)).
type FiveOctets = Constrained<SizeRange<5, 5>, OctetString>;

/// Four octets, where five are required.
fn four(alloc: Global) -> Result<FiveOctets, AllocError> {
    let octets = OctetString::from_slice(alloc, &[1, 2, 3, 4])?;
    Ok(FiveOctets::new(octets))
}

/// Five octets.
fn five(alloc: Global) -> Result<FiveOctets, AllocError> {
    let octets = OctetString::from_slice(alloc, &[1, 2, 3, 4, 5])?;
    Ok(FiveOctets::new(octets))
}

/// Whether both sets of rules refuse a value for its size, and leave the buffer as it was.
fn is_refused<T: Encode>(alloc: Global, value: &T, buffer: &mut Vec<u8>) -> bool {
    let refused = Some(EncodeError::SizeConstraintNotSatisfied);
    coer::encode_buf(alloc, value, buffer).err() == refused
        && buffer.as_slice() == [0xAA].as_slice()
        && oer::encode_buf(alloc, value, buffer).err() == refused
        && buffer.as_slice() == [0xAA].as_slice()
}

/// Whether they refuse four octets like that.
fn four_are_refused(alloc: Global, buffer: &mut Vec<u8>) -> Result<bool, AllocError> {
    let four = four(alloc)?;
    Ok(is_refused(alloc, &four, buffer))
}

/// Whether they refuse a SEQUENCE OF four octets like that, after its count was written.
fn list_of_four_is_refused(alloc: Global, buffer: &mut Vec<u8>) -> Result<bool, AllocError> {
    let mut list = Vec::new(alloc);
    list.push(four(alloc)?)?;
    Ok(is_refused(alloc, &list, buffer))
}

/// Whether they refuse a SET OF with five octets and four like that, after its first element was encoded by itself.
fn bag_is_refused(alloc: Global, buffer: &mut Vec<u8>) -> Result<bool, AllocError> {
    let mut members = Vec::new(alloc);
    members.push(five(alloc)?)?;
    members.push(four(alloc)?)?;
    Ok(is_refused(alloc, &SetOf::from_vec(members), buffer))
}

/// Appends TRUE to the buffer twice. Returns whether it follows what was there.
fn adds_true(alloc: Global, buffer: &mut Vec<u8>) -> Result<bool, EncodeError> {
    coer::encode_buf(alloc, &true, buffer)?;
    let once = buffer.as_slice() == [0xAA, 0xFF].as_slice();
    writing::encode_buf(alloc, &true, buffer)?;
    Ok(once && buffer.as_slice() == [0xAA, 0xFF, 0xFF].as_slice())
}

/// Appends a SET OF with 2 and 1 to the buffer. Returns whether it follows what was there.
fn adds_bag(alloc: Global, buffer: &mut Vec<u8>) -> Result<bool, EncodeError> {
    let bag = SetOf::from_vec(vec![in alloc; 2u8, 1]?);
    coer::encode_buf(alloc, &bag, buffer)?;
    Ok(buffer.as_slice() == [0xAA, 0xFF, 0xFF, 0x01, 0x02, 0x01, 0x02].as_slice())
}

/// A refused value leaves the buffer as it was; any other value follows what was there.
#[test]
fn buffers(rt: HostRuntime) -> Result<(), Fail> {
    let alloc = rt.alloc();
    let mut buffer = vec![in alloc; 0xAAu8]?;
    assert!(rt; four_are_refused(alloc, &mut buffer)?);
    assert!(rt; list_of_four_is_refused(alloc, &mut buffer)?);
    assert!(rt; bag_is_refused(alloc, &mut buffer)?);
    assert!(rt; adds_true(alloc, &mut buffer)?);
    assert!(rt; adds_bag(alloc, &mut buffer)?);
    Ok(())
}

/// Why a value has no canonical encoding under one constraint.
fn refusal<T: Encode>(alloc: Global, constraint: Constraint<'_>, value: &T) -> Option<EncodeError> {
    let list = [constraint];
    coer::encode_with_constraints(alloc, &Constraints::new(&list), value).err()
}

/// Whether an OCTET STRING has none, because its size is not permitted.
fn octets_are_refused(
    alloc: Global,
    size: Constraint<'_>,
    octets: &[u8],
) -> Result<bool, AllocError> {
    let string = OctetString::from_slice(alloc, octets)?;
    Ok(refusal(alloc, size, &string) == Some(EncodeError::SizeConstraintNotSatisfied))
}

/// Whether a BIT STRING of 14 bits has none, because its size is not permitted.
fn fourteen_are_refused(alloc: Global, size: Constraint<'_>) -> Result<bool, AllocError> {
    let bits = BitString::from_bitslice(alloc, BitStr::front_of(&[0xFF, 0x40], 14))?;
    Ok(refusal(alloc, size, &bits) == Some(EncodeError::SizeConstraintNotSatisfied))
}

/// The constraint to sizes of `low` to `high`.
fn size(low: usize, high: usize) -> Constraint<'static> {
    Constraint::Size(Extensible::new(Size::new(Bounded::const_new(low, high))))
}

#[test]
fn values_outside_their_constraints(rt: HostRuntime) -> Result<(), Fail> {
    let alloc = rt.alloc();
    let five = Constraint::Value(Extensible::new(Value::new(Bounded::const_new(5, 5))));
    let outside = Some(EncodeError::ValueConstraintNotSatisfied);
    assert!(rt; refusal(alloc, five, &6u8) == outside);
    assert!(rt; refusal(alloc, five, &6u16) == outside);
    assert!(rt; octets_are_refused(alloc, size(3, 6), &[1, 2])?);
    assert!(rt; octets_are_refused(alloc, size(3, 6), &[1, 2, 3, 4, 5, 6, 7])?);
    assert!(rt; fourteen_are_refused(alloc, size(15, 15))?);
    Ok(())
}

/// Whether `input` begins with TRUE, and `rest` follows.
fn is_true_before(alloc: Global, input: &[u8], rest: &[u8]) -> Result<bool, DecodeError> {
    let (value, behind) = decode_with_remainder::<bool>(alloc, input, EncodingRules::Coer)?;
    Ok(value && *behind == *rest)
}

/// Whether this is 7 under these constraints.
fn is_seven_under(
    alloc: Global,
    constraints: &Constraints,
    input: &[u8],
) -> Result<bool, DecodeError> {
    let rules = EncodingRules::Coer;
    let number = decode_with_constraints::<u8>(alloc, constraints, input, rules)?;
    Ok(number == 7)
}

/// What follows a value is returned as a borrowed slice, or ignored. Given constraints replace those of the type.
#[test]
fn octets_behind_a_value(rt: HostRuntime) -> Result<(), Fail> {
    let alloc = rt.alloc();
    assert!(rt; is_true_before(alloc, &[0xFF, 0x01, 0x02], &[0x01, 0x02])?);
    assert!(rt; is_true_before(alloc, &[0xFF], &[])?);
    assert!(rt; is_seven_under(alloc, &Constraints::NONE, &[0x01, 0x07])?);
    let octet = Constraint::Value(Extensible::new(Value::new(Bounded::const_new(0, 255))));
    assert!(rt; is_seven_under(alloc, &Constraints::new(&[octet]), &[0x07, 0x01])?);
    Ok(())
}
