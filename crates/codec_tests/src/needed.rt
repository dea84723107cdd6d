//! How many more octets a rejected input needs at least.
use asn1_schema_decode::Decode;
use asn1_schema_example::grown::Grown;
use asn1_schema_example::message::Message;
use asn1_schema_wrapped::{Constrained, SizeRange};
use asn1_values_bit_strings::BitString;
use asn1_values_identifiers::ObjectIdentifier;
use asn1_values_octets::{FixedOctetString, OctetString};
use asn1_values_strings::Ia5String;
use oer_codec::{Refusal, coer, oer};
use std::alloc::Global;
use std::test::Fail;

/// OCTET STRING (SIZE (5)).
type FiveOctets = Constrained<SizeRange<5, 5>, OctetString>;

/// BIT STRING (SIZE (1000)).
type ThousandBits = Constrained<SizeRange<1000, 1000>, BitString>;

/// How many more octets this result asks for: none if there is a value.
fn octets_of<T: Decode>(read: Result<(T, &[u8]), Refusal>) -> usize {
    match read {
        Ok(_) => 0,
        Err(refusal) => refusal.needed,
    }
}

/// How many more octets are needed at least after these to read a value of the type in OER and COER.
fn needed<T: Decode>(alloc: Global, input: &[u8]) -> (usize, usize) {
    (
        octets_of(oer::decode_or_need::<T>(alloc, input)),
        octets_of(coer::decode_or_need::<T>(alloc, input)),
    )
}

/// Each further element takes at least one octet: ten of a thousand elements are there; of a hundred lists, five of the
/// fifty elements of the first.
#[test]
fn members_that_are_to_come(rt: HostRuntime) -> Result<(), Fail> {
    let alloc = rt.alloc();
    let octets = [2, 3, 0xE8, 0, 1, 2, 3, 4, 5, 6, 7, 8, 9];
    assert!(rt; needed::<Vec<u8>>(alloc, &octets) == (990, 990));
    assert!(rt; needed::<Vec<Vec<u8>>>(alloc, &[1, 100, 1, 50, 1, 2, 3, 4, 5]) == (144, 144));
    assert!(rt; needed::<Vec<u8>>(alloc, &[1, 2, 7, 8]) == (0, 0));
    Ok(())
}

/// A string needs the rest of its length determinant or fixed size, and the strings that follow it.
#[test]
fn octets_that_are_to_come(rt: HostRuntime) -> Result<(), Fail> {
    let alloc = rt.alloc();
    let octets = [0x82, 3, 0xE8, 0, 1, 2, 3, 4, 5, 6, 7, 8, 9];
    assert!(rt; needed::<OctetString>(alloc, &octets) == (990, 990));
    assert!(rt; needed::<String>(alloc, &octets) == (990, 990));
    assert!(rt; needed::<FixedOctetString<1000>>(alloc, &octets) == (990, 990));
    assert!(rt; needed::<FiveOctets>(alloc, &[1, 2]) == (3, 3));
    assert!(rt; needed::<Vec<OctetString>>(alloc, &[1, 3, 5, 1, 2]) == (5, 5));
    assert!(rt; needed::<OctetString>(alloc, &[0x82, 3]) == (1, 1));
    assert!(rt; needed::<OctetString>(alloc, &[2, 7, 8]) == (0, 0));
    Ok(())
}

/// The other types with a length determinant or a fixed number of octets, by the same rule.
#[test]
fn numbers_and_bits_that_are_to_come(rt: HostRuntime) -> Result<(), Fail> {
    let alloc = rt.alloc();
    let octets = [0x82, 3, 0xE8, 0, 1, 2, 3, 4, 5, 6, 7, 8, 9];
    assert!(rt; needed::<BitString>(alloc, &octets) == (990, 990));
    assert!(rt; needed::<ThousandBits>(alloc, &octets) == (112, 112));
    assert!(rt; needed::<i128>(alloc, &[10, 1, 2]) == (8, 8));
    assert!(rt; needed::<u64>(alloc, &[1, 2]) == (6, 6));
    assert!(rt; needed::<ObjectIdentifier>(alloc, &octets) == (990, 990));
    assert!(rt; needed::<Ia5String>(alloc, &octets) == (990, 990));
    assert!(rt; needed::<Vec<BitString>>(alloc, &[1, 3, 5, 0, 2]) == (5, 5));
    Ok(())
}

/// Extension additions: the presence bitmap, the open type of an addition, and that of an added alternative.
#[test]
fn additions_that_are_to_come(rt: HostRuntime) -> Result<(), Fail> {
    let alloc = rt.alloc();
    assert!(rt; needed::<Grown>(alloc, &[0x80, 0xFF, 10, 6]) == (9, 9));
    assert!(rt; needed::<Grown>(alloc, &[0x80, 0xFF, 2, 6, 0x40, 0x82, 3, 0xE8, 1]) == (999, 999));
    assert!(rt; needed::<Message>(alloc, &[0x82, 0x82, 3, 0xE8, 0, 1]) == (998, 998));
    Ok(())
}
