//! How many more octets a rejected input needs at least.
use asn1_schema_decode::Decode;
use asn1_values_octets::OctetString;
use per_codec::{aper, uper};
use std::alloc::Global;
use std::test::Fail;

/// How many more octets are needed at least to decode a value of the type, in UPER and APER: 0 if there is a value.
fn needed<T: Decode>(alloc: Global, input: &[u8]) -> (usize, usize) {
    let unaligned = match uper::decode_or_need::<T>(alloc, input) {
        Ok(_) => 0,
        Err(refusal) => refusal.needed,
    };
    let aligned = match aper::decode_or_need::<T>(alloc, input) {
        Ok(_) => 0,
        Err(refusal) => refusal.needed,
    };
    (unaligned, aligned)
}

/// Each further element takes at least one bit: of a thousand elements, eight are there and 991 follow the ninth; of a
/// hundred lists, four of the fifty elements of the first.
#[test]
fn members_that_are_to_come(rt: HostRuntime) -> Result<(), Fail> {
    let alloc = rt.alloc();
    let octets = [0x83, 0xE8, 1, 2, 3, 4, 5, 6, 7, 8];
    assert!(rt; needed::<Vec<u8>>(alloc, &octets) == (124, 124));
    assert!(rt; needed::<Vec<Vec<u8>>>(alloc, &[100, 50, 1, 2, 3, 4]) == (19, 19));
    assert!(rt; needed::<Vec<bool>>(alloc, &[100, 0]) == (12, 12));
    assert!(rt; needed::<Vec<u8>>(alloc, &[2, 7, 8]) == (0, 0));
    Ok(())
}

/// A string needs the rest of its length determinant: two of 512 octets are there. In a list, two more octets follow
/// that string.
#[test]
fn octets_of_a_string(rt: HostRuntime) -> Result<(), Fail> {
    let alloc = rt.alloc();
    assert!(rt; needed::<OctetString>(alloc, &[0x82, 0x00, 1, 2]) == (510, 510));
    assert!(rt; needed::<Vec<OctetString>>(alloc, &[3, 0x82, 0x00, 1, 2]) == (511, 511));
    assert!(rt; needed::<OctetString>(alloc, &[0x82]) == (1, 1));
    assert!(rt; needed::<OctetString>(alloc, &[2, 7, 8]) == (0, 0));
    Ok(())
}

/// Of octets in fragments, only the first missing fragment counts: one of two fragments of 16384 octets is there.
#[test]
fn octets_in_fragments(rt: HostRuntime) -> Result<(), Fail> {
    let alloc = rt.alloc();
    let mut octets = vec![in alloc; 0u8; 16387]?;
    octets[0] = 0xC1;
    assert!(rt; needed::<OctetString>(alloc, &octets[..1]) == (16384, 16384));
    octets[16385] = 0xC1;
    assert!(rt; needed::<OctetString>(alloc, &octets) == (16383, 16383));
    Ok(())
}
