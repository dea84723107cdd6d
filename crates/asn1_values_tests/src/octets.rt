//! Octets: that each call can succeed, how strings are printed, and the results of failed allocations.
ghost use Rattle.std.specs.Prelude.{◌≡◌, slice_set};

use crate::common::{
    assert_none, has, hash_of, is_before, is_granted, is_of, is_refused, is_shown, is_told,
};
use asn1_values::{FixedOctetString, OctetString, WrongLength};
use bytes::Bytes;
use std::alloc::{AllocError, Global};
use std::cmp::Ordering;
use std::process::Abort;

const OCTETS: [u8; 3] = [0xFF, 0x00, 0x61];

/// A string of these octets that allocates nothing.
fn lent() -> OctetString {
    OctetString::from_static(&[0xFF, 0x00, 0x61])
}

/// A vector of these octets.
fn vector(alloc: Global) -> Result<Vec<u8>, AllocError> {
    OCTETS.to_vec(alloc)
}

/// Whether a vector is converted to a string.
fn is_made_of_a_vector(alloc: Global) -> Result<bool, AllocError> {
    Ok(is_of(OctetString::try_from(vector(alloc)?), &OCTETS))
}

/// Whether a string of three octets borrows them, and a copy of it is equal.
fn is_whole(value: &OctetString) -> Result<bool, AllocError> {
    let copy = value.clone()?;
    Ok(copy == *value && value.len() == 3 && !value.is_empty() && has(value, &OCTETS))
}

/// Whether a string without octets is empty.
fn is_empty() -> bool {
    OctetString::new() == OctetString::default() && OctetString::new().is_empty()
}

#[test]
fn strings_are_made(rt: HostRuntime) {
    assert!(rt; is_made_of_a_vector(rt.alloc()) == Ok(true));
    assert!(rt; is_whole(&lent()) == Ok(true) && is_empty());
    assert!(rt; is_kept_in_place(&[0x61; 32]) && OctetString::from_few(&[0x61; 33]).is_none());
    assert!(rt; is_whole_in_copies(rt.alloc(), &[0x61; 33]) == Ok(true));
}

/// Whether a string of these octets allocates nothing.
fn is_kept_in_place(octets: &[u8]) -> bool {
    OctetString::from_few(octets).is_some_and(|string| has(&string, octets))
}

/// Whether a string of these octets, a copy of it, and the vector and the bytes of these have them.
fn is_whole_in_copies(alloc: Global, octets: &[u8]) -> Result<bool, AllocError> {
    let value = OctetString::from_slice(alloc, octets)?;
    let is_whole = has(&value, octets);
    let bytes = value.clone()?.into_bytes(alloc)?;
    let vector = value.into_vec(alloc)?;
    Ok(is_whole && bytes.as_slice() == octets && has(&vector, octets))
}

/// Whether bytes are copied and converted to a string, and this to bytes.
fn are_bytes(alloc: Global) -> Result<bool, AllocError> {
    let value = OctetString::from(Bytes::copy_from_slice(alloc, &OCTETS)?);
    let is_same = has(&value, &OCTETS);
    Ok(is_same && value.into_bytes(alloc)?.as_slice() == OCTETS.as_slice())
}

/// Whether strings of these octets are in this order.
fn are_ordered(first: &'static [u8], second: &'static [u8]) -> bool {
    is_before(
        &OctetString::from_static(first),
        &OctetString::from_static(second),
    )
}

/// Octets, the first of which are less than the second.
const ORDERED: [(&'static [u8], &'static [u8]); 5] = [
    (&[], &[0]),
    (&[0], &[0, 255]),
    (&[0, 255], &[1]),
    (&[1, 0], &[255]),
    (&[1], &[1, 0]),
];

/// Whether strings of the same length are compared as lists, and each string is hashed as its octets.
fn go_by_their_octets() -> bool {
    let first = FixedOctetString::new([1, 0]);
    let wanted = hash_of(&OCTETS.as_slice());
    is_before(&first, &FixedOctetString::new([1, 1]))
        && first.partial_cmp(&first) == Some(Ordering::Equal)
        && hash_of(&lent()) == wanted
        && hash_of(&FixedOctetString::new(OCTETS)) == wanted
}

/// The octets that are not ordered as their row says, if there are any.
fn wrong_order() -> Option<&'static [u8]> {
    for (first, second) in &ORDERED {
        if !are_ordered(first, second) {
            return Some(*first);
        }
    }
    None
}

#[test]
fn strings_go_by_their_octets(rt: HostRuntime) {
    assert_none(&rt, &wrong_order());
    assert!(rt; go_by_their_octets());
    assert!(rt; are_bytes(rt.alloc()) == Ok(true));
}

type Three = FixedOctetString<3>;

/// Whether a string of three octets is made from three, in each form, and not from four.
fn is_made_of_three(alloc: Global) -> Result<bool, AllocError> {
    let wanted = WrongLength {
        actual: 3,
        expected: 4,
    };
    let refused = FixedOctetString::<4>::try_from(OCTETS.as_slice());
    Ok(
        is_refused(refused, &wanted)
            && is_of(Three::try_from(OCTETS.as_slice()), &OCTETS)
            && is_of(Three::try_from(vector(alloc)?), &OCTETS)
            && is_of(Three::try_from(lent()), &OCTETS)
            && is_told(alloc, &wanted, "3 octets in place of 4"),
    )
}

/// Whether a string of three octets and a copy of it give them.
fn gives_three(value: Three) -> Result<bool, AllocError> {
    let copy = value.clone()?;
    Ok(
        has(&value, &OCTETS)
            && value == Three::from(OCTETS)
            && value.into_array() == OCTETS
            && <[u8; 3]>::from(copy) == OCTETS,
    )
}

/// Whether strings are initially zero.
fn are_zeros_at_first() -> bool {
    has(&FixedOctetString::<2>::default(), &[0, 0]) && FixedOctetString::<0>::default().len() == 0
}

/// A string after a write through its slice; the contract is what a caller can state.
fn write_last(value: &mut Three, octet: u8)
    ensures { value.new ≡ slice_set value.old 2 octet }
{
    let octets: &mut [u8] = value;
    octets[2] = octet;
}

/// Whether the octets 1, 2, 3 are overwritten.
fn is_written(value: &mut Three) -> bool {
    write_last(value, 9);
    let is_last = has(value, &[1, 2, 9]);
    value.set(1, 9);
    let is_set = has(value, &[1, 9, 9]);
    value.copy_from_slice(&[4, 5, 6]);
    let is_copied = has(value, &[4, 5, 6]);
    value.reverse();
    is_last && is_set && is_copied && has(value, &[6, 5, 4])
}

#[test]
fn strings_of_as_many_octets(rt: HostRuntime) {
    let alloc = rt.alloc();
    assert!(rt; is_made_of_three(alloc) == Ok(true));
    assert!(rt; gives_three(Three::new(OCTETS)) == Ok(true));
    assert!(rt; are_zeros_at_first() && is_written(&mut Three::new([1, 2, 3])));
    let value = OctetString::from_static(&[0x61, 0x00]);
    assert!(rt; is_shown(alloc, &value, "OctetString([97, 0])"));
}

/// Whether an octet string of an array is complete.
fn is_made_of_an_array(alloc: Global) -> Result<bool, AllocError> {
    let value = OctetString::from_array(alloc, OCTETS)?;
    Ok(has(&value, &OCTETS))
}

/// Whether a vector of a string's octets is complete.
fn is_listed(alloc: Global, value: &OctetString) -> Result<bool, AllocError> {
    let vector = value.to_vec(alloc)?;
    Ok(has(&vector, &OCTETS))
}

/// Whether a copy has all the octets, which it shares with its string.
fn is_copied_of_a_clone(alloc: Global, value: &OctetString) -> Result<bool, AllocError> {
    let vector = value.clone()?.into_vec(alloc)?;
    Ok(has(&vector, &OCTETS))
}

/// Whether a string is unchanged after conversion to bytes and back.
fn is_same_through_bytes(alloc: Global, value: &OctetString) -> Result<bool, AllocError> {
    let octets = value.clone()?.into_bytes(alloc)?;
    Ok(OctetString::try_from(&octets)? == *value)
}

/// Whether a vector of the octets of a string of three is complete.
fn is_listed_of_three(alloc: Global) -> Result<bool, AllocError> {
    let vector = Three::new(OCTETS).to_vec(alloc)?;
    Ok(has(&vector, &OCTETS))
}

/// The octet string of a slice; after a failed allocation, which sets `granted` to false, one that needs no memory.
fn of_slice(alloc: Global, granted: &mut bool) -> OctetString {
    match OctetString::from_slice(alloc, &OCTETS) {
        Ok(value) => value,
        Err(AllocError) => {
            *granted = false;
            lent()
        }
    }
}

/// Makes octet strings of borrowed octets, copies them and takes their octets; each result is complete or an error.
/// Returns whether no allocation failed.
fn copies(rt: &impl Abort, alloc: Global) -> bool {
    let mut granted = is_granted(rt, is_made_of_an_array(alloc));
    let value = of_slice(alloc, &mut granted);
    granted &= is_granted(rt, is_listed(alloc, &value));
    granted &= is_granted(rt, is_copied_of_a_clone(alloc, &value));
    granted &= is_granted(rt, is_same_through_bytes(alloc, &value));
    assert!(rt; has(&value, &OCTETS));
    granted & is_granted(rt, is_listed_of_three(alloc))
}

/// Whether a vector is made of a string that is moved.
fn is_moved_back(alloc: Global, value: OctetString) -> Result<bool, AllocError> {
    let vector = value.into_vec(alloc)?;
    Ok(has(&vector, &OCTETS))
}

/// Moves a vector into a string, and back out of it. After a failed allocation the vector has to be returned
/// unchanged. Returns whether no allocation failed.
fn is_moved(rt: &impl Abort, alloc: Global, vector: Vec<u8>) -> bool {
    match OctetString::from_vec(vector) {
        Ok(moved) => is_granted(rt, is_moved_back(alloc, moved)),
        Err(refused) => {
            assert!(rt; has(&refused.value, &OCTETS));
            false
        }
    }
}

/// Whether a string of two octets rejects a vector of three, and returns it unchanged.
fn is_handed_back(alloc: Global) -> Result<bool, AllocError> {
    match FixedOctetString::<2>::try_from(vector(alloc)?) {
        Ok(_) => Ok(false),
        Err(refused) => Ok(has(&refused, &OCTETS)),
    }
}

/// Makes and moves strings, and allocates. After a failed allocation the vector has to be returned unchanged. Returns
/// whether no allocation failed.
pub fn requests(rt: &impl Abort, alloc: Global) -> bool {
    let copied = copies(rt, alloc);
    let moved = match vector(alloc) {
        Ok(vector) => is_moved(rt, alloc, vector),
        Err(AllocError) => false,
    };
    let kept = is_granted(rt, is_handed_back(alloc));
    copied && moved && kept
}
