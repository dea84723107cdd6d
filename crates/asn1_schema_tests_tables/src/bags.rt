//! SET OF values: that each call can succeed, which ones are equal; and orders of octets.
ghost use Rattle.std.specs.Prelude.{◌≡◌, IfOk};

use crate::common::is_shown;
use asn1_schema::SetOf;
use asn1_schema_order::Encodings;
use std::alloc::{AllocError, Global};
use std::hash::{BuildHasher, BuildHasherDefault, DefaultHasher};

/// A SET OF these elements.
fn bag_of(alloc: Global, members: &[u8]) -> Result<SetOf<u8>, AllocError>
    ensures { IfOk result (λ s. s.items.items ≡ members.now) }
{
    let items = Vec::from_slice(alloc, members)?;
    Ok(SetOf::from_vec(items))
}

/// Whether a SET OF has these elements, in this order.
fn has(bag: &SetOf<u8>, members: &[u8]) -> bool {
    bag.len() == members.len() && bag.as_slice() == members
}

/// Whether a SET OF is empty, and two equal elements are then inserted next to each other.
fn grows(bag: &mut SetOf<u8>) -> Result<bool, AllocError> {
    let is_new = bag.is_empty() && has(bag, &[]);
    bag.insert(7)?;
    bag.insert(7)?;
    Ok(is_new && !bag.is_empty() && has(bag, &[7, 7]))
}

/// Whether a new SET OF, and one with room, grows in this way.
fn new_ones_grow(alloc: Global) -> Result<bool, AllocError> {
    let is_new = grows(&mut SetOf::new(alloc))?;
    Ok(grows(&mut SetOf::with_capacity(alloc, 4)?)? && is_new)
}

/// Whether one of two equal elements is removed from a SET OF 5, 8 and 5.
fn is_one_removed(alloc: Global) -> Result<bool, AllocError> {
    let rest = bag_of(alloc, &[5, 8])?;
    let mut bag = bag_of(alloc, &[5, 8, 5])?;
    let removed = bag.remove(&5);
    Ok(bag == rest && removed == Some(5))
}

/// Whether nothing is removed from a SET OF 5 and 8 for a value that is not in it.
fn is_none_removed(alloc: Global) -> Result<bool, AllocError> {
    let mut bag = bag_of(alloc, &[5, 8])?;
    let removed = bag.remove(&6);
    Ok(has(&bag, &[5, 8]) && removed == None)
}

/// Whether a SET OF 3 and 1 contains only its elements, and iterates over them.
fn lends(bag: &SetOf<u8>) -> bool {
    let mut members = bag.iter();
    let are_visited = members.next() == Some(&3)
        && members.next() == Some(&1)
        && members.next() == None;
    bag.contains(&3) && bag.contains(&1) && !bag.contains(&2) && are_visited
}

/// Whether a SET OF 3 and 1 returns references to its elements in a vector.
fn lends_all(alloc: Global, bag: &SetOf<u8>) -> Result<bool, AllocError> {
    let lent = bag.to_vec(alloc)?;
    Ok(lent.as_slice() == [&3, &1].as_slice())
}

/// Whether a clone of a SET OF 3 and 1 has the same elements and is consumed into them, and the original is unchanged.
fn is_copied(bag: &SetOf<u8>) -> Result<bool, AllocError> {
    let copy = bag.clone()?;
    let is_same = has(&copy, &[3, 1]) && has(bag, &[3, 1]);
    Ok(copy.into_vec().as_slice() == [3, 1].as_slice() && is_same)
}

/// Whether two SET OF values have the same hash.
fn are_hashed_alike(one: &SetOf<u8>, other: &SetOf<u8>) -> bool {
    let hashing = BuildHasherDefault::<DefaultHasher>::new();
    hashing.hash_one(one) == hashing.hash_one(other)
}

/// Whether SET OF values of these elements are equal, compare as equal, and have the same hash.
fn compared(alloc: Global, one: &[u8], other: &[u8]) -> Result<[bool; 3], AllocError> {
    let one = bag_of(alloc, one)?;
    let other = bag_of(alloc, other)?;
    let is_same = one.is_same(alloc, &other)?;
    Ok([one == other, is_same, are_hashed_alike(&one, &other)])
}

/// Whether SET OF values are equal in any order, and differ with other counts, also by their order.
fn are_compared(alloc: Global) -> Result<bool, AllocError> {
    let reordered = compared(alloc, &[7, 3, 1, 2], &[7, 2, 3, 1])?;
    let recounted = compared(alloc, &[1, 1, 2], &[1, 2, 2])?;
    Ok(reordered == [true; 3] && recounted == [false; 3])
}

/// Whether a SET OF 3 and 1 is used by each call, and printed.
fn is_used(alloc: Global, bag: &SetOf<u8>) -> Result<bool, AllocError> {
    let is_shown = is_shown(alloc, bag, "SetOf { items: [3, 1] }");
    Ok(lends(bag) && is_shown && lends_all(alloc, bag)? && is_copied(bag)?)
}

/// Whether a SET OF is used in these ways.
fn are_used(alloc: Global) -> Result<bool, AllocError> {
    let bag = bag_of(alloc, &[3, 1])?;
    is_used(alloc, &bag)
}

#[test]
fn bags(rt: HostRuntime) {
    let alloc = rt.alloc();
    assert!(rt; new_ones_grow(alloc) == Ok(true));
    assert!(rt; is_one_removed(alloc) == Ok(true) && is_none_removed(alloc) == Ok(true));
    assert!(rt; are_used(alloc) == Ok(true) && are_compared(alloc) == Ok(true));
}

/// Encodings, some of which are prefixes of others.
const ENCODINGS: [&'static [u8]; 8] = [
    &[0x02, 0x01, 0x00],
    &[0x01, 0x00],
    &[0x01],
    &[0x01, 0x00],
    &[0x01, 0xFF],
    &[0x03, 0, 0, 0, 0, 0, 0, 0, 0x02],
    &[0x03, 0, 0, 0, 0, 0, 0, 0, 0x01],
    &[],
];

/// Whether the encodings are in this order, given by the indices at which they were added: shorter ones first.
fn stand_so(alloc: Global, places: &[usize]) -> Result<bool, AllocError> {
    let mut all = Encodings::new(alloc);
    for encoding in &ENCODINGS {
        all.push(encoding)?;
    }
    let entries = all.in_order(alloc)?;
    let mut found = Vec::new(alloc);
    for entry in &entries {
        found.push(entry.index)?;
    }
    Ok(found.as_slice() == places)
}

#[test]
fn shorter_ones_first(rt: HostRuntime) {
    assert!(rt; stand_so(rt.alloc(), &[7, 2, 1, 3, 4, 0, 6, 5]) == Ok(true));
}
