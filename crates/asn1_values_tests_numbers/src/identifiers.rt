//! Object identifiers: rows of octets, how identifiers are printed, and the results of failed allocations.
use crate::common::{
    Octets, assert_none, has, has_copy, hash_of, is_before, is_of, is_refused, is_shown, is_told,
};
use asn1_values::{IdentifierError, ObjectIdentifier, Oid, oid_from_octets, oid_octets};
use std::alloc::{AllocError, Global};
use std::borrow::CowSlice;
use std::process::Abort;

/// Arcs, and their octets.
const WRITTEN: [(&'static [u32], &'static [u8]); 5] = [
    (&[2, 999], &[0x88, 0x37]),
    (&[2, 4294967295], &[0x90, 0x80, 0x80, 0x80, 0x4F]),
    (&[1, 2, 3321], &[0x2A, 0x99, 0x79]),
    (&[0, 0], &[0x00]),
    (&[1, 39, 0], &[0x4F, 0x00]),
];

/// Octets that are not an identifier, and the error.
const FAULTS: &str = "\
9080808050 ArcTooLarge
8001 Padded
2A8001 Padded
81 Truncated
 Truncated
2A9080808000 ArcTooLarge
2A9080808080 Truncated
2A908080800080 ArcTooLarge";

/// Arcs, and whether they are valid.
const JUDGED: [(&'static [u32], bool); 8] = [
    (&[], false),
    (&[2], true),
    (&[3], false),
    (&[0, 39], true),
    (&[1, 40], false),
    (&[2, 40], true),
    (&[3, 1], false),
    (&[1, 39, 4294967295], true),
];

/// Whether the arcs are written as these octets, and the octets are read as these arcs.
fn are_written_and_read(alloc: Global, arcs: &[u32], octets: &[u8]) -> bool {
    match Oid::new(arcs) {
        Some(oid) => {
            is_of(oid_octets(alloc, &oid), octets) && is_of(oid_from_octets(alloc, octets), arcs)
        }
        None => false,
    }
}

/// Whether decoding octets fails, as their row says.
fn is_fault(alloc: Global, row: &str) -> bool {
    let (digits, reason) = row.split_once(' ').unwrap_or(("", ""));
    match oid_from_octets(alloc, Octets::of(digits).all()) {
        Ok(_) => false,
        Err(error) => is_shown(alloc, &error, reason),
    }
}

/// Whether an identifier of one arc is valid, and has no octets.
fn one_arc_is_not_written(alloc: Global) -> bool {
    match Oid::new(&[2]) {
        Some(lone) => is_refused(oid_octets(alloc, &lone), &IdentifierError::Truncated),
        None => false,
    }
}

/// Whether the arcs are valid for a borrowed and for an owned identifier, or for neither, as wanted.
fn are_judged(arcs: &'static [u32], wanted: bool) -> bool {
    Oid::new(arcs).is_some() == wanted && ObjectIdentifier::new(arcs.into()).is_some() == wanted
}

/// The arcs that are not written and read as their row says, if there are any.
fn wrong_octets(alloc: Global) -> Option<&'static [u32]> {
    for (arcs, octets) in &WRITTEN {
        if !are_written_and_read(alloc, arcs, octets) {
            return Some(*arcs);
        }
    }
    None
}

/// The octets that do not fail as their row says, if there are any.
fn wrong_fault(alloc: Global) -> Option<&'static str> {
    for row in FAULTS.lines() {
        if !is_fault(alloc, row) {
            return Some(row);
        }
    }
    None
}

/// The arcs that are not checked as their row says, if there are any.
fn wrong_judgement() -> Option<&'static [u32]> {
    for (arcs, wanted) in &JUDGED {
        if !are_judged(arcs, *wanted) {
            return Some(*arcs);
        }
    }
    None
}

#[test]
fn identifiers_are_written_and_read(rt: HostRuntime) {
    let alloc = rt.alloc();
    assert_none(&rt, &wrong_octets(alloc));
    assert_none(&rt, &wrong_fault(alloc));
    assert_none(&rt, &wrong_judgement());
    assert!(rt; one_arc_is_not_written(alloc));
}

/// Whether a borrowed identifier and its owned copy are equal, with the same three arcs.
fn are_the_same(first: &Oid<'_>, kept: &ObjectIdentifier) -> bool {
    kept.as_oid() == *first
        && has(first, &[1, 2, 3321])
        && has(kept, &[1, 2, 3321])
        && first.len() == 3
        && has_copy(first)
        && has_copy(kept)
        && hash_of(first) == hash_of(kept)
}

/// Whether the same identifier, borrowed and owned, is less than one whose last arc is greater, and both are printed.
fn are_in_order(alloc: Global, kept: &ObjectIdentifier) -> bool {
    let first = Oid::new_unchecked(&[1, 2, 3321]);
    let other = ObjectIdentifier::new_unchecked(CowSlice::Borrowed(&[1, 2, 3322]));
    is_before(kept, &other)
        && is_before(&first, &other.as_oid())
        && is_told(alloc, &first, "1.2.3321")
        && is_told(alloc, kept, "1.2.3321")
}

/// The message of each error.
const TOLD: [(IdentifierError, &'static str); 4] = [
    (IdentifierError::Truncated, "the identifier is truncated"),
    (IdentifierError::Padded, "a subidentifier is padded"),
    (IdentifierError::ArcTooLarge, "an arc is too large"),
    (IdentifierError::Memory, "out of memory"),
];

/// Whether 1.2.3321 is owned, compared and printed.
fn is_kept(alloc: Global) -> bool {
    let first = Oid::new_unchecked(&[1, 2, 3321]);
    match ObjectIdentifier::from_oid(alloc, &first) {
        Ok(kept) => kept[2] == 3321 && are_the_same(&first, &kept) && are_in_order(alloc, &kept),
        Err(_) => false,
    }
}

/// The message that its error does not print, if there is one.
fn wrong_text(alloc: Global) -> Option<&'static str> {
    for (error, text) in &TOLD {
        if !is_told(alloc, error, text) {
            return Some(*text);
        }
    }
    None
}

#[test]
fn identifiers_are_shown_and_compared(rt: HostRuntime) {
    assert!(rt; is_kept(rt.alloc()));
    assert_none(&rt, &wrong_text(rt.alloc()));
}

/// Whether the identifier is written as these octets.
fn is_written(alloc: Global, oid: &Oid<'_>, octets: &[u8]) -> Result<bool, IdentifierError> {
    let written = oid_octets(alloc, oid)?;
    Ok(has(&written, octets))
}

/// Whether the octets are read as an identifier of these arcs.
fn is_read(alloc: Global, octets: &[u8], arcs: &[u32]) -> Result<bool, IdentifierError> {
    let read = oid_from_octets(alloc, octets)?;
    Ok(has(&read, arcs))
}

/// Whether an owned identifier and its clone are equal.
fn is_kept_and_copied(alloc: Global, oid: &Oid<'_>) -> Result<bool, IdentifierError> {
    let kept = ObjectIdentifier::from_oid(alloc, oid)?;
    let copy = kept.clone()?;
    Ok(copy.as_oid() == *oid)
}

/// Whether the allocations of a call succeeded; then its result has to be true, and else its error is `Memory`.
fn is_granted(rt: &impl Abort, answer: Result<bool, IdentifierError>) -> bool {
    assert!(rt; answer == Ok(true) || answer == Err(IdentifierError::Memory));
    answer.is_ok()
}

/// Writes an identifier, reads it and copies it; each result is right, or memory ran out. Returns whether no
/// allocation failed.
pub fn requests(rt: &impl Abort, alloc: Global) -> bool {
    let octets = [0x90, 0x80, 0x80, 0x80, 0x4F, 0x99, 0x79];
    let oid = Oid::new_unchecked(&[2, 4294967295, 3321]);
    let written = is_granted(rt, is_written(alloc, &oid, &octets));
    let read = is_granted(rt, is_read(alloc, &octets, oid.as_slice()));
    let kept = is_granted(rt, is_kept_and_copied(alloc, &oid));
    written && read && kept
}
