//! The contents octets of an object identifier (X.690 8.19).
ghost use Rattle.std.specs.Prelude.{◌≡◌, ℕ, ◌<◌, ◌≤◌, ◌+◌, ◌^◌, ◌++◌, [], ◌∷◌, map, length, OnOk, IfOk, IfErr, None};
ghost use Rattle.std.specs.Prelude.{Some, IsTrue, IsErrOf, IfSome, IfNone, OnErr, flat_map, ◌↔◌, ◌⊎◌};
ghost use Rattle.asn1_model.specs.Strings.{groups_of_seven, identifier_octets, is_identifier};
ghost use Rattle.asn1_model.specs.Versions.{Begins};
ghost use Rattle.asn1_values_identifiers.specs.Groups.{contents};
ghost use Rattle.asn1_values_identifiers.specs.Identifiers.{is_valid, subidentifiers, in_front, joined, arcs_of};

use crate::groups::{group_count, push_groups};
use crate::{IdentifierError, ObjectIdentifier, Oid};
use std::alloc::{AllocError, Global};
use std::borrow::CowSlice;

/// All subidentifiers except the first are below this.
const LIMIT: u64 = 1 << 32;

/// The first subidentifier is below this: 40 * 2 + an arc.
const FIRST_LIMIT: u64 = LIMIT + 80;

/// The first subidentifier of the octets, and the octets after it (X.690 8.19.2). Padding is not checked.
#[inline(always)]
fn unpadded_subidentifier(octets: &[u8], limit: u64) -> Result<(u64, &[u8]), IdentifierError>
    requires { (128 ≤ limit) × (limit ≤ 2 ^ 32 + 80) }
    ensures number { IfOk result (λ p. p.0 < limit) }
    ensures less { IfOk result (λ p. length p.1.now < length octets.now) }
    ensures read { IfOk result (λ p. subidentifiers limit (Some 0) octets.now
        ≡ in_front p.0 (subidentifiers (2 ^ 32) None p.1.now)) }
    ensures wrong { IfErr result (λ e. subidentifiers limit (Some 0) octets.now ≡ Err e) }
{
    let mut number = 0;
    for (i, octet) in octets.iter().enumerate() {
        if *octet < 128 {
            let whole = number * 128 + u64::from(*octet);
            if whole >= limit {
                return Err(IdentifierError::ArcTooLarge);
            }
            return Ok((whole, &octets[i + 1..]));
        }
        number = (number * 128 + u64::from(*octet - 128)).min(limit);
    }
    Err(IdentifierError::Truncated)
}

/// The first subidentifier, and the octets after it (X.690 8.19.2).
#[inline(always)]
fn first_subidentifier(octets: &[u8], limit: u64) -> Result<(u64, &[u8]), IdentifierError>
    requires some { 0 < length octets.now }
    requires limit { (128 ≤ limit) × (limit ≤ 2 ^ 32 + 80) }
    ensures number { IfOk result (λ p. p.0 < limit) }
    ensures less { IfOk result (λ p. length p.1.now < length octets.now) }
    ensures read { IfOk result (λ p. subidentifiers limit None octets.now
        ≡ in_front p.0 (subidentifiers (2 ^ 32) None p.1.now)) }
    ensures wrong { IfErr result (λ e. subidentifiers limit None octets.now ≡ Err e) }
{
    if octets[0] == 0x80 {
        return Err(IdentifierError::Padded);
    }
    unpadded_subidentifier(octets, limit)
}

/// The first subidentifier of valid arcs, and the other arcs.
#[inline(always)]
fn split_arcs(arcs: &[u32]) -> Option<(u64, &[u32])>
    requires { IsTrue (is_valid arcs.now) }
    ensures octets { IfSome result (λ p. identifier_octets arcs.now ≡ contents p.0 p.1.now) }
    ensures first { IfSome result (λ p. p.0 < 2 ^ 32 + 80) }
    ensures identifier { IfSome result (λ _. IsTrue (is_identifier arcs.now)) }
    ensures several { IfSome result (λ _. 2 ≤ length arcs.now) }
    ensures none { IfNone result (length arcs.now ≡ 1) }
{
    if arcs.len() < 2 {
        return None;
    }
    let first = u64::from(arcs[0]) * 40 + u64::from(arcs[1]);
    Some((first, &arcs[2..]))
}

/// The subidentifier of the first two arcs (X.690 8.19.4), and the other arcs, each of which is one subidentifier;
/// none if there is only one arc.
#[inline(always)]
pub fn subidentifiers_of<'a>(identifier: &Oid<'a>) -> Option<(u64, &'a [u32])>
    ensures octets { IfSome result (λ p. identifier_octets identifier.now ≡ contents p.0 p.1.now) }
    ensures first { IfSome result (λ p. p.0 < 2 ^ 32 + 80) }
    ensures identifier { IfSome result (λ _. IsTrue (is_identifier identifier.now)) }
    ensures several { IfSome result (λ _. 2 ≤ length identifier.now) }
    ensures none { IfNone result (length identifier.now ≡ 1) }
{
    split_arcs(identifier.as_slice())
}

/// The number of contents octets of subidentifiers: a first one, and one for each other arc.
#[inline]
pub fn content_count(first: u64, others: &[u32]) -> usize
    requires { first < 2 ^ 35 }
    ensures { result ≡ length (contents first others.now) }
{
    let mut count = group_count(first);
    for arc in others {
        count += group_count(u64::from(*arc));
    }
    count
}

/// Appends a subidentifier for each arc.
fn push_arcs(octets: &mut Vec<u8>, arcs: &[u32]) -> Result<(), AllocError>
    ensures text { OnOk result (octets.new.items ≡ octets.old.items ++ flat_map groups_of_seven arcs.now) }
    ensures kept { OnErr result (Begins octets.old.items octets.new.items) }
{
    for arc in arcs {
        push_groups(octets, u64::from(*arc))?;
    }
    Ok(())
}

/// Appends the contents octets of subidentifiers (X.690 8.19): a first one, and one for each other arc.
///
/// # Errors
///
/// Out of memory.
pub fn push_contents(octets: &mut Vec<u8>, first: u64, others: &[u32]) -> Result<(), AllocError>
    ensures text { OnOk result (octets.new.items ≡ octets.old.items ++ contents first others.now) }
    ensures kept { OnErr result (Begins octets.old.items octets.new.items) }
{
    push_groups(octets, first)?;
    push_arcs(octets, others)?;
    Ok(())
}

/// Appends the arcs of the octets. The last octet has to end a subidentifier.
fn read_arcs(arcs: &mut Vec<u32>, octets: &[u8]) -> Result<(), IdentifierError>
    ensures read { OnOk result (joined arcs.old.items (subidentifiers (2 ^ 32) None octets.now) ≡ Ok arcs.new.items) }
    ensures wrong { IfErr result (λ e. (e ≡ IdentifierError.Memory)
        ⊎ (subidentifiers (2 ^ 32) None octets.now ≡ Err e)) }
{
    let mut rest = octets;
    while !rest.is_empty() {
        let (number, further) = first_subidentifier(rest, LIMIT)?;
        arcs.push(number as u32)?;
        rest = further;
    }
    Ok(())
}

/// The number of octets below 128, which are the last ones of the subidentifiers (X.690 8.19.2).
fn last_octet_count(octets: &[u8]) -> usize
    ensures { result ≤ length octets.now }
{
    let mut count = 0;
    for octet in octets {
        if *octet < 128 {
            count += 1;
        }
    }
    count
}

/// The arcs of contents octets: one more than there are subidentifiers. Allocates once.
fn arcs_from_octets(alloc: Global, octets: &[u8]) -> Result<Vec<u32>, IdentifierError>
    ensures read { IfOk result (λ v. arcs_of octets.now ≡ Ok v.items) }
    ensures wrong { IfErr result (λ e. (e ≡ IdentifierError.Memory) ⊎ (arcs_of octets.now ≡ Err e)) }
{
    if octets.is_empty() {
        return Err(IdentifierError::Truncated);
    }
    let (number, further) = first_subidentifier(octets, FIRST_LIMIT)?;
    let first = if number < 80 { number / 40 } else { 2 };
    let mut arcs = Vec::with_capacity(alloc, last_octet_count(octets) + 1)?;
    arcs.push(first as u32)?;
    arcs.push((number - 40 * first) as u32)?;
    read_arcs(&mut arcs, further)?;
    Ok(arcs)
}

/// The contents octets of an identifier (X.690 8.19). Allocates once. An identifier of one arc has none.
///
/// # Errors
///
/// `Truncated` if the identifier has only one arc, and `Memory` if memory runs out.
pub fn oid_octets(alloc: Global, identifier: &Oid<'_>) -> Result<Vec<u8>, IdentifierError>
    ensures octets { IfOk result (λ v. v.items ≡ identifier_octets identifier.now) }
    ensures reads_back { IfOk result (λ v. arcs_of v.items ≡ Ok identifier.now) }
    ensures identifier { OnOk result (IsTrue (is_identifier identifier.now)) }
    ensures truncated { IsErrOf result IdentifierError.Truncated ↔ (length identifier.now ≡ 1) }
    ensures no_other { IfErr result (λ e. (e ≡ IdentifierError.Memory) ⊎ (e ≡ IdentifierError.Truncated)) }
{
    let Some(parts) = subidentifiers_of(identifier) else {
        return Err(IdentifierError::Truncated);
    };
    let (first, others) = parts;
    let mut octets = Vec::with_capacity(alloc, content_count(first, others))?;
    push_contents(&mut octets, first, others)?;
    Ok(octets)
}

/// The identifier of contents octets (X.690 8.19).
///
/// # Errors
///
/// For the first wrong subidentifier: `Padded` if it begins with 0x80, else `Truncated` if it has no last octet, else
/// `ArcTooLarge` if an arc does not fit 32 bits. `Truncated` for no octets, and `Memory` if memory runs out.
pub fn oid_from_octets(alloc: Global, octets: &[u8]) -> Result<ObjectIdentifier, IdentifierError>
    ensures read { IfOk result (λ o. arcs_of octets.now ≡ Ok o) }
    ensures wrong { IfErr result (λ e. (e ≡ IdentifierError.Memory) ⊎ (arcs_of octets.now ≡ Err e)) }
    ensures written { IfOk result (λ o. identifier_octets o ≡ octets.now) }
    ensures identifier { IfOk result (λ o. IsTrue (is_identifier o)) }
{
    let arcs = arcs_from_octets(alloc, octets)?;
    Ok(ObjectIdentifier::new_unchecked(CowSlice::Owned(arcs)))
}
