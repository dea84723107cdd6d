//! A relay that knows how many octets it lacks does not read the message again before they have come.
use crate::full::memory::{is_taken, take_memory};
use asn1_relay_core::{Codec, Relay, RelayFault, RelayFaultKind};
use std::alloc::Global;

/// How many octets a message may have.
const LIMIT: usize = 4096;

/// Nine octets of a SEQUENCE OF INTEGER (0..255) in COER, which has this number of elements.
fn first_octets(members: u8) -> [u8; 9] {
    [0x01, members, 1, 2, 3, 4, 5, 6, 7]
}

/// What a relay answers to one octet more with all memory taken, after nine octets of a list of this number of
/// elements.
fn fed_without_memory(alloc: Global, members: u8) -> Option<Result<(), RelayFault>> {
    let mut out = Vec::with_capacity(alloc, LIMIT).ok()?;
    let mut relay = Relay::<Vec<u8>>::new(alloc, Codec::Coer, Codec::Uper, LIMIT);
    let octets = first_octets(members);
    relay.feed(&octets[..5], &mut out).ok()?;
    relay.feed(&octets[5..], &mut out).ok()?;
    let taken = take_memory(alloc).ok()?;
    if !is_taken(alloc) {
        return None;
    }
    let answer = relay.feed(&[8], &mut out);
    drop(taken);
    Some(answer)
}

#[test]
fn a_list_that_lacks_members_is_not_read_again(rt: HostRuntime) {
    assert!(rt; fed_without_memory(rt.alloc(), 100) == Some(Ok(())));
}

#[test]
fn a_list_that_is_whole_needs_memory(rt: HostRuntime) {
    let fault = RelayFault {
        number: 0,
        kind: RelayFaultKind::Memory,
    };
    assert!(rt; fed_without_memory(rt.alloc(), 8) == Some(Err(fault)));
}
