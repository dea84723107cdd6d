//! Calls that take memory, with no memory or little memory available.
use crate::full::memory::take_all_but;
use asn1_relay_core::Codec;
use asn1_relay_trials::{
    Appends, Decodes, Encodes, EncodesInto, Feeds, Inserts, Nexts, Outcome, ReadsFields, Recodes,
    RecodesInto, Routes, Runs, Trial, WritesFields, WritesIdentifier, is_ample,
};
use oer_codec::CoerFront;
use per_codec::UperFront;
use std::alloc::{AllocError, Global};

/// How many octets are left free, in successive attempts, until all requests of a call are granted.
const ROOMS: [usize; 20] = [
    0, 24, 48, 96, 144, 208, 304, 448, 672, 1008, 1520, 2288, 3440, 5168, 7760, 11648, 17472,
    26208, 39312, 58976,
];

/// The outcome of a call while all memory but `room` octets is taken.
fn starved<T: Trial>(alloc: Global, trial: &mut T, room: usize) -> Outcome {
    match take_all_but(alloc, room) {
        Ok(_taken) => trial.call(),
        Err(AllocError) => Outcome::Wrong,
    }
}

/// The same; a call that ran out of memory must be right once repeated.
fn tried<T: Trial>(alloc: Global, trial: &mut T, room: usize) -> Outcome {
    match starved(alloc, trial, room) {
        Outcome::Wanting => {
            if trial.again() {
                Outcome::Wanting
            } else {
                Outcome::Wrong
            }
        }
        outcome => outcome,
    }
}

/// The same for a new call.
fn outcome_within<T: Trial>(alloc: Global, plan: T::Plan, room: usize) -> Outcome {
    match T::begin(alloc, plan) {
        Ok(mut trial) => tried(alloc, &mut trial, room),
        Err(AllocError) => Outcome::Wrong,
    }
}

/// Whether a call runs out of memory when there is none, and each time there is too little, until its result is that
/// with enough memory. It is made with enough memory first, so that the stack has grown.
fn is_right<T: Trial>(alloc: Global, plan: T::Plan) -> bool {
    let mut refusals = 0u32;
    if !is_ample::<T>(alloc, plan) {
        return false;
    }
    for room in ROOMS {
        match outcome_within::<T>(alloc, plan, room) {
            Outcome::Ample => return refusals > 0,
            Outcome::Wanting => refusals = refusals.saturating_add(1),
            Outcome::Wrong => return false,
        }
    }
    false
}

#[test]
fn encode(rt: HostRuntime) {
    assert!(rt; is_right::<Encodes>(rt.alloc(), Codec::Uper));
    assert!(rt; is_right::<Encodes>(rt.alloc(), Codec::Coer));
}

#[test]
fn encode_buf(rt: HostRuntime) {
    assert!(rt; is_right::<EncodesInto>(rt.alloc(), Codec::Uper));
    assert!(rt; is_right::<EncodesInto>(rt.alloc(), Codec::Coer));
}

#[test]
fn decode(rt: HostRuntime) {
    assert!(rt; is_right::<Decodes>(rt.alloc(), Codec::Uper));
    assert!(rt; is_right::<Decodes>(rt.alloc(), Codec::Coer));
}

#[test]
fn recode(rt: HostRuntime) {
    assert!(rt; is_right::<Recodes>(rt.alloc(), Codec::Uper));
    assert!(rt; is_right::<Recodes>(rt.alloc(), Codec::Coer));
}

#[test]
fn recode_into(rt: HostRuntime) {
    assert!(rt; is_right::<RecodesInto>(rt.alloc(), Codec::Uper));
    assert!(rt; is_right::<RecodesInto>(rt.alloc(), Codec::Coer));
}

#[test]
fn feed(rt: HostRuntime) {
    assert!(rt; is_right::<Feeds>(rt.alloc(), Codec::Uper));
    assert!(rt; is_right::<Feeds>(rt.alloc(), Codec::Coer));
}

#[test]
fn next(rt: HostRuntime) {
    assert!(rt; is_right::<Nexts<UperFront>>(rt.alloc(), ()));
    assert!(rt; is_right::<Nexts<CoerFront>>(rt.alloc(), ()));
}

#[test]
fn append_bytes(rt: HostRuntime) {
    assert!(rt; is_right::<Appends>(rt.alloc(), ()));
}

#[test]
fn route(rt: HostRuntime) {
    assert!(rt; is_right::<Routes>(rt.alloc(), ()));
}

#[test]
fn run(rt: HostRuntime) {
    assert!(rt; is_right::<Runs>(rt.alloc(), ()));
}

#[test]
fn write_fields(rt: HostRuntime) {
    assert!(rt; is_right::<WritesFields>(rt.alloc(), ()));
}

#[test]
fn read_fields(rt: HostRuntime) {
    assert!(rt; is_right::<ReadsFields>(rt.alloc(), ()));
}

#[test]
fn set_of_insert(rt: HostRuntime) {
    assert!(rt; is_right::<Inserts>(rt.alloc(), ()));
}

#[test]
fn oid_octets(rt: HostRuntime) {
    assert!(rt; is_right::<WritesIdentifier>(rt.alloc(), ()));
}
