//! `route`.
use crate::trial::{Outcome, Trial};
use asn1_relay_core::{Codec, Hop, RouteFault, RouteFaultKind, Version, route};
use asn1_relay_types::{New, Old};
use std::alloc::{AllocError, Global};

/// `route` of {a TRUE, b 7} over three hops; the second does not know b.
#[derive(Drop)]
pub struct Routes {
    alloc: Global,
}

/// The hops.
const HOPS: [Hop; 3] = [
    Hop {
        version: Version::New,
        to: Codec::Coer,
    },
    Hop {
        version: Version::Old,
        to: Codec::Uper,
    },
    Hop {
        version: Version::New,
        to: Codec::Coer,
    },
];

/// The outcome of a route.
fn arrived(answer: &Result<Vec<u8>, RouteFault>) -> Outcome {
    match answer {
        Ok(octets) => Outcome::of(octets.as_slice() == [0x00, 0xFF].as_slice()),
        Err(fault) => {
            Outcome::of_want(fault.kind == RouteFaultKind::Memory && fault.hop < HOPS.len())
        }
    }
}

impl Trial for Routes {
    type Plan = ();

    fn begin(alloc: Global, _plan: ()) -> Result<Routes, AllocError> {
        Ok(Routes { alloc })
    }

    fn call(&mut self) -> Outcome {
        let input = [0xC0, 0x40, 0x41, 0xC0];
        arrived(&route::<Old, New>(self.alloc, &HOPS, Codec::Uper, &input))
    }

    fn again(&mut self) -> bool {
        self.call() == Outcome::Ample
    }
}
