//! `Relay::feed`.
use crate::messages::target_of;
use crate::parcel::{Parcel, parcels};
use crate::trial::{Outcome, Trial};
use asn1_relay_core::{Codec, Relay, RelayFault, RelayFaultKind};
use std::alloc::{AllocError, Global};

/// `Relay::feed` of two messages, from one set of rules.
#[derive(Drop)]
pub struct Feeds {
    codec: Codec,
    relay: Relay<Parcel>,
    out: Vec<u8>,
    stopped_at: u64,
}

impl Feeds {
    /// Whether the output is this many messages, and nothing else.
    fn has_written(&self, count: usize) -> bool {
        self.out.as_slice() == parcels(target_of(self.codec), count)
    }

    /// Whether everything is relayed, and the stream may end there.
    fn is_done(&self) -> bool {
        self.has_written(2)
            && !self.relay.has_failed()
            && self.relay.unread_len() == 0
            && self.relay.finish() == Ok(())
    }

    /// What the relay reports once it has stopped.
    fn stopped(&self) -> Result<(), RelayFault> {
        Err(RelayFault {
            number: self.stopped_at,
            kind: RelayFaultKind::AlreadyFailed,
        })
    }

    /// Whether the relay has stopped at a message, with the translations of all messages before it in the output.
    fn has_stopped(&self) -> bool {
        let is_written = match self.stopped_at {
            0 => self.has_written(0),
            1 => self.has_written(1),
            _ => false,
        };
        is_written && self.relay.has_failed() && self.relay.finish() == self.stopped()
    }
}

impl Trial for Feeds {
    type Plan = Codec;

    fn begin(alloc: Global, plan: Codec) -> Result<Feeds, AllocError> {
        Ok(Feeds {
            codec: plan,
            relay: Relay::new(alloc, plan, target_of(plan), 19),
            out: Vec::new(alloc),
            stopped_at: 0,
        })
    }

    fn call(&mut self) -> Outcome {
        match self.relay.feed(parcels(self.codec, 2), &mut self.out) {
            Ok(()) => Outcome::of(self.is_done()),
            Err(fault) => {
                self.stopped_at = fault.number;
                Outcome::of_want(fault.kind == RelayFaultKind::Memory && self.has_stopped())
            }
        }
    }

    fn again(&mut self) -> bool {
        let stopped = self.stopped();
        self.relay.feed(&[], &mut self.out) == stopped
            && self.relay.feed(parcels(self.codec, 2), &mut self.out) == stopped
            && self.has_stopped()
    }
}
