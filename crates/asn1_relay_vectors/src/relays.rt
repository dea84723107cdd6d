//! The calls of a relay, whichever it is.
use asn1_relay_core::{Relay, RelayFault};
use asn1_relay_vectors_judging::judged::{Step, part};
use asn1_relay_vectors_judging::streams::Relayed;
use asn1_schema_decode::Decode;
use asn1_schema_encode::Encode;
use asn1_table_relay::TableRelay;
use std::alloc::{AllocError, Global};

/// A relay of messages of some type.
pub trait Relaying {
    /// Accepts the next piece of a stream, and appends translations to `out`.
    ///
    /// # Errors
    ///
    /// Why the relay stops.
    fn feed(&mut self, piece: &[u8], out: &mut Vec<u8>) -> Result<(), RelayFault>;

    /// Checks that the stream may end here.
    ///
    /// # Errors
    ///
    /// Why it may not.
    fn finish(&self) -> Result<(), RelayFault>;

    /// Whether a piece was not accepted.
    fn has_failed(&self) -> bool;

    /// The number of unread octets.
    fn unread_len(&self) -> usize;
}

impl<T: Encode + Decode> Relaying for Relay<T> {
    fn feed(&mut self, piece: &[u8], out: &mut Vec<u8>) -> Result<(), RelayFault> {
        self.feed(piece, out)
    }

    fn finish(&self) -> Result<(), RelayFault> {
        self.finish()
    }

    fn has_failed(&self) -> bool {
        self.has_failed()
    }

    fn unread_len(&self) -> usize {
        self.unread_len()
    }
}

impl<'a> Relaying for TableRelay<'a> {
    fn feed(&mut self, piece: &[u8], out: &mut Vec<u8>) -> Result<(), RelayFault> {
        self.feed(piece, out)
    }

    fn finish(&self) -> Result<(), RelayFault> {
        self.finish()
    }

    fn has_failed(&self) -> bool {
        self.has_failed()
    }

    fn unread_len(&self) -> usize {
        self.unread_len()
    }
}

/// Feeds octets to a relay, in pieces that end at these positions.
///
/// # Errors
///
/// Only if memory runs out.
pub fn follow_octets<R: Relaying>(
    alloc: Global,
    relay: &mut R,
    octets: &[u8],
    ends: &[usize],
    out: &mut Vec<u8>,
) -> Result<Vec<Step>, AllocError> {
    let mut steps = Vec::new(alloc);
    let mut begin = 0;
    for end in ends {
        let mut fresh = Vec::new(alloc);
        let fed = relay.feed(part(octets, begin, *end), &mut fresh);
        out.extend_from_slice(fresh.as_slice())?;
        let step = Step {
            fed,
            ended: relay.finish(),
            unread: (!relay.has_failed()).then_some(relay.unread_len()),
            written: out.len(),
        };
        steps.push(step)?;
        begin = *end;
    }
    Ok(steps)
}

/// Feeds the pieces of a stream to a relay, up to its first error, and ends the stream.
pub fn feed_pieces<R: Relaying>(relay: &mut R, pieces: &[&[u8]], out: &mut Vec<u8>) -> Relayed {
    for piece in pieces {
        if let Err(fault) = relay.feed(*piece, out) {
            return Relayed {
                answer: Err(fault),
                fed: relay.feed(&[0], out),
                ended: relay.finish(),
                failed: relay.has_failed(),
            };
        }
    }
    Relayed {
        answer: relay.finish(),
        fed: relay.feed(&[], out),
        ended: relay.finish(),
        failed: relay.has_failed(),
    }
}
