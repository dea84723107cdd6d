//! Streams of messages of a Rust type.
ghost use Rattle.std.specs.Prelude.{◌≡◌, ◌↔◌, ◌≤◌, IfErr, IsOk, OnOk, [], false, length};
ghost use Rattle.asn1_relay_core.specs.Relaying.{IsFed, FaultOf, end_fault};

use crate::Codec;
use crate::fault::RelayFault;
use crate::relay::RelayOf;
use crate::rust_type::RustType;
use asn1_schema_decode::Decode;
use asn1_schema_encode::Encode;
use asn1_schema_types::Described;
use std::alloc::Global;
use std::marker::Model;

/// Translates a stream of messages of the type `T`, one after another, which arrives in pieces of any length.
#[derive(Drop)]
pub struct Relay<T: Described> {
    relay: RelayOf<RustType<T>>,
}

impl<T: Described> Model for Relay<T> {
    ghost use Rattle.asn1_relay_core.specs.Relaying.{Relaying};

    ghost Value = { Relaying };

    ghost view = { λ r. r.relay.relaying };
}

impl<T: Encode + Decode> Relay<T> {
    /// A relay that has read nothing. It accepts messages of 1 to `limit` octets by the rules `from`, and writes them
    /// by the rules `to`.
    #[inline(always)]
    pub fn new(alloc: Global, from: Codec, to: Codec, limit: usize) -> Relay<T>
        requires { 1 ≤ limit }
        ensures { result ≡ record { from = from; to = to; limit = limit; unread = []; number = 0; failed = false } }
    {
        Relay {
            relay: RelayOf::new(alloc, RustType::new(), from, to, limit),
        }
    }

    /// The number of unread octets: those after the last message that was translated.
    #[inline(always)]
    pub fn unread_len(&self) -> usize
        ensures { result ≡ length self.now.unread }
    {
        self.relay.unread_len()
    }

    /// Whether a call of `feed` has failed.
    #[inline(always)]
    pub fn has_failed(&self) -> bool
        ensures { result ≡ self.now.failed }
    {
        self.relay.has_failed()
    }

    /// Accepts the next piece of the stream, appends the translation of each message that is then complete to `out`,
    /// one after another, and keeps the unread octets, at most `limit` of them.
    ///
    /// # Errors
    ///
    /// As for `RelayOf::feed`.
    #[inline(always)]
    pub fn feed(&mut self, piece: &[u8], out: &mut Vec<u8>) -> Result<(), RelayFault>
        ensures ok { OnOk result (IsFed (T.schema 128) self.old self.new piece.now out.old.items out.new.items) }
        ensures only { IfErr result (FaultOf (T.schema 128) self.old self.new piece.now out.old.items out.new.items) }
        ensures empty { self.old.failed ≡ false → self.old.unread ≡ [] → piece.now ≡ [] → IsOk result }
    {
        self.relay.feed(piece, out)
    }

    /// Checks that the stream may end here, with no octets unread. It changes nothing.
    ///
    /// # Errors
    ///
    /// `NoForm` if octets are unread, and `AlreadyFailed` if the relay has stopped.
    #[inline(always)]
    pub fn finish(&self) -> Result<(), RelayFault>
        ensures end { IsOk result ↔ ((self.now.failed ≡ false) × (self.now.unread ≡ [])) }
        ensures only { IfErr result (λ fault. fault ≡ end_fault self.now) }
    {
        self.relay.finish()
    }
}
