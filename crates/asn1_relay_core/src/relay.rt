//! Streams of messages without separators, in pieces of any length.
ghost use Rattle.std.specs.Prelude.{◌≡◌, ◌↔◌, ◌≤◌, IfErr, IsOk, OnOk, [], false, true, length};
ghost use Rattle.asn1_relay_core.specs.Relaying.{IsFed, FaultOf, end_fault, starting};

use crate::Codec;
use crate::fault::{RelayFault, RelayFaultKind};
use crate::front::{Attempt, Way, relay_front};
use crate::message_type::{MessageSchema, MessageType};
use bytes::BytesMut;
use std::alloc::Global;
use std::marker::Model;

/// Translates a stream of messages of a type, one after another, which arrives in pieces of any length.
#[derive(Drop)]
pub struct RelayOf<M: MessageSchema> {
    alloc: Global,
    message_type: M,
    way: Way,
    unread: BytesMut,
    // In which translations are written.
    room: Vec<u8>,
    // While there are fewer unread octets than this, they do not begin with a whole message.
    awaited: usize,
    number: u64,
    failed: bool,
}

impl<M: MessageSchema> Model for RelayOf<M> {
    ghost use Rattle.asn1_relay_core.specs.MessageTypes.{RelayingOf};

    ghost Value = { RelayingOf M };

    ghost view = { λ r. record {
      message_type = r.message_type;
      relaying = record {
        from = r.way.from;
        to = r.way.to;
        limit = r.way.limit;
        unread = r.unread.items;
        number = r.number;
        failed = r.failed;
      };
    } };

    ghost use Rattle.std.specs.Prelude.{◌≤◌};
    ghost use Rattle.asn1_relay_core.specs.Coding.{rules_of};
    ghost use Rattle.asn1_relay_core.specs.Attempts.{Awaits};

    ghost invariant = { λ r. (1 ≤ r.way.limit)
        × Awaits (rules_of r.way.from) (M.schema r.message_type 128) r.way.limit r.unread.items r.awaited };
}

impl<M: MessageType> RelayOf<M> {
    /// A relay that has read nothing. It accepts messages of 1 to `limit` octets by the rules `from`, and writes them
    /// by the rules `to`.
    pub fn new(alloc: Global, message_type: M, from: Codec, to: Codec, limit: usize) -> RelayOf<M>
        requires { 1 ≤ limit }
        ensures { result ≡ record { message_type = message_type; relaying = starting from to limit } }
    {
        RelayOf {
            alloc,
            message_type,
            way: Way { from, to, limit },
            unread: BytesMut::new(alloc),
            room: Vec::new(alloc),
            awaited: 0,
            number: 0,
            failed: false,
        }
    }

    /// The number of unread octets: those after the last message that was translated.
    pub fn unread_len(&self) -> usize
        ensures { result ≡ length self.now.relaying.unread }
    {
        self.unread.len()
    }

    /// Whether a call of `feed` has failed.
    pub fn has_failed(&self) -> bool
        ensures { result ≡ self.now.relaying.failed }
    {
        self.failed
    }

    /// Accepts the next piece of the stream, appends the translation of each message that is then complete to `out`,
    /// one after another, and keeps the unread octets, at most `limit` of them.
    ///
    /// # Errors
    ///
    /// * `NoTarget`: the value of a message has no encoding in the target rules.
    /// * `EmptyMessage`: a message, or its translation, has no octets.
    /// * `NoneWithinLimit`: more than `limit` octets are unread, and they do not begin with a message within the limit.
    /// * `Memory`: memory ran out. An empty piece needs no memory if no octets are unread.
    /// * `AlreadyFailed`: an earlier call failed. The number is that of the earlier error.
    ///
    /// The translations of all messages before the one of the error are in `out`.
    pub fn feed(&mut self, piece: &[u8], out: &mut Vec<u8>) -> Result<(), RelayFault>
        ensures ok { OnOk result (IsFed (M.schema self.old.message_type 128) self.old.relaying self.new.relaying
            piece.now out.old.items out.new.items) }
        ensures only { IfErr result (FaultOf (M.schema self.old.message_type 128) self.old.relaying self.new.relaying
            piece.now out.old.items out.new.items) }
        ensures empty { self.old.relaying.failed ≡ false → self.old.relaying.unread ≡ [] → piece.now ≡ []
            → IsOk result }
        ensures same { self.new.message_type ≡ self.old.message_type }
    {
        if self.failed {
            return Err(self.fault(RelayFaultKind::AlreadyFailed));
        }
        if piece.is_empty() && self.unread.is_empty() {
            return Ok(());
        }
        let awaited = self.awaited;
        self.awaited = 0;
        let Ok(()) = self.unread.extend_from_slice(piece) else {
            return Err(self.stop(RelayFaultKind::Memory));
        };
        if self.unread.len() < awaited && self.unread.len() <= self.way.limit {
            self.awaited = awaited;
            return Ok(());
        }
        while !self.unread.is_empty() {
            match relay_front(
                self.alloc,
                &self.message_type,
                self.way,
                self.unread.as_slice(),
                &mut self.room,
                out,
            ) {
                Attempt::Relayed(count) => {
                    self.awaited = 0;
                    self.unread.advance(count);
                    self.number = self.number.saturating_add(1);
                }
                Attempt::Waits(number) => {
                    self.awaited = number;
                    return Ok(());
                }
                Attempt::Stops(kind) => return Err(self.stop(kind)),
            }
        }
        Ok(())
    }

    /// Checks that the stream may end here, with no octets unread. It changes nothing.
    ///
    /// # Errors
    ///
    /// `NoForm` if octets are unread, and `AlreadyFailed` if the relay has stopped.
    pub fn finish(&self) -> Result<(), RelayFault>
        ensures end { IsOk result ↔ ((self.now.relaying.failed ≡ false) × (self.now.relaying.unread ≡ [])) }
        ensures only { IfErr result (λ fault. fault ≡ end_fault self.now.relaying) }
    {
        if self.failed {
            return Err(self.fault(RelayFaultKind::AlreadyFailed));
        }
        if !self.unread.is_empty() {
            return Err(self.fault(RelayFaultKind::NoForm));
        }
        Ok(())
    }

    /// An error of this kind at the current message.
    fn fault(&self, kind: RelayFaultKind) -> RelayFault
        ensures { result ≡ record { number = self.now.relaying.number; kind = kind } }
    {
        RelayFault {
            number: self.number,
            kind,
        }
    }

    /// Stops at the current message.
    fn stop(&mut self, kind: RelayFaultKind) -> RelayFault
        ensures fault { result ≡ record { number = self.old.relaying.number; kind = kind } }
        ensures stops { self.new ≡ record self.old { relaying = record self.old.relaying { failed = true } } }
    {
        self.failed = true;
        self.fault(kind)
    }
}
