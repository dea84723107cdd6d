//! The message with which the unread octets begin.
ghost use Rattle.std.specs.Prelude.{◌≡◌, ◌≢◌, [], IfErr, OnOk};
ghost use Rattle.asn1_relay_core.specs.Coding.{rules_of};
ghost use Rattle.asn1_relay_core.specs.Attempts.{AddsNothing, AddsText, Tries, unread_front};

use crate::fault::RelayFaultKind;
use crate::message_type::MessageType;
use crate::{Codec, DecodeError, EncodeError};
use std::alloc::Global;

/// Result of an attempt to translate the message with which the unread octets begin.
#[derive(Clone, Copy, Debug, PartialEq, Eq)]
pub enum Attempt {
    /// It had this many octets, and its translation was written.
    Relayed(usize),
    /// They do not begin with a whole message while there are fewer than this many unread octets in total.
    Waits(usize),
    /// The relay stops there.
    Stops(RelayFaultKind),
}

/// How a stream is translated.
#[derive(Clone, Copy, Debug)]
pub struct Way {
    /// The encoding rules of the input.
    pub from: Codec,
    /// The encoding rules of the output.
    pub to: Codec,
    /// The maximum length of a message, in octets.
    pub limit: usize,
}

/// Translates the message with which `unread` begins, at most `way.limit` octets of it, and appends the translation to
/// `out`, by way of `room`.
pub fn relay_front<M: MessageType>(
    alloc: Global,
    message_type: &M,
    way: Way,
    unread: &[u8],
    room: &mut Vec<u8>,
    out: &mut Vec<u8>,
) -> Attempt
    requires { unread.now ≢ [] }
    ensures { Tries (rules_of way.from) (rules_of way.to) (M.schema message_type.now 128) way.limit unread.now
        out.old.items out.new.items result }
{
    let window = &unread[..way.limit.min(unread.len())];
    let (value, rest) = match message_type.read_front(alloc, way.from, window) {
        Ok(front) => front,
        Err(refusal) => {
            let number = unread.len().saturating_add(refusal.needed);
            return without_message(refusal.error, number, unread.len() > way.limit);
        }
    };
    let count = window.len() - rest.len();
    if count == 0 {
        return Attempt::Stops(RelayFaultKind::EmptyMessage);
    }
    match write(alloc, message_type, way.to, &value, room, out) {
        Ok(()) => Attempt::Relayed(count),
        Err(kind) => Attempt::Stops(kind),
    }
}

/// The result for unread octets that do not begin with a message, if they need `number` octets in total before they
/// may, and may already exceed the limit for one message.
fn without_message(error: DecodeError, number: usize, is_past_limit: bool) -> Attempt
    ensures { result ≡ unread_front error number is_past_limit }
{
    match error {
        DecodeError::OutOfMemory => Attempt::Stops(RelayFaultKind::Memory),
        _ if is_past_limit => Attempt::Stops(RelayFaultKind::NoneWithinLimit),
        _ => Attempt::Waits(number),
    }
}

/// Appends the canonical encoding of a value to `out`, unless it is empty.
fn write<M: MessageType>(
    alloc: Global,
    message_type: &M,
    to: Codec,
    value: &M::Value,
    room: &mut Vec<u8>,
    out: &mut Vec<u8>,
) -> Result<(), RelayFaultKind>
    ensures ok { OnOk result (AddsText (rules_of to) (M.schema message_type.now) (M.means message_type.now value.now)
        out.old.items out.new.items) }
    ensures only { IfErr result (AddsNothing (rules_of to) (M.schema message_type.now)
        (M.means message_type.now value.now) out.old.items out.new.items) }
{
    let before = out.len();
    match message_type.write_into(alloc, to, value, room, out) {
        Ok(()) if out.len() == before => Err(RelayFaultKind::EmptyMessage),
        Ok(()) => Ok(()),
        Err(EncodeError::OutOfMemory) => Err(RelayFaultKind::Memory),
        Err(_) => Err(RelayFaultKind::NoTarget),
    }
}
