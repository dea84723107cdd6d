//! Errors of the translation of a stream.
use thiserror::Error;

/// Why a relay stops.
#[derive(Clone, Copy, Debug, PartialEq, Eq, Error)]
pub enum RelayFaultKind {
    /// More octets are unread than the limit for one message, and they do not begin with a message within the limit.
    #[error("none within the limit")]
    NoneWithinLimit,
    /// A message, or its translation, has no octets.
    #[error("empty message")]
    EmptyMessage,
    /// The value of a message has no encoding in the target rules.
    #[error("no target encoding")]
    NoTarget,
    /// Memory ran out.
    #[error("out of memory")]
    Memory,
    /// The stream ended, but the unread octets do not begin with a whole message.
    #[error("no form")]
    NoForm,
    /// An earlier call had already stopped the relay, at the message with this number.
    #[error("stopped before")]
    AlreadyFailed,
}

/// Why a relay stops, and at which message.
#[derive(Clone, Copy, Debug, PartialEq, Eq, Error)]
#[error("message {number}: {kind}")]
pub struct RelayFault {
    /// The number of the message, counted from 0. It saturates at the maximum of `u64`.
    pub number: u64,
    /// Why the relay stops there.
    pub kind: RelayFaultKind,
}
