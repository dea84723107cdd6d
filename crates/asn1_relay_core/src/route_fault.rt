//! Why a message does not arrive.
use crate::{DecodeError, EncodeError, RecodeFault};
use thiserror::Error;

/// Why a hop rejects a message.
#[derive(Clone, Copy, Debug, PartialEq, Eq, Error)]
pub enum RouteFaultKind {
    /// No prefix of the octets is an encoding, in the hop's version, of a value with at most 128 nested levels.
    #[error("not an encoding: {0}")]
    Read(DecodeError),
    /// Octets follow the encoding.
    #[error("surplus octets")]
    Surplus,
    /// The value has no encoding in the rules by which the hop encodes.
    #[error("no target encoding: {0}")]
    NoTarget(EncodeError),
    /// Memory ran out.
    #[error("out of memory")]
    Memory,
}

/// Why a message does not arrive, and at which hop.
#[derive(Clone, Copy, Debug, PartialEq, Eq, Error)]
#[error("hop {hop}: {kind}")]
pub struct RouteFault {
    /// The index of the hop in the route, counted from 0.
    pub hop: usize,
    /// Why it rejects the message.
    pub kind: RouteFaultKind,
}

/// The error of a hop whose translation failed.
impl From<RecodeFault> for RouteFaultKind {
    ghost use Rattle.std.specs.Prelude.{◌≡◌};
    ghost use Rattle.asn1_relay_core.specs.Routing.{kind_of_fault};

    ghost from_gives = { λ e k. k ≡ kind_of_fault e };

    fn from(fault: RecodeFault) -> RouteFaultKind {
        match fault {
            RecodeFault::NotAnEncoding(error) => RouteFaultKind::Read(error),
            RecodeFault::Surplus => RouteFaultKind::Surplus,
            RecodeFault::NoTarget(error) => RouteFaultKind::NoTarget(error),
            RecodeFault::Memory => RouteFaultKind::Memory,
        }
    }
}
