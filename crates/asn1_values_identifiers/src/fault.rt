//! Why an identifier cannot be encoded, or octets cannot be decoded.
ghost use Rattle.std.specs.Prelude.{◌≡◌};
ghost use Rattle.asn1_values_identifiers.specs.declared.fault.IdentifierError.TheVariants.{Memory};

use std::alloc::{AllocError, AllocFailed};
use thiserror::Error;

/// Why an identifier has no contents octets, or octets are not the contents octets of an identifier (X.690 8.19).
#[derive(Debug, Clone, Copy, PartialEq, Eq, Hash, Error)]
pub enum IdentifierError {
    /// There is no second arc, or a subidentifier has no last octet.
    #[error("the identifier is truncated")]
    Truncated,
    /// A subidentifier begins with the octet 0x80.
    #[error("a subidentifier is padded")]
    Padded,
    /// An arc does not fit 32 bits.
    #[error("an arc is too large")]
    ArcTooLarge,
    /// An allocation failed.
    #[error("out of memory")]
    Memory,
}

impl From<AllocError> for IdentifierError {
    ghost from_gives = { λ _ e. e ≡ Memory };

    fn from(_refused: AllocError) -> IdentifierError {
        IdentifierError::Memory
    }
}

impl<T: Drop> From<AllocFailed<T>> for IdentifierError {
    ghost from_gives = { λ _ e. e ≡ Memory };

    fn from(_refused: AllocFailed<T>) -> IdentifierError {
        IdentifierError::Memory
    }
}
