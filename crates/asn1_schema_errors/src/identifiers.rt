//! Errors of object identifiers.
ghost use Rattle.std.specs.Prelude.{◌≡◌};

use crate::DecodeError;
use asn1_values_identifiers::IdentifierError;

/// The decoder's error for octets that are not an object identifier (X.690 8.19), in all rules.
pub fn identifier_fault(error: IdentifierError) -> DecodeError
    ensures memory { error ≡ IdentifierError.Memory → result ≡ DecodeError.OutOfMemory }
    ensures fresh { ¬ (result ≡ DecodeError.AlreadyFailed) }
{
    match error {
        IdentifierError::Memory => DecodeError::OutOfMemory,
        IdentifierError::Truncated | IdentifierError::Padded | IdentifierError::ArcTooLarge => {
            DecodeError::InvalidObjectIdentifier
        }
    }
}
