//! How an encoder reports an error of a user-defined type.
ghost use Rattle.std.specs.Prelude.{◌≡◌};

use crate::EncodeError;

/// The error that an encoder reports if the type of a value returns `error`. Only `within_limit` reports that an
/// encoding is too long, and no encoder meets a length that does not fit 64 bits; from a type, both become a size
/// constraint error. A call out of place becomes a value constraint error.
pub fn refusal(error: EncodeError) -> EncodeError
    ensures length { error ≡ EncodeError.TooLongValue → result ≡ EncodeError.SizeConstraintNotSatisfied }
    ensures platform { error ≡ EncodeError.LengthExceedsPlatformSize → result ≡ EncodeError.SizeConstraintNotSatisfied }
    ensures place { error ≡ EncodeError.CallOutOfPlace → result ≡ EncodeError.ValueConstraintNotSatisfied }
    ensures others { ¬ (error ≡ EncodeError.TooLongValue) → ¬ (error ≡ EncodeError.LengthExceedsPlatformSize)
        → ¬ (error ≡ EncodeError.CallOutOfPlace) → result ≡ error }
    ensures fresh { ¬ (error ≡ EncodeError.AlreadyFailed) → ¬ (result ≡ EncodeError.AlreadyFailed) }
    ensures fits { ¬ (result ≡ EncodeError.LengthExceedsPlatformSize) }
    ensures in_place { ¬ (result ≡ EncodeError.CallOutOfPlace) }
{
    match error {
        EncodeError::TooLongValue | EncodeError::LengthExceedsPlatformSize => {
            EncodeError::SizeConstraintNotSatisfied
        }
        EncodeError::CallOutOfPlace => EncodeError::ValueConstraintNotSatisfied,
        error => error,
    }
}
