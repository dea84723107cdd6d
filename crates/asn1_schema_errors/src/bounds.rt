//! The greatest length of an encoding.
ghost use Rattle.std.specs.Prelude.{◌≡◌, length, MatchResult, ◌<◌, ◌≤◌, ◌^◌};

use crate::EncodeError;

/// An encoding has fewer octets than this.
const LENGTH_LIMIT: usize = 1 << 60;

/// The greatest number of octets of an encoding.
pub const MOST_OCTETS: usize = LENGTH_LIMIT - 1;

/// The octets, if they are few enough for an encoding.
///
/// # Errors
///
/// `TooLongValue` if there are 2^60 octets or more.
pub fn within_limit(octets: Vec<u8>) -> Result<Vec<u8>, EncodeError>
    ensures { MatchResult result
        (λ kept. (kept.items ≡ octets.items) × (length octets.items < 2 ^ 60))
        (λ e. (e ≡ EncodeError.TooLongValue) × (2 ^ 60 ≤ length octets.items)) }
{
    if octets.len() >= LENGTH_LIMIT {
        return Err(EncodeError::TooLongValue);
    }
    Ok(octets)
}
