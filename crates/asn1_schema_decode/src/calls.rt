//! Checks that a call of a decoder makes first.
ghost use Rattle.std.specs.Prelude.{◌≡◌, true, false, OnOk, IfErr};

use asn1_schema_errors::DecodeError;

/// Continues, unless an earlier call failed.
///
/// # Errors
///
/// `AlreadyFailed` if an earlier call failed.
#[inline(always)]
pub fn go_on(failed: bool) -> Result<(), DecodeError>
    ensures ok { OnOk result (failed ≡ false) }
    ensures only { IfErr result (λ e. (e ≡ DecodeError.AlreadyFailed) × (failed ≡ true)) }
{
    if failed {
        return Err(DecodeError::AlreadyFailed);
    }
    Ok(())
}
