//! Checks that a call of an encoder makes first.
ghost use Rattle.std.specs.Prelude.{◌≡◌, true, false, OnOk, IfErr};

use asn1_schema_errors::EncodeError;

/// Continues, unless an earlier call failed.
///
/// # Errors
///
/// `AlreadyFailed` if an earlier call failed.
#[inline(always)]
pub fn go_on(failed: bool) -> Result<(), EncodeError>
    ensures ok { OnOk result (failed ≡ false) }
    ensures only { IfErr result (λ e. (e ≡ EncodeError.AlreadyFailed) × (failed ≡ true)) }
{
    if failed {
        return Err(EncodeError::AlreadyFailed);
    }
    Ok(())
}

/// Begins a record, unless an earlier call failed. Until the record is written, the encoder counts as failed.
///
/// # Errors
///
/// Those of [`go_on`].
#[inline(always)]
pub fn begin_record(failed: &mut bool) -> Result<(), EncodeError>
    ensures ok { OnOk result (failed.old ≡ false) }
    ensures only { IfErr result (λ e. (e ≡ EncodeError.AlreadyFailed) × (failed.old ≡ true)) }
    ensures failed { failed.new ≡ true }
{
    go_on(*failed)?;
    *failed = true;
    Ok(())
}
