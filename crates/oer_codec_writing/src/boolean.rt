//! BOOLEAN (X.696 9).
ghost use Rattle.std.specs.Prelude.{◌≡◌, MatchResult, OnErr, cond};
ghost use Rattle.asn1_model.specs.Form.{written};
ghost use Rattle.asn1_model.specs.Oer.{form};
ghost use Rattle.asn1_model.specs.Schema.{boolean};
ghost use Rattle.asn1_model.specs.Value.{truth};
ghost use Rattle.asn1_model.specs.Versions.{Begins};
ghost use Rattle.oer_codec_writing.specs.Writing.{Adds};

use asn1_schema_errors::EncodeError;

/// The octet of a BOOLEAN (X.696 9). It is computed without a branch: one on data without a pattern would be
/// mispredicted for every second value.
#[inline(always)]
fn truth_octet(value: bool) -> u8
    ensures { result ≡ cond value 255 0 }
{
    0_u8.wrapping_sub(u8::from(value))
}

/// Adds a BOOLEAN (X.696 9).
///
/// # Errors
///
/// Only `OutOfMemory`.
pub fn push_boolean(octets: &mut Vec<u8>, value: bool) -> Result<(), EncodeError>
    ensures text { MatchResult result (λ _. Adds (written (form boolean (truth value)) 0) octets.old.items
        octets.new.items) (λ e. e ≡ EncodeError.OutOfMemory) }
    ensures kept { OnErr result (Begins octets.old.items octets.new.items) }
{
    octets.push(truth_octet(value))?;
    Ok(())
}
