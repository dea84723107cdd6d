//! The ends of scopes.
ghost use Rattle.std.specs.Prelude.{◌≡◌, ◌∷◌, true, false, OnOk, IfErr};
ghost use Rattle.oer_codec_laws.specs.Takes.{Ends, added};
ghost use Rattle.oer_codec_reading.specs.Fronts.{freedoms};
ghost use Rattle.oer_codec_decoder.specs.Refusals.{NotFinished};
ghost use Rattle.oer_codec_decoder.specs.Scopes.{own_presence, scope_of, unknown_presence};

use crate::additions::Additions;
use crate::frames::Frame;
use asn1_schema_errors::DecodeError;
use oer_codec_reading::{Cursor, EncodingRules, leave_open_type, skip_additions};

/// Continues if nothing is still to come.
#[inline(always)]
fn at_end(is_at_end: bool) -> Result<(), DecodeError>
    ensures ok { OnOk result (is_at_end ≡ true) }
    ensures only { IfErr result (λ _. is_at_end ≡ false) }
    ensures fresh { IfErr result (λ e. e ≡ DecodeError.AlreadyFailed → ⊥) }
{
    if is_at_end {
        return Ok(());
    }
    Err(DecodeError::NotValidCanonicalEncoding)
}

/// Skips the unknown additions of a SEQUENCE, if none of the type's additions is still to come.
#[inline(never)]
fn finish_additions<'input>(
    additions: Additions<'input>,
    cursor: &mut Cursor<'input>,
    rules: EncodingRules,
) -> Result<(), DecodeError>
    ensures ok { OnOk result ((k : _) → Ends (freedoms rules) cursor.old
        (added (own_presence additions.entry) (unknown_presence additions.entry) ∷ k) (cursor.new, k)) }
    ensures only { IfErr result (NotFinished (freedoms rules)
        (added (own_presence additions.entry) (unknown_presence additions.entry)) cursor.old) }
{
    if additions.left > 0 {
        return Err(DecodeError::NotValidCanonicalEncoding);
    }
    skip_additions(cursor, rules, additions.bitmap)?;
    Ok(())
}

/// Ends a scope, if nothing of it is still to come.
///
/// # Errors
///
/// `SurplusOctets` if octets are left in an open type under the canonical rules, the errors of unknown additions that
/// are skipped, and `NotValidCanonicalEncoding` if the calls do not have the order of the records.
#[inline(always)]
pub(crate) fn finish<'input>(
    frame: Frame<'input>,
    cursor: &mut Cursor<'input>,
    rules: EncodingRules,
) -> Result<(), DecodeError>
    ensures ok { OnOk result ((k : _) → Ends (freedoms rules) cursor.old (scope_of frame.entry ∷ k) (cursor.new, k)) }
    ensures only { IfErr result (NotFinished (freedoms rules) (scope_of frame.entry) cursor.old) }
{
    match frame {
        Frame::Components(None, presence) => at_end(presence.is_empty())?,
        Frame::Components(Some(_), _) => return Err(DecodeError::NotValidCanonicalEncoding),
        Frame::Added(additions) => finish_additions(additions, cursor, rules)?,
        Frame::OpenType(behind) => leave_open_type(cursor, rules, behind)?,
        Frame::Members(due) => at_end(due == 0)?,
        Frame::Alternative => {}
    }
    Ok(())
}
