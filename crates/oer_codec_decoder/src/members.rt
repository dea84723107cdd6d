//! The number of elements of a list (X.696 17).
ghost use Rattle.std.specs.Prelude.{IfOk, IfErr};
ghost use Rattle.asn1_schema_constraints.specs.Bounds.{members_of};
ghost use Rattle.oer_codec_reading.specs.Fronts.{freedoms};
ghost use Rattle.oer_codec_decoder.specs.Members.{HasMembers, NoMembers};
ghost use Rattle.oer_codec_decoder.specs.Scopes.{scope_of};

use crate::frames::Frame;
use asn1_schema_constraints::Bounded;
use asn1_schema_decode::most_members;
use asn1_schema_errors::DecodeError;
use oer_codec_reading::numbers::read_count;
use oer_codec_reading::{Cursor, EncodingRules};

/// Reads the number of elements of a list; `held` bounds the number that the user-defined type can hold.
///
/// # Errors
///
/// `SizeConstraintNotSatisfied` if the user-defined type cannot hold that many, and the errors of a number and
/// its length.
#[inline(always)]
pub(crate) fn read_members<'input>(
    cursor: &mut Cursor<'input>,
    rules: EncodingRules,
    held: Bounded<usize>,
) -> Result<Frame<'input>, DecodeError>
    ensures ok { IfOk result (λ frame. HasMembers (freedoms rules) (members_of held) (scope_of frame) cursor.old
        cursor.new) }
    ensures only { IfErr result (NoMembers (freedoms rules) (members_of held) cursor.old) }
{
    let most = most_members(held);
    let count = read_count(cursor, rules)?;
    if count < held.minimum() || count > most {
        return Err(DecodeError::SizeConstraintNotSatisfied);
    }
    Ok(Frame::Members(count))
}
