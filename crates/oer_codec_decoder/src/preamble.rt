//! The preamble of a SEQUENCE (X.696 16.2).
ghost use Rattle.std.specs.Prelude.{◌≡◌, ◌+◌, ◌*◌, ◌^◌, ◌<◌, ◌≤◌, [], ◌∷◌, ◌++◌, cond, length, IfOk, IfErr};
ghost use Rattle.asn1_values_bits.specs.BitStr.{bits_of};
ghost use Rattle.oer_codec_decoder.specs.Preamble.{HasBits, HasPreamble};
ghost use Rattle.oer_codec_decoder.specs.Scopes.{scope_of};

use crate::frames::Frame;
use asn1_schema_errors::DecodeError;
use asn1_values_bits::BitStr;
use oer_codec_reading::{Cursor, are_zero, take_bit};
use oer_codec_writing::preamble_len;

/// Takes the extension bit, if there is one, and the presence bits.
#[inline(always)]
fn take_presence<'input>(
    bits: &mut BitStr<'input>,
    extensible: bool,
    optional: usize,
) -> Frame<'input>
    requires { cond extensible 1 0 + optional ≤ length (bits_of bits.old) }
    ensures { HasBits extensible optional (scope_of result) (bits_of bits.old) (bits_of bits.new) }
{
    let extension_bit = if extensible { take_bit(bits) } else { None };
    let (presence, unused) = bits.split_at(optional);
    *bits = unused;
    Frame::Components(extension_bit, presence)
}

/// Reads the preamble of a SEQUENCE with or without an extension marker, `optional` of whose components may be absent:
/// the extension bit, if there is one, the presence bits, and unused bits of zero.
///
/// # Errors
///
/// `Incomplete` if the octets end early, and `InvalidPreamble` if an unused bit is set.
#[inline(always)]
pub(crate) fn read_preamble<'input>(
    cursor: &mut Cursor<'input>,
    extensible: bool,
    optional: usize,
) -> Result<Frame<'input>, DecodeError>
    ensures ok { IfOk result (λ frame. HasPreamble extensible optional (scope_of frame) cursor.old cursor.new) }
    ensures only { IfErr result (λ _. (s : _) (rest : _) → HasPreamble extensible optional s cursor.old rest → ⊥) }
    ensures fresh { IfErr result (λ e. e ≡ DecodeError.AlreadyFailed → ⊥) }
{
    let count = preamble_len(extensible, optional);
    if count > cursor.len() {
        return Err(DecodeError::Incomplete);
    }
    let octets = cursor.take(count)?;
    let mut bits = BitStr::from_slice(octets);
    let frame = take_presence(&mut bits, extensible, optional);
    if !are_zero(bits) {
        return Err(DecodeError::InvalidPreamble);
    }
    Ok(frame)
}
