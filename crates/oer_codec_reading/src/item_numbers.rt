//! Enumeration values (X.696 11).
ghost use Rattle.std.specs.Prelude.{◌≡◌, ◌||◌, IfOk, IfErr, IfSome, IfNone};
ghost use Rattle.asn1_model.specs.Oer.{item_form};
ghost use Rattle.asn1_values_natives.specs.Octets.{signed_number};
ghost use Rattle.oer_codec_reading.specs.Fronts.{freedoms, Misses, Stands};
ghost use Rattle.oer_codec_reading.specs.Items.{is_longer};

use crate::{Cursor, EncodingRules};
use asn1_schema_errors::DecodeError;
use asn1_values_natives::octets::has_padding;

/// Whether an enumeration value in the long form has more octets than needed: the first is redundant, or the value is
/// in 0 to 127.
fn is_longer_item(octets: &[u8]) -> bool
    ensures { result ≡ is_longer octets.now }
{
    match octets {
        [only] => *only < 128,
        _ => has_padding(octets),
    }
}

/// Reads an enumeration value (X.696 11), and returns its octets in two's complement, borrowed.
///
/// # Errors
///
/// `Incomplete` if the octets end early, `ZeroLengthOfLength` if there are none, and `NotValidCanonicalEncoding` if
/// there are more than needed, in COER.
#[inline(always)]
pub fn read_item<'input>(
    cursor: &mut Cursor<'input>,
    rules: EncodingRules,
) -> Result<&'input [u8], DecodeError>
    ensures ok { IfOk result (λ octets. Stands (freedoms rules) (item_form (signed_number octets.now)) cursor.old
        cursor.new) }
    ensures only { IfErr result (Misses (freedoms rules) item_form cursor.old) }
{
    let ahead = cursor.remaining();
    let first = cursor.take_octet()?;
    if first < 128 {
        return Ok(&ahead[..1]);
    }
    if first == 128 {
        return Err(DecodeError::ZeroLengthOfLength);
    }
    let octets = cursor.take((first - 128) as usize)?;
    if rules.is_coer() && is_longer_item(octets) {
        return Err(DecodeError::NotValidCanonicalEncoding);
    }
    Ok(octets)
}
