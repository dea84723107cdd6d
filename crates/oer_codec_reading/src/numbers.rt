//! INTEGER as octets (X.696 10), and quantity fields (X.696 17).
ghost use Rattle.std.specs.Prelude.{◌≡◌, ◌≤◌, ◌<◌, ◌||◌, not, is_some, length, IfOk, IfErr, IfSome};
ghost use Rattle.asn1_model.specs.Oer.{unsigned};
ghost use Rattle.asn1_values_natives.specs.Octets.{own_number};
ghost use Rattle.oer_codec_reading.specs.Fronts.{freedoms, is_basic, Misses, Stands};
ghost use Rattle.oer_codec_reading.specs.Integers.{count_in, has_spare, number_in};

use crate::length::number_of;
use crate::octet_string::read_sized;
use crate::{Cursor, EncodingRules};
use asn1_schema_errors::DecodeError;
use asn1_values_natives::octets::has_padding;

/// Whether the first octet of a number is redundant (X.690 8.3.2).
#[inline(always)]
fn has_spare_octet(signed: bool, octets: &[u8]) -> bool
    ensures { result ≡ has_spare signed octets.now }
{
    if signed {
        return has_padding(octets);
    }
    match octets {
        [] | [_] => false,
        [first, _, ..] => *first == 0x00,
    }
}

/// Whether a number in these octets is accepted: in COER only if none of them is redundant, unless their number is
/// fixed.
#[inline(always)]
fn is_taken(rules: EncodingRules, signed: bool, width: Option<usize>, octets: &[u8]) -> bool
    ensures { result ≡ (is_some width || is_basic rules || not (has_spare signed octets.now)) }
{
    width.is_some() || rules.is_oer() || !has_spare_octet(signed, octets)
}

/// Reads the octets of an INTEGER (X.696 10), signed or unsigned, of a fixed width or after a length determinant, and
/// returns them borrowed.
///
/// # Errors
///
/// `Incomplete` if the octets end early, `ZeroLengthOfLength` if there are none, `NotValidCanonicalEncoding` if the
/// first one is redundant, in COER, and the errors of a length determinant.
#[inline(always)]
pub fn read_number<'input>(
    cursor: &mut Cursor<'input>,
    rules: EncodingRules,
    signed: bool,
    width: Option<usize>,
) -> Result<&'input [u8], DecodeError>
    requires { IfSome width (λ k. 1 ≤ k) }
    ensures ok { IfOk result (λ octets. Stands (freedoms rules)
        (number_in signed width (own_number signed octets.now)) cursor.old cursor.new) }
    ensures some { IfOk result (λ octets. 0 < length octets.now) }
    ensures only { IfErr result (Misses (freedoms rules) (number_in signed width) cursor.old) }
{
    let octets = read_sized(cursor, rules, width)?;
    if octets.is_empty() {
        return Err(DecodeError::ZeroLengthOfLength);
    }
    if !is_taken(rules, signed, width, octets) {
        return Err(DecodeError::NotValidCanonicalEncoding);
    }
    Ok(octets)
}

/// Reads the quantity field of a SEQUENCE OF (X.696 17).
///
/// # Errors
///
/// Those of [`read_number`], and `LengthExceedsPlatformWidth` if the count does not fit in 64 bits.
#[inline]
pub fn read_count(cursor: &mut Cursor<'_>, rules: EncodingRules) -> Result<usize, DecodeError>
    ensures ok { IfOk result (λ n. Stands (freedoms rules) (unsigned n) cursor.old cursor.new) }
    ensures only { IfErr result (Misses (freedoms rules) count_in cursor.old) }
{
    let octets = read_number(cursor, rules, false, None)?;
    match number_of(octets) {
        Some(count) => Ok(count),
        None => Err(DecodeError::LengthExceedsPlatformWidth),
    }
}
