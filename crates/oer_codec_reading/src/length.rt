//! Length determinants, and octets after a length determinant (X.696 8.6).
ghost use Rattle.std.specs.Prelude.{◌≡◌, ◌+◌, ◌^◌, ◌≤◌, ◌<◌, ◌==◌, ◌&&◌, ◌||◌, ◌∷◌, leb, IfOk, IfErr, IfSome, IfNone};
ghost use Rattle.asn1_model.specs.Numbers as Numbers;
ghost use Rattle.asn1_model.specs.Oer.{counted, length_form};
ghost use Rattle.asn1_values_natives.specs.Octets.{unsigned_number};
ghost use Rattle.oer_codec_reading.specs.Fronts.{freedoms, is_basic, Misses, Stands};

use crate::magnitudes::short_magnitude;
use crate::{Cursor, EncodingRules};
use asn1_schema_errors::DecodeError;
use asn1_values_natives::Wide;
use asn1_values_natives::octets::octet_width;

/// Whether a length in the long form with `count` octets is accepted: in COER only if they are the fewest (X.696
/// 8.6.5).
#[inline(always)]
fn is_taken(rules: EncodingRules, length: usize, count: usize) -> bool
    ensures { result ≡ (is_basic rules || (leb 128 length && (Numbers.octet_width length == count))) }
{
    rules.is_oer() || length >= 0x80 && octet_width(length as u128) == count
}

/// The unsigned number in octets, most significant first, if it fits in 64 bits.
#[inline(always)]
pub fn number_of(octets: &[u8]) -> Option<usize>
    ensures number { IfSome result (λ n. n ≡ unsigned_number octets.now) }
    ensures fits { IfSome result (λ n. n < 2 ^ 64) }
    ensures none { IfNone result (2 ^ 64 ≤ unsigned_number octets.now) }
{
    if octets.len() <= 8 {
        return Some(short_magnitude(false, octets) as usize);
    }
    let wide = Wide::from_unsigned_octets(octets)?;
    let number = wide.to_natural(usize::MAX as u128)?;
    Some(number as usize)
}

/// Reads the `count` octets of a long-form length determinant, after its first octet (X.696 8.6.5).
#[inline(never)]
fn read_long_length(
    cursor: &mut Cursor<'_>,
    rules: EncodingRules,
    count: usize,
) -> Result<usize, DecodeError>
    requires some { 1 ≤ count }
    requires most { count ≤ 127 }
    ensures ok { IfOk result (λ n. Stands (freedoms rules) (length_form n) ((128 + count) ∷ cursor.old) cursor.new) }
    ensures only { IfErr result (Misses (freedoms rules) length_form ((128 + count) ∷ cursor.old)) }
{
    let octets = cursor.take(count)?;
    let Some(length) = number_of(octets) else {
        return Err(DecodeError::LengthExceedsPlatformWidth);
    };
    if !is_taken(rules, length, count) {
        return Err(DecodeError::NotValidCanonicalEncoding);
    }
    Ok(length)
}

/// Calls [`read_long_length`] and moves its result, so that the one-octet path of the caller needs no space for it.
#[inline(always)]
fn read_further_length(
    cursor: &mut Cursor<'_>,
    rules: EncodingRules,
    count: usize,
) -> Result<usize, DecodeError>
    requires some { 1 ≤ count }
    requires most { count ≤ 127 }
    ensures ok { IfOk result (λ n. Stands (freedoms rules) (length_form n) ((128 + count) ∷ cursor.old) cursor.new) }
    ensures only { IfErr result (Misses (freedoms rules) length_form ((128 + count) ∷ cursor.old)) }
{
    let length = read_long_length(cursor, rules, count)?;
    Ok(length)
}

/// Reads a length determinant (X.696 8.6): one octet below 128, or the long form. OER accepts more octets than
/// needed.
///
/// # Errors
///
/// `Incomplete` if the octets end early, `ZeroLengthOfLength` if the long form has no octets,
/// `LengthExceedsPlatformWidth` if the length does not fit in 64 bits, and `NotValidCanonicalEncoding` if a shorter
/// form exists, in COER.
#[inline(always)]
pub fn read_length(cursor: &mut Cursor<'_>, rules: EncodingRules) -> Result<usize, DecodeError>
    ensures ok { IfOk result (λ n. Stands (freedoms rules) (length_form n) cursor.old cursor.new) }
    ensures only { IfErr result (Misses (freedoms rules) length_form cursor.old) }
{
    let octet = cursor.take_octet()?;
    if octet < 0x80 {
        return Ok(octet as usize);
    }
    if octet == 0x80 {
        return Err(DecodeError::ZeroLengthOfLength);
    }
    read_further_length(cursor, rules, (octet - 0x80) as usize)
}

/// Reads a length determinant and the octets that it counts, and returns these borrowed (X.696 8.6 and 14).
///
/// # Errors
///
/// Those of [`read_length`], and `Incomplete` if the octets end early.
#[inline(always)]
pub fn read_counted<'input>(
    cursor: &mut Cursor<'input>,
    rules: EncodingRules,
) -> Result<&'input [u8], DecodeError>
    ensures ok { IfOk result (λ octets. Stands (freedoms rules) (counted octets.now) cursor.old cursor.new) }
    ensures only { IfErr result (Misses (freedoms rules) counted cursor.old) }
{
    let length = read_length(cursor, rules)?;
    let octets = cursor.take(length)?;
    Ok(octets)
}
