//! Numbers in octets after a length determinant (X.691 11.7 and 11.8).
ghost use Rattle.asn1_model.specs.Schema.{wide_range};
ghost use Rattle.std.specs.Prelude.{◌<◌, ◌≡◌, ◌||◌, not, is_some, length, IfOk, IfErr, IfSome, pos};
ghost use Rattle.asn1_model.specs.Numbers.{is_within};
ghost use Rattle.asn1_model.specs.Per as Per;
ghost use Rattle.asn1_values_natives.specs.Octets.{signed_number, unsigned_number};
ghost use Rattle.per_codec_laws.specs.Takes.{Front};
ghost use Rattle.per_codec_reading.specs.Fronts as fronts;
ghost use Rattle.per_codec_reading.specs.Fronts.{freedoms, Misses};
ghost use Rattle.per_codec_reading.specs.Octets.{octets_of};
ghost use Rattle.per_codec_reading_values.specs.Integers.{has_spare, in_128_bits, number_octets, offset_form};
ghost use Rattle.per_codec_reading_values.specs.Integers.{is_offset};

use asn1_schema_errors::DecodeError;
use asn1_values_natives::Wide;
use asn1_values_natives::octets::has_padding;
use per_codec_reading::{Cursor, InputOctets, PackedRules, read_counted_octets};
use std::alloc::Global;

/// Whether the first octet of a number is redundant (X.691 11.7 and 11.8).
#[inline(always)]
fn has_spare_octet(signed: bool, octets: &[u8]) -> bool
    ensures { result ≡ has_spare signed octets.now }
{
    if signed {
        return has_padding(octets);
    }
    match octets {
        [] | [_] => false,
        [first, _, ..] => *first == 0x00,
    }
}

/// Whether a number in these octets is accepted: in strict rules only if its first octet is not redundant.
#[inline(always)]
fn is_accepted(rules: PackedRules, signed: bool, octets: &[u8]) -> bool
    ensures { result ≡ (freedoms rules Per.longer_number || not (has_spare signed octets.now)) }
{
    !rules.is_strict() || !has_spare_octet(signed, octets)
}

/// Reads the octets of a number, signed or unsigned, after a length determinant: at least one, and in strict rules no
/// more than needed (X.691 11.7 and 11.8).
///
/// # Errors
///
/// `ZeroLengthOfLength` if there are none, `NotValidCanonicalEncoding` if the first one is redundant, in strict rules,
/// and the errors of [`read_counted_octets`].
#[inline(always)]
pub fn read_number_octets<'input>(
    alloc: Global,
    cursor: &mut Cursor<'input>,
    rules: PackedRules,
    signed: bool,
) -> Result<InputOctets<'input>, DecodeError>
    ensures ok { IfOk result (λ octets. Front (freedoms rules)
        (number_octets (freedoms rules Per.longer_number) signed (fronts.is_aligned rules) (octets_of octets))
        cursor.old cursor.new) }
    ensures some { IfOk result (λ octets. 0 < length (octets_of octets)) }
    ensures only { IfErr result (Misses (freedoms rules)
        (number_octets (freedoms rules Per.longer_number) signed (fronts.is_aligned rules)) cursor.old) }
{
    let octets = read_counted_octets(alloc, cursor, rules)?;
    if octets.as_slice().is_empty() {
        return Err(DecodeError::ZeroLengthOfLength);
    }
    if !is_accepted(rules, signed, octets.as_slice()) {
        return Err(DecodeError::NotValidCanonicalEncoding);
    }
    Ok(octets)
}

/// The number in octets of two's complement, if it fits in 128 bits.
fn whole_number(octets: &[u8]) -> Option<i128>
    ensures value { IfSome result (λ z. z ≡ signed_number octets.now) }
    ensures fits { is_some result ≡ is_within wide_range (signed_number octets.now) }
{
    Wide::from_signed_octets(octets)?.to_whole(i128::MAX)
}

/// The number in octets, unsigned, if it fits in 128 bits.
fn natural_number(octets: &[u8]) -> Option<u128>
    ensures value { IfSome result (λ n. n ≡ unsigned_number octets.now) }
    ensures fits { is_some result ≡ is_offset (unsigned_number octets.now) }
{
    Wide::from_unsigned_octets(octets)?.to_natural(u128::MAX)
}

/// Reads an unconstrained whole number (X.691 11.8) of 128 bits.
///
/// # Errors
///
/// Those of [`read_number_octets`], and `ValueConstraintNotSatisfied` if it does not fit in 128 bits of two's
/// complement.
pub fn read_unconstrained(
    alloc: Global,
    cursor: &mut Cursor<'_>,
    rules: PackedRules,
) -> Result<i128, DecodeError>
    ensures ok { IfOk result (λ number. Front (freedoms rules)
        (in_128_bits (Per.unconstrained (fronts.is_aligned rules)) number) cursor.old cursor.new) }
    ensures only { IfErr result (Misses (freedoms rules)
        (in_128_bits (Per.unconstrained (fronts.is_aligned rules))) cursor.old) }
{
    let octets = read_number_octets(alloc, cursor, rules, true)?;
    match whole_number(octets.as_slice()) {
        Some(number) => Ok(number),
        None => Err(DecodeError::ValueConstraintNotSatisfied),
    }
}

/// Reads the offset of a semi-constrained whole number from its lower bound (X.691 11.7), if it fits in 128 bits.
///
/// # Errors
///
/// Those of [`read_number_octets`], and `ValueConstraintNotSatisfied` if it does not fit in 128 bits.
pub fn read_semi_constrained(
    alloc: Global,
    cursor: &mut Cursor<'_>,
    rules: PackedRules,
) -> Result<u128, DecodeError>
    ensures ok { IfOk result (λ above. Front (freedoms rules)
        (offset_form (fronts.is_aligned rules) above) cursor.old cursor.new) }
    ensures only { IfErr result (Misses (freedoms rules) (offset_form (fronts.is_aligned rules)) cursor.old) }
{
    let octets = read_number_octets(alloc, cursor, rules, false)?;
    match natural_number(octets.as_slice()) {
        Some(above) => Ok(above),
        None => Err(DecodeError::ValueConstraintNotSatisfied),
    }
}
