//! Constrained whole numbers (X.691 11.5).
ghost use Rattle.std.specs.Prelude.{◌≡◌, ◌+◌, ◌-◌, ◌*◌, ◌≤◌, ◌<◌, ◌^◌, ◌==◌, ◌||◌, ◌⊎◌, true, Bool};
ghost use Rattle.std.specs.Prelude.{IfOk, IfErr, IfSome, IfNone};
ghost use Rattle.asn1_model.specs.Numbers as Numbers;
ghost use Rattle.asn1_model.specs.Per as Per;
ghost use Rattle.per_codec_laws.specs.Takes.{Front};
ghost use Rattle.per_codec_reading.specs.Fronts as fronts;
ghost use Rattle.per_codec_reading.specs.Fronts.{freedoms, Misses};
ghost use Rattle.per_codec_reading.specs.Lengths.{aligned_within, number_within, padded_within};

use crate::padding::{read_padding, skip_padding};
use crate::{Cursor, PackedRules};
use asn1_schema_errors::DecodeError;
use asn1_values_bits::free_bits;
use asn1_values_natives::octets::{bit_count, octet_width};
use per_codec_rules::LONG_SPAN;

/// Reads a number of `bits` bits that is at most `most`.
///
/// # Errors
///
/// `Incomplete` if there are fewer bits, and `ValueConstraintNotSatisfied` if the number is above `most`.
#[inline(always)]
pub fn read_number_within(
    cursor: &mut Cursor<'_>,
    rules: PackedRules,
    bits: usize,
    most: u128,
) -> Result<u128, DecodeError>
    requires { bits ≤ 128 }
    ensures ok { IfOk result (λ number. Front (freedoms rules)
        (number_within bits most number) cursor.old cursor.new) }
    ensures bound { IfOk result (λ number. number ≤ most) }
    ensures only { IfErr result (Misses (freedoms rules) (number_within bits most) cursor.old) }
{
    let number = cursor.take_number(bits as u32)?;
    if number > most {
        return Err(DecodeError::ValueConstraintNotSatisfied);
    }
    Ok(number)
}

/// The same, octet-aligned in the aligned variant.
#[inline(always)]
fn read_aligned_within(
    cursor: &mut Cursor<'_>,
    rules: PackedRules,
    bits: usize,
    most: u128,
) -> Result<u128, DecodeError>
    requires { bits ≤ 128 }
    ensures ok { IfOk result (λ number. Front (freedoms rules)
        (aligned_within (fronts.is_aligned rules) bits most number) cursor.old cursor.new) }
    ensures bound { IfOk result (λ number. number ≤ most) }
    ensures only { IfErr result (Misses (freedoms rules)
        (aligned_within (fronts.is_aligned rules) bits most) cursor.old) }
{
    read_padding(cursor, rules)?;
    read_number_within(cursor, rules, bits, most)
}

/// The bits of an octet-aligned number of 0 to `span`: an octet for 256 values, two for more (X.691 11.5.7.2 and
/// 11.5.7.3).
#[inline(always)]
fn aligned_width(span: u128) -> usize
    ensures { ((span ≡ 255) × (result ≡ 8)) ⊎ ((¬ (span ≡ 255)) × (result ≡ 16)) }
{
    if span == 255 { 8 } else { 16 }
}

/// Whether a number in `further + 1` octets needs that many: only then is the first of several not zero.
#[inline(always)]
fn needs_octets(number: u128, further: usize) -> bool
    requires narrow { further < 16 }
    requires fits { number < 2 ^ (8 * (further + 1)) }
    ensures { result ≡ (Numbers.least_octets number == further + 1) }
{
    if further == 0 {
        return true;
    }
    if further < 8 {
        return number as u64 >> (8 * further) != 0;
    }
    number >> (8 * further) != 0
}

/// Whether a number in `further + 1` octets is accepted: in strict rules only if it needs that many (X.691 11.5.7.4).
#[inline(always)]
fn is_accepted(rules: PackedRules, number: u128, further: usize) -> bool
    requires narrow { further < 16 }
    requires fits { number < 2 ^ (8 * (further + 1)) }
    ensures { result ≡ (freedoms rules Per.longer_number || (Numbers.least_octets number == further + 1)) }
{
    needs_octets(number, further) || !rules.is_strict()
}

/// Takes a number of `bits` bits and the padding after it at once, if all readers accept them: the number is at most
/// `most`, and the padding is zero. Otherwise the cursor stays.
#[inline(always)]
fn take_plain(cursor: &mut Cursor<'_>, bits: usize, most: u128) -> Option<u128>
    ensures stands { IfSome result (λ number. (free : Per.Freedom → Bool)
        → Front free (padded_within bits most number) cursor.old cursor.new) }
    ensures bound { IfSome result (λ number. number ≤ most) }
    ensures stays { IfNone result (cursor.new ≡ cursor.old) }
{
    if bits > 48 {
        return None;
    }
    let padding = free_bits(cursor.position().checked_add(bits)?);
    let width = bits + padding as usize;
    if width > cursor.len() {
        return None;
    }
    let both = cursor.bits().first_number(width as u32) as u64;
    let number = (both >> padding) as u128;
    if number > most || both % (1 << padding) != 0 {
        return None;
    }
    let Ok(_bits) = cursor.take(width) else {
        return None;
    };
    Some(number)
}

/// Reads a number of `bits` bits that is at most `most`, and the padding after it.
///
/// # Errors
///
/// `Incomplete` if there are fewer bits, `ValueConstraintNotSatisfied` if the number is above `most`, and
/// `InvalidPadding` if a bit of the padding is not zero, in strict rules.
#[inline(always)]
fn read_padded_within(
    cursor: &mut Cursor<'_>,
    rules: PackedRules,
    bits: usize,
    most: u128,
) -> Result<u128, DecodeError>
    requires { bits ≤ 128 }
    ensures ok { IfOk result (λ number. Front (freedoms rules)
        (padded_within bits most number) cursor.old cursor.new) }
    ensures bound { IfOk result (λ number. number ≤ most) }
    ensures only { IfErr result (Misses (freedoms rules) (padded_within bits most) cursor.old) }
{
    if let Some(number) = take_plain(cursor, bits, most) {
        return Ok(number);
    }
    let number = read_number_within(cursor, rules, bits, most)?;
    skip_padding(cursor, rules)?;
    Ok(number)
}

/// Reads a number whose range has more than 65536 values in the aligned variant: octets after their count. More
/// octets than needed are accepted if the rules are not strict, as many as the largest number has (X.691 11.5.7.4).
fn read_octets_within(
    cursor: &mut Cursor<'_>,
    rules: PackedRules,
    span: u128,
) -> Result<u128, DecodeError>
    requires aligned { fronts.is_aligned rules ≡ true }
    requires large { 65536 ≤ span }
    ensures ok { IfOk result (λ number. Front (freedoms rules)
        (Per.constrained true span number) cursor.old cursor.new) }
    ensures bound { IfOk result (λ number. number ≤ span) }
    ensures only { IfErr result (Misses (freedoms rules) (Per.constrained true span) cursor.old) }
{
    let most = (octet_width(span) - 1) as u128;
    let further = read_padded_within(cursor, rules, bit_count(most), most)? as usize;
    let number = read_number_within(cursor, rules, 8 * (further + 1), span)?;
    if !is_accepted(rules, number, further) {
        return Err(DecodeError::NotValidCanonicalEncoding);
    }
    Ok(number)
}

/// Reads a constrained whole number of 0 to `span` (X.691 11.5). Unaligned, it has the bits of `span`. Aligned, it
/// has the same for a range of up to 255 values, one octet for 256, two for up to 65536, else octets after their
/// count.
///
/// # Errors
///
/// `Incomplete` if the bits end early, `ValueConstraintNotSatisfied` if the number, or the count of its octets, is too
/// large, and in strict rules `InvalidPadding` if a bit of padding is not zero, and `NotValidCanonicalEncoding` if the
/// number has more octets than it needs.
#[inline(always)]
pub fn read_constrained(
    cursor: &mut Cursor<'_>,
    rules: PackedRules,
    span: u128,
) -> Result<u128, DecodeError>
    ensures ok { IfOk result (λ number. Front (freedoms rules)
        (Per.constrained (fronts.is_aligned rules) span number) cursor.old cursor.new) }
    ensures bound { IfOk result (λ number. number ≤ span) }
    ensures only { IfErr result (Misses (freedoms rules)
        (Per.constrained (fronts.is_aligned rules) span) cursor.old) }
{
    if !rules.is_aligned() || span < 255 {
        return read_number_within(cursor, rules, bit_count(span), span);
    }
    if span < LONG_SPAN {
        return read_aligned_within(cursor, rules, aligned_width(span), span);
    }
    read_octets_within(cursor, rules, span)
}
