//! Normally small numbers (X.691 11.6).
ghost use Rattle.std.specs.Prelude.{◌≡◌, ◌||◌, leb, IfOk, IfErr};
ghost use Rattle.asn1_model.specs.Per as Per;
ghost use Rattle.per_codec_laws.specs.Takes.{Front};
ghost use Rattle.per_codec_reading.specs.Fronts as fronts;
ghost use Rattle.per_codec_reading.specs.Fronts.{freedoms, Misses};
ghost use Rattle.per_codec_reading_values.specs.Indices.{small_form};

use crate::number_octets::read_semi_constrained;
use asn1_schema_errors::DecodeError;
use per_codec_reading::boolean::read_bit;
use per_codec_reading::numbers::read_number_within;
use per_codec_reading::{Cursor, PackedRules};
use std::alloc::Global;

/// Whether a number in octets after a length determinant is accepted: in strict rules only from 64 on (X.691 11.6).
#[inline(always)]
fn is_accepted(rules: PackedRules, number: u128) -> bool
    ensures { result ≡ (freedoms rules Per.long_small_number || leb 64 number) }
{
    !rules.is_strict() || number >= 64
}

/// Reads a normally small number (X.691 11.6), if it fits in 128 bits: up to 63 in six bits, or any in octets after a
/// length determinant.
///
/// # Errors
///
/// `Incomplete` if the bits end early, `ValueConstraintNotSatisfied` if it does not fit in 128 bits,
/// `NotValidCanonicalEncoding` if it is below 64 and not in six bits, in strict rules, and the errors of
/// [`read_semi_constrained`].
pub fn read_normally_small(
    alloc: Global,
    cursor: &mut Cursor<'_>,
    rules: PackedRules,
) -> Result<u128, DecodeError>
    ensures ok { IfOk result (λ number. Front (freedoms rules)
        (small_form (fronts.is_aligned rules) number) cursor.old cursor.new) }
    ensures only { IfErr result (Misses (freedoms rules) (small_form (fronts.is_aligned rules)) cursor.old) }
{
    let is_long = read_bit(cursor, rules)?;
    if is_long {
        let number = read_semi_constrained(alloc, cursor, rules)?;
        if !is_accepted(rules, number) {
            return Err(DecodeError::NotValidCanonicalEncoding);
        }
        return Ok(number);
    }
    let number = read_number_within(cursor, rules, 6, 63)?;
    Ok(number)
}
