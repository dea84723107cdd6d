//! Open types (X.696 30), and unknown additions, skipped by their length determinants.
ghost use Rattle.std.specs.Prelude.{◌≡◌, ◌⊎◌, [], IsTrue, OnOk, IfOk, IfErr};
ghost use Rattle.asn1_model.specs.Oer.{counted, octets_behind};
ghost use Rattle.asn1_values_bits.specs.BitStr.{bits_of};
ghost use Rattle.oer_codec_laws.specs.Takes.{Skips};
ghost use Rattle.oer_codec_reading.specs.Fronts.{freedoms, Misses, Stands};
ghost use Rattle.oer_codec_reading.specs.Skipping.{SkipsNone};

use crate::length::{read_counted, read_length};
use crate::{Cursor, EncodingRules, take_bit};
use asn1_schema_errors::DecodeError;
use asn1_values_bits::BitStr;
use std::mem;

/// Enters an open type (X.696 30): the cursor moves to its octets. Returns a cursor to those after it.
///
/// # Errors
///
/// `Incomplete` if the octets end early, and the errors of a length determinant.
#[inline(always)]
pub fn enter_open_type<'input>(
    cursor: &mut Cursor<'input>,
    rules: EncodingRules,
) -> Result<Cursor<'input>, DecodeError>
    ensures ok { IfOk result (λ behind. Stands (freedoms rules) (counted cursor.new) cursor.old behind) }
    ensures only { IfErr result (Misses (freedoms rules) counted cursor.old) }
{
    let length = read_length(cursor, rules)?;
    let octets = cursor.take(length)?;
    Ok(mem::replace(cursor, Cursor::new(octets)))
}

/// Leaves an open type (X.696 30): the cursor moves to the octets after it.
///
/// # Errors
///
/// `SurplusOctets` if octets are left in the open type, in COER.
#[inline(always)]
pub fn leave_open_type<'input>(
    cursor: &mut Cursor<'input>,
    rules: EncodingRules,
    behind: Cursor<'input>,
) -> Result<(), DecodeError>
    ensures ok { OnOk result (((cursor.old ≡ []) ⊎ IsTrue (freedoms rules octets_behind))
        × (cursor.new ≡ behind.entry)) }
    ensures only { IfErr result (λ _. ((cursor.old ≡ []) ⊎ IsTrue (freedoms rules octets_behind)) → ⊥) }
    ensures fresh { IfErr result (λ e. e ≡ DecodeError.AlreadyFailed → ⊥) }
{
    if rules.is_coer() && !cursor.is_empty() {
        return Err(DecodeError::SurplusOctets);
    }
    *cursor = behind;
    Ok(())
}

/// Skips the unknown additions whose presence bits are set, by their length determinants (X.696 16.4).
///
/// # Errors
///
/// `Incomplete` if the octets end early, and the errors of a length determinant.
pub fn skip_additions(
    cursor: &mut Cursor<'_>,
    rules: EncodingRules,
    mut presence_bits: BitStr<'_>,
) -> Result<(), DecodeError>
    ensures ok { OnOk result (Skips (freedoms rules) (bits_of presence_bits.entry) cursor.old cursor.new) }
    ensures only { IfErr result (SkipsNone (freedoms rules) (bits_of presence_bits.entry) cursor.old) }
{
    while let Some(is_there) = take_bit(&mut presence_bits) {
        if is_there {
            let _passed_over = read_counted(cursor, rules)?;
        }
    }
    Ok(())
}
