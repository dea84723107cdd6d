//! Padding to octet boundaries (X.691 11.1).
ghost use Rattle.std.specs.Prelude.{◌≡◌, ◌≤◌, ◌↔◌, IsTrue, false, length, replicate, OnOk, IfErr, []};
ghost use Rattle.asn1_model.specs.Per as Per;
ghost use Rattle.per_codec_reading.specs.Fronts as fronts;
ghost use Rattle.asn1_values_bits.specs.BitStr.{bits_of};
ghost use Rattle.per_codec_reading.specs.Fronts.{freedoms, ArePadding, Misses, to_octet};
ghost use Rattle.per_codec_laws.specs.Takes.{Front};
ghost use Rattle.asn1_model.specs.Form.{exactly};

use crate::{Cursor, PackedRules};
use asn1_schema_errors::DecodeError;
use asn1_values_bits::{BitStr, free_bits};

/// Whether all of these bits are zero.
#[inline(always)]
pub fn are_zero(bits: BitStr<'_>) -> bool
    requires { length (bits_of bits) ≤ 128 }
    ensures { IsTrue result ↔ (bits_of bits.entry ≡ replicate (length (bits_of bits.entry)) false) }
{
    bits.first_number(bits.len() as u32) == 0
}

/// Whether these padding bits are accepted: in strict rules only if they are zero (X.691 11.1).
#[inline(always)]
fn are_accepted(rules: PackedRules, bits: BitStr<'_>) -> bool
    requires { length (bits_of bits) ≤ 128 }
    ensures { IsTrue result ↔ ArePadding (freedoms rules Per.any_padding) (bits_of bits.entry) }
{
    !rules.is_strict() || are_zero(bits)
}

/// Skips the padding to the next octet boundary of the message or open type, zero bits in strict rules and any bits in
/// others (X.691 11.1).
///
/// # Errors
///
/// `Incomplete` if there are fewer bits, and `InvalidPadding` if a bit is not zero, in strict rules.
#[inline(always)]
pub fn skip_padding(cursor: &mut Cursor<'_>, rules: PackedRules) -> Result<(), DecodeError>
    ensures ok { OnOk result (Front (freedoms rules) to_octet cursor.old cursor.new) }
    ensures only { IfErr result (Misses (freedoms rules) (λ (_ : Unit {0}). to_octet) cursor.old) }
    ensures no_memory { IfErr result (λ e. ¬ (e ≡ DecodeError.OutOfMemory)) }
{
    let count = free_bits(cursor.position()) as usize;
    if count == 0 {
        return Ok(());
    }
    let bits = cursor.take(count)?;
    if !are_accepted(rules, bits) {
        return Err(DecodeError::InvalidPadding);
    }
    Ok(())
}

/// Skips to the next octet boundary of the message or open type in the aligned variant (X.691 11.1).
///
/// # Errors
///
/// Those of [`skip_padding`].
#[inline(always)]
pub fn read_padding(cursor: &mut Cursor<'_>, rules: PackedRules) -> Result<(), DecodeError>
    ensures ok { OnOk result (Front (freedoms rules)
        (Per.at_octet (fronts.is_aligned rules) (exactly [])) cursor.old cursor.new) }
    ensures only { IfErr result (Misses (freedoms rules) (Per.at_octet (fronts.is_aligned rules)) cursor.old) }
{
    if rules.is_aligned() {
        skip_padding(cursor, rules)?;
    }
    Ok(())
}
