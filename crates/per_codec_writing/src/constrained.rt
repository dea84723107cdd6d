//! Constrained whole numbers (X.691 11.5).
ghost use Rattle.std.specs.Prelude.{◌≡◌, ◌≤◌, true, MatchResult};
ghost use Rattle.asn1_model.specs.Numbers.{width};
ghost use Rattle.asn1_model.specs.Per.{constrained};
ghost use Rattle.per_codec_packing.specs.FieldLists.{field_list_at};
ghost use Rattle.per_codec_writing.specs.Writing.{Adds, Refuses, place};
ghost use Rattle.per_codec_rules.specs.Variants.{is_aligned};

use asn1_schema_errors::EncodeError;
use asn1_values_natives::octets::{bit_count, octet_width};
use per_codec_packing::Packing;
use per_codec_rules::{LONG_SPAN, Variant};

/// Adds a number of 0 to `span` in its fewest octets, octet-aligned, after their count, itself a constrained whole
/// number (X.691 11.5.7.4 and 13.2.6).
fn push_fewest_octets(output: &mut Packing, span: u128, value: u128) -> Result<(), EncodeError>
    requires within { value ≤ span }
    requires large { 65536 ≤ span }
    ensures { MatchResult result (λ _. Adds
        (field_list_at (constrained true span value) (place output.old)) output.old output.new)
        (λ e. e ≡ EncodeError.OutOfMemory) }
{
    let count = octet_width(value).max(1);
    let further = octet_width(span) - 1;
    output.push_bits((count - 1) as u128, bit_count(further as u128) as u32)?;
    output.push_padding()?;
    output.push_bits(value, count as u32 * 8)?;
    Ok(())
}

/// Adds a number of 0 to `span`, octet-aligned: one octet if the range has 256 values, two if at most 65536, else
/// after the number of its octets (X.691 11.5.7.2 to 11.5.7.4).
#[inline(always)]
fn push_octets(output: &mut Packing, span: u128, value: u128) -> Result<(), EncodeError>
    requires within { value ≤ span }
    requires large { 255 ≤ span }
    ensures { MatchResult result (λ _. Adds
        (field_list_at (constrained true span value) (place output.old)) output.old output.new)
        (λ e. e ≡ EncodeError.OutOfMemory) }
{
    if span >= LONG_SPAN {
        push_fewest_octets(output, span, value)?;
        return Ok(());
    }
    output.push_padding()?;
    let width = if span == 255 { 8 } else { 16 };
    output.push_bits(value, width)?;
    Ok(())
}

/// Adds a constrained whole number of 0 to `span` (X.691 11.5). A number above `span` is refused.
///
/// # Errors
///
/// `OutOfMemory`; any other only if the value has no encoding.
#[inline(always)]
pub fn push_constrained(
    output: &mut Packing,
    variant: Variant,
    span: u128,
    value: u128,
) -> Result<(), EncodeError>
    ensures { MatchResult result (λ _. Adds
        (field_list_at (constrained (is_aligned variant) span value) (place output.old)) output.old output.new)
        (Refuses (field_list_at (constrained (is_aligned variant) span value) (place output.old))) }
{
    if value > span {
        return Err(EncodeError::ValueConstraintNotSatisfied);
    }
    let aligned = variant.is_aligned();
    if aligned && span >= 255 {
        push_octets(output, span, value)?;
        return Ok(());
    }
    output.push_bits(value, bit_count(span) as u32)?;
    Ok(())
}

/// Adds a constrained whole number of 0 to `span`, which has this number of bits (X.691 11.5).
///
/// # Errors
///
/// `OutOfMemory`.
#[inline(always)]
pub(crate) fn push_offset(
    output: &mut Packing,
    variant: Variant,
    span: u64,
    bits: u8,
    value: u64,
) -> Result<(), EncodeError>
    requires within { value ≤ span }
    requires bits { bits ≡ width span }
    ensures { MatchResult result (λ _. Adds
        (field_list_at (constrained (is_aligned variant) span value) (place output.old)) output.old output.new)
        (Refuses (field_list_at (constrained (is_aligned variant) span value) (place output.old))) }
{
    if variant.is_aligned() && span >= 255 {
        push_octets(output, u128::from(span), u128::from(value))?;
        return Ok(());
    }
    output.push_bits(u128::from(value), u32::from(bits))?;
    Ok(())
}
