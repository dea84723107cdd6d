//! Normally small whole numbers (X.691 11.6).
ghost use Rattle.std.specs.Prelude.{◌≡◌, MatchResult};
ghost use Rattle.asn1_model.specs.Per.{normally_small};
ghost use Rattle.per_codec_packing.specs.FieldLists.{field_list_at};
ghost use Rattle.per_codec_writing.specs.Writing.{Adds, place};
ghost use Rattle.per_codec_rules.specs.Variants.{is_aligned};

use crate::integer::push_semi_constrained;
use asn1_schema_errors::EncodeError;
use per_codec_packing::Packing;
use per_codec_rules::Variant;

/// Adds a normally small number (X.691 11.6): up to 63 a zero bit and six bits, else a one bit, a length determinant
/// and the fewest octets.
///
/// # Errors
///
/// Only `OutOfMemory`.
pub fn push_normally_small(
    output: &mut Packing,
    variant: Variant,
    number: u64,
) -> Result<(), EncodeError>
    ensures { MatchResult result (λ _. Adds
        (field_list_at (normally_small (is_aligned variant) number) (place output.old)) output.old output.new)
        (λ e. e ≡ EncodeError.OutOfMemory) }
{
    if number < 64 {
        output.push_bits(number as u128, 7)?;
        return Ok(());
    }
    output.push(true)?;
    push_semi_constrained(output, variant, number as u128)?;
    Ok(())
}
