//! Open types (X.691 11.2).
ghost use Rattle.std.specs.Prelude.{◌≡◌, MatchResult};
ghost use Rattle.asn1_model.specs.Form.{exactly};
ghost use Rattle.asn1_model.specs.Per.{open_type};
ghost use Rattle.per_codec_packing.specs.FieldLists.{field_list_at};
ghost use Rattle.per_codec_writing.specs.Writing.{Adds, place};
ghost use Rattle.per_codec_rules.specs.Variants.{is_aligned};

use crate::push_counted_octets;
use asn1_schema_errors::EncodeError;
use asn1_values_bits::BitBuffer;
use per_codec_packing::Packing;
use per_codec_rules::Variant;

/// Adds bits as an open type: a length determinant, then the bits padded with zero bits to whole octets, or one zero
/// octet if there are no bits (X.691 11.1 and 11.2).
///
/// # Errors
///
/// Only `OutOfMemory`.
pub fn push_open_type(
    output: &mut Packing,
    variant: Variant,
    contents: &BitBuffer,
) -> Result<(), EncodeError>
    ensures { MatchResult result (λ _. Adds
        (field_list_at (open_type (is_aligned variant) (exactly contents.now)) (place output.old)) output.old
        output.new)
        (λ e. e ≡ EncodeError.OutOfMemory) }
{
    if contents.is_empty() {
        push_counted_octets(output, variant, &[0])?;
        return Ok(());
    }
    push_counted_octets(output, variant, contents.as_bytes())?;
    Ok(())
}
