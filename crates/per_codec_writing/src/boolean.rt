//! BOOLEAN (X.691 12).
ghost use Rattle.std.specs.Prelude.{◌≡◌, MatchResult};
ghost use Rattle.asn1_model.specs.Per.{form};
ghost use Rattle.asn1_model.specs.Schema.{boolean};
ghost use Rattle.asn1_model.specs.Value.{truth};
ghost use Rattle.per_codec_packing.specs.FieldLists.{field_list_at};
ghost use Rattle.per_codec_writing.specs.Writing.{Adds, place};
ghost use Rattle.per_codec_rules.specs.Variants.{is_aligned};

use asn1_schema_errors::EncodeError;
use per_codec_packing::Packing;
use per_codec_rules::Variant;

/// Adds a BOOLEAN, one bit, which is 1 for true (X.691 12).
///
/// # Errors
///
/// Only `OutOfMemory`.
#[inline]
pub fn push_boolean(output: &mut Packing, variant: Variant, value: bool) -> Result<(), EncodeError>
    ensures { MatchResult result (λ _. Adds
        (field_list_at (form (is_aligned variant) boolean (truth value)) (place output.old)) output.old output.new)
        (λ e. e ≡ EncodeError.OutOfMemory) }
{
    output.push(value)?;
    Ok(())
}
