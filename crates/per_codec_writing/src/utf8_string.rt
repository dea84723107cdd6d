//! UTF8String (X.691 30).
ghost use Rattle.std.specs.Prelude.{◌≡◌, MatchResult};
ghost use Rattle.asn1_model.specs.Per.{form};
ghost use Rattle.asn1_model.specs.Schema.{character_string, utf8};
ghost use Rattle.asn1_model.specs.Schema.{any_count};
ghost use Rattle.asn1_model.specs.Value.{text};
ghost use Rattle.asn1_schema_constraints.specs.Terms.{sizes_of, alphabet_of};
ghost use Rattle.per_codec_packing.specs.FieldLists.{field_list_at};
ghost use Rattle.per_codec_writing.specs.Writing.{Adds, place};
ghost use Rattle.per_codec_rules.specs.Variants.{is_aligned};

use crate::push_counted_octets;
use asn1_schema_constraints::Constraints;
use asn1_schema_errors::EncodeError;
use per_codec_packing::Packing;
use per_codec_rules::Variant;

/// Adds a UTF8String (X.691 30): its octets after a length determinant. Its constraints do not affect the encoding.
///
/// # Errors
///
/// Only `OutOfMemory`.
#[inline(always)]
pub fn push_utf8(
    output: &mut Packing,
    variant: Variant,
    _constraints: &Constraints,
    value: &str,
) -> Result<(), EncodeError>
    ensures { MatchResult result (λ _. Adds
        (field_list_at (form (is_aligned variant) (character_string utf8 (sizes_of _constraints.now.size)
        (alphabet_of _constraints.now.permitted_alphabet) any_count) (text value.now)) (place output.old))
        output.old output.new) (λ e. e ≡ EncodeError.OutOfMemory) }
{
    push_counted_octets(output, variant, value.as_bytes())?;
    Ok(())
}
