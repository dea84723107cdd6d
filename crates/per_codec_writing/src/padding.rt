//! Padding to octet boundaries (X.691 11.1).
ghost use Rattle.std.specs.Prelude.{◌≡◌, MatchResult};
ghost use Rattle.per_codec_writing.specs.Writing.{padding_if, place, plus};
ghost use Rattle.per_codec_rules.specs.Variants.{is_aligned};

use asn1_schema_errors::EncodeError;
use per_codec_packing::Packing;
use per_codec_rules::Variant;

/// Adds padding to the next octet boundary in the aligned variant, and nothing in the unaligned one (X.691 11.1).
///
/// # Errors
///
/// Only `OutOfMemory`.
#[inline(always)]
pub fn push_padding(output: &mut Packing, variant: Variant) -> Result<(), EncodeError>
    ensures { MatchResult result
        (λ _. output.new ≡ plus output.old (padding_if (is_aligned variant) (place output.old)))
        (λ e. e ≡ EncodeError.OutOfMemory) }
{
    if variant.is_aligned() {
        output.push_padding()?;
    }
    Ok(())
}
