//! BIT STRING (X.691 16).
ghost use Rattle.std.specs.Prelude.{MatchResult};
ghost use Rattle.asn1_model.specs.Per.{form};
ghost use Rattle.asn1_model.specs.Schema.{bit_string};
ghost use Rattle.asn1_model.specs.Value.{bit_list};
ghost use Rattle.asn1_schema_constraints.specs.Bounds.{counts_of};
ghost use Rattle.asn1_schema_constraints.specs.Terms.{sizes_of};
ghost use Rattle.asn1_values_bits.specs.BitStr.{bits_of};
ghost use Rattle.per_codec_packing.specs.FieldLists.{field_list_at};
ghost use Rattle.per_codec_writing.specs.Writing.{Adds, Refuses, place};
ghost use Rattle.per_codec_rules.specs.Variants.{is_aligned};

use crate::push_sized;
use asn1_schema_constraints::{Bounded, Constraints};
use asn1_schema_errors::EncodeError;
use asn1_values_bits::BitStr;
use per_codec_packing::Packing;
use per_codec_rules::{Variant, string_has_padding};

/// Adds a BIT STRING (X.691 16). `held` are the numbers of bits that the Rust type can hold.
///
/// # Errors
///
/// `SizeConstraintNotSatisfied` if the Rust type does not hold that many bits, or a size without an extension marker
/// does not admit them; `OutOfMemory`.
#[inline(always)]
pub fn push_bit_string(
    output: &mut Packing,
    variant: Variant,
    constraints: &Constraints,
    held: Bounded<usize>,
    value: BitStr,
) -> Result<(), EncodeError>
    ensures { MatchResult result (λ _. Adds
        (field_list_at (form (is_aligned variant) (bit_string (sizes_of constraints.now.size) (counts_of held))
        (bit_list (bits_of value.entry))) (place output.old)) output.old output.new)
        (Refuses (field_list_at (form (is_aligned variant) (bit_string (sizes_of constraints.now.size) (counts_of held))
        (bit_list (bits_of value.entry))) (place output.old))) }
{
    let sizes = constraints.sizes();
    let has_padding = string_has_padding(sizes.root, 1, value.len());
    push_sized(output, variant, sizes, held, has_padding, &value)?;
    Ok(())
}
