//! OCTET STRING (X.691 17).
ghost use Rattle.std.specs.Prelude.{MatchResult};
ghost use Rattle.asn1_model.specs.Per.{form};
ghost use Rattle.asn1_model.specs.Schema.{octet_string};
ghost use Rattle.asn1_model.specs.Value.{octet_list};
ghost use Rattle.asn1_schema_constraints.specs.Bounds.{counts_of};
ghost use Rattle.asn1_schema_constraints.specs.Terms.{sizes_of};
ghost use Rattle.per_codec_packing.specs.FieldLists.{field_list_at};
ghost use Rattle.per_codec_writing.specs.Writing.{Adds, Refuses, place};
ghost use Rattle.per_codec_rules.specs.Variants.{is_aligned};

use crate::push_sized;
use asn1_schema_constraints::{Bounded, Constraints};
use asn1_schema_errors::EncodeError;
use per_codec_packing::Packing;
use per_codec_rules::{Variant, string_has_padding};

/// Adds an OCTET STRING (X.691 17). `held` are the numbers of octets that the Rust type can hold.
///
/// # Errors
///
/// `SizeConstraintNotSatisfied` if the Rust type does not hold that many octets, or a size without an extension
/// marker does not admit them; `OutOfMemory`.
#[inline(always)]
pub fn push_octet_string(
    output: &mut Packing,
    variant: Variant,
    constraints: &Constraints,
    held: Bounded<usize>,
    value: &[u8],
) -> Result<(), EncodeError>
    ensures { MatchResult result (λ _. Adds
        (field_list_at (form (is_aligned variant) (octet_string (sizes_of constraints.now.size) (counts_of held))
        (octet_list value.now)) (place output.old)) output.old output.new)
        (Refuses (field_list_at
        (form (is_aligned variant) (octet_string (sizes_of constraints.now.size) (counts_of held))
        (octet_list value.now)) (place output.old))) }
{
    let sizes = constraints.sizes();
    let has_padding = string_has_padding(sizes.root, 8, value.len());
    let octets = value;
    push_sized(output, variant, sizes, held, has_padding, &octets)?;
    Ok(())
}
