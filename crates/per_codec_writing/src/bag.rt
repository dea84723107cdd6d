//! The end of a bag (X.691 22).
ghost use Rattle.std.specs.Prelude.{MatchResult, false};
ghost use Rattle.asn1_model.specs.Per.{in_any_order, sized};
ghost use Rattle.asn1_schema_constraints.specs.Bounds.{members_of};
ghost use Rattle.asn1_schema_constraints.specs.Terms.{size_of};
ghost use Rattle.per_codec_packing.specs.FieldLists.{field_list_at};
ghost use Rattle.per_codec_writing.specs.Writing.{Adds, Refuses, place};
ghost use Rattle.per_codec_writing.specs.Members.{forms};
ghost use Rattle.per_codec_rules.specs.Variants.{is_aligned};

use crate::members::in_order;
use crate::push_sized;
use asn1_schema_constraints::{Bounded, Sizes};
use asn1_schema_errors::EncodeError;
use per_codec_packing::{FieldLists, Packing};
use per_codec_rules::Variant;
use std::alloc::Global;

/// Adds a SET OF: its elements after their length determinant, in ascending order of their complete encodings (X.691
/// 22). Elements with the same encoding keep their order. `held` are the counts that the Rust type can hold.
///
/// # Errors
///
/// `SizeConstraintNotSatisfied` if the Rust type does not hold that many elements, or a size without an extension
/// marker does not admit them; `OutOfMemory`.
pub fn push_bag(
    alloc: Global,
    output: &mut Packing,
    variant: Variant,
    sizes: Sizes,
    held: Bounded<usize>,
    members: &FieldLists,
) -> Result<(), EncodeError>
    ensures { MatchResult result (λ _. Adds
        (field_list_at (in_any_order (forms members.now)
        (λ us. sized (is_aligned variant) (size_of sizes) (members_of held) (λ c. false) us)) (place output.old))
        output.old output.new)
        (Refuses (field_list_at (in_any_order (forms members.now)
        (λ us. sized (is_aligned variant) (size_of sizes) (members_of held) (λ c. false) us)) (place output.old))) }
{
    let ordered = in_order(alloc, members)?;
    let units = ordered.as_slice();
    push_sized(output, variant, sizes, held, false, &units)?;
    Ok(())
}
