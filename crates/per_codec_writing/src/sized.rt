//! Units under a size constraint (X.691 16, 17, 22 and 30).
ghost use Rattle.std.specs.Prelude.{MatchResult};
ghost use Rattle.asn1_model.specs.Per.{sized};
ghost use Rattle.asn1_schema_constraints.specs.Bounds.{counts_of};
ghost use Rattle.asn1_schema_constraints.specs.Terms.{size_of};
ghost use Rattle.per_codec_packing.specs.FieldLists.{field_list_at};
ghost use Rattle.per_codec_writing.specs.Writing.{Adds, Refuses, place};
ghost use Rattle.per_codec_rules.specs.Variants.{is_aligned};

use crate::counted::push_due;
use crate::{Units, push_heading};
use asn1_schema_constraints::{Bounded, Sizes};
use asn1_schema_errors::EncodeError;
use per_codec_packing::Packing;
use per_codec_rules::Variant;

/// Adds units under a size constraint (X.691 16, 17, 22 and 30). `held` are the counts that the Rust type can hold.
/// `has_padding` says whether padding precedes the units in the aligned variant, if their number is encoded by the
/// bounds of the root.
///
/// # Errors
///
/// `SizeConstraintNotSatisfied` if the Rust type does not hold that many units, or a size without an extension marker
/// does not admit them; `OutOfMemory`.
#[inline(always)]
pub fn push_sized<U: Units>(
    output: &mut Packing,
    variant: Variant,
    sizes: Sizes,
    held: Bounded<usize>,
    has_padding: bool,
    units: &U,
) -> Result<(), EncodeError>
    ensures { MatchResult result (λ _. Adds
        (field_list_at (sized (is_aligned variant) (size_of sizes) (counts_of held) (λ _. has_padding)
        (U.forms units.now))
        (place output.old)) output.old output.new)
        (Refuses (field_list_at (sized (is_aligned variant) (size_of sizes) (counts_of held) (λ _. has_padding)
        (U.forms units.now)) (place output.old))) }
{
    let count = units.count();
    if !held.holds(count) {
        return Err(EncodeError::SizeConstraintNotSatisfied);
    }
    let due = push_heading(output, variant, sizes, has_padding, count)?;
    push_due(output, variant, due, units)?;
    Ok(())
}
