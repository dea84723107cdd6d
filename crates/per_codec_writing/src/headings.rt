//! What precedes the units under a size constraint: the extension bit, their number and padding, or a general length
//! determinant (X.691 11.9.4, 16.6 to 16.11, 17.3 to 17.8, 20.4, 20.5 and 30.4 to 30.5.7).
ghost use Rattle.std.specs.Prelude.{◌≡◌, ◌≤◌, true, IfOk, MatchResult};
ghost use Rattle.asn1_model.specs.Numbers.{is_count_within};
ghost use Rattle.asn1_schema_constraints.specs.Bounds.{counts_of, upper};
ghost use Rattle.asn1_schema_constraints.specs.Terms.{size_of};
ghost use Rattle.per_codec_packing.specs.FieldLists.{field_list_at};
ghost use Rattle.per_codec_writing.specs.Headings.{count_form, sized_count, heading, Heads, IsDue, NoHeading};
ghost use Rattle.per_codec_writing.specs.Writing.{Adds, Refuses, place};
ghost use Rattle.per_codec_rules.specs.Variants.{is_aligned};

use crate::length::push_length_determinant;
use crate::{Due, push_constrained, push_padding};
use asn1_schema_constraints::{Bounded, Sizes};
use asn1_schema_errors::EncodeError;
use per_codec_packing::Packing;
use per_codec_rules::{Variant, highest_below_64k};

/// Adds a number of units of `low` to `high`, and padding after it if `has_padding` (X.691 11.9.4.1).
#[inline(always)]
fn push_number(
    output: &mut Packing,
    variant: Variant,
    low: usize,
    high: usize,
    has_padding: bool,
    count: usize,
) -> Result<(), EncodeError>
    requires least { low ≤ count }
    requires most { count ≤ high }
    ensures { MatchResult result (λ _. Adds
        (field_list_at (count_form (is_aligned variant) low high has_padding count) (place output.old)) output.old
        output.new)
        (Refuses (field_list_at (count_form (is_aligned variant) low high has_padding count) (place output.old))) }
{
    push_constrained(output, variant, (high - low) as u128, (count - low) as u128)?;
    if has_padding {
        push_padding(output, variant)?;
    }
    Ok(())
}

/// Adds the number of units of the root of a size: by its bounds if the upper bound is below 65536, else a general
/// length determinant (X.691 11.9.4.1).
#[inline(always)]
fn push_root_count(
    output: &mut Packing,
    variant: Variant,
    root: Bounded<usize>,
    has_padding: bool,
    count: usize,
) -> Result<Due, EncodeError>
    requires { is_count_within (counts_of root) count ≡ true }
    ensures heads { MatchResult result (λ due. Heads
        (sized_count (is_aligned variant) (counts_of root) (upper root) has_padding count (place output.old))
        output.old due output.new)
        (NoHeading (sized_count (is_aligned variant) (counts_of root) (upper root) has_padding count
        (place output.old))) }
    ensures due { IfOk result (λ due. IsDue count due) }
{
    let Some(high) = highest_below_64k(root) else {
        let due = push_length_determinant(output, variant, count)?;
        return Ok(due);
    };
    push_number(output, variant, root.minimum(), high, has_padding, count)?;
    Ok(Due {
        units: count,
        behind: None,
    })
}

/// Adds what precedes `count` units under a size constraint, in a string as in a list (X.691 16, 17, 20 and 30): the
/// extension bit, if the size is extensible, and the number of units or the first general length determinant. Later
/// fragments get their length determinants in lists by `next_of_list` of `per_codec_encoder::members`, elsewhere by
/// `push_due`. `has_padding` says whether padding follows a number encoded by the bounds of the root, in the aligned
/// variant.
///
/// # Errors
///
/// `SizeConstraintNotSatisfied` if a size without an extension marker does not admit `count` units; `OutOfMemory`.
#[inline(always)]
pub fn push_heading(
    output: &mut Packing,
    variant: Variant,
    sizes: Sizes,
    has_padding: bool,
    count: usize,
) -> Result<Due, EncodeError>
    ensures heads { MatchResult result (λ due. Heads
        (heading (is_aligned variant) (size_of sizes) has_padding count (place output.old)) output.old due output.new)
        (NoHeading (heading (is_aligned variant) (size_of sizes) has_padding count (place output.old))) }
    ensures due { IfOk result (λ due. IsDue count due) }
{
    let in_root = sizes.root.contains(&count);
    if !sizes.is_extensible {
        if !in_root {
            return Err(EncodeError::SizeConstraintNotSatisfied);
        }
        let due = push_root_count(output, variant, sizes.root, has_padding, count)?;
        return Ok(due);
    }
    output.push(!in_root)?;
    if in_root {
        let due = push_root_count(output, variant, sizes.root, has_padding, count)?;
        return Ok(due);
    }
    let due = push_length_determinant(output, variant, count)?;
    Ok(due)
}
