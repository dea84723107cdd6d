//! SEQUENCE OF: elements after one length determinant, or in fragments after one each (X.691 11.9 and 20).
ghost use Rattle.std.specs.Prelude.{◌≡◌, IfOk, MatchResult};
ghost use Rattle.asn1_schema_laws.specs.Records.{list_begins};
ghost use Rattle.asn1_schema_constraints.specs.Bounds.{members_of};
ghost use Rattle.asn1_schema_constraints.specs.Terms.{size_of};
ghost use Rattle.per_codec_encoder.specs.Headings.{GoesOn, GoesOnInList, NoMember};
ghost use Rattle.per_codec_encoder.specs.Holding.{Does, Cannot};
ghost use Rattle.per_codec_rules.specs.Variants.{is_aligned};
ghost use Rattle.per_codec_packing.specs.Packed.{place};
ghost use Rattle.per_codec_writing.specs.Headings.{general, Heads, IsDue};

use crate::frame::Frame;
use crate::frames::Frames;
use asn1_schema_constraints::{Bounded, Sizes};
use asn1_schema_errors::EncodeError;
use per_codec_packing::Packing;
use per_codec_rules::Variant;
use per_codec_writing::{Due, push_heading, push_length_determinant};

/// Begins a list with what precedes its elements (X.691 20), if the size and the Rust type allow `count` of them.
///
/// # Errors
///
/// `SizeConstraintNotSatisfied` if the Rust type does not hold that many elements, or a size without an extension
/// marker does not admit them; `OutOfMemory`.
pub(crate) fn begin_members(
    output: &mut Packing,
    frames: &mut Frames,
    variant: Variant,
    sizes: Sizes,
    held: Bounded<usize>,
    count: usize,
) -> Result<(), EncodeError>
    ensures { MatchResult result (λ _. Does (is_aligned variant)
        (list_begins (size_of sizes) (members_of held) count) frames.old output.old frames.new output.new)
        (Cannot (is_aligned variant) (list_begins (size_of sizes) (members_of held) count) frames.old output.old) }
{
    if !held.holds(count) {
        return Err(EncodeError::SizeConstraintNotSatisfied);
    }
    let due = push_heading(output, variant, sizes, false, count)?;
    frames.open(Frame::Members(due))?;
    Ok(())
}

/// Adds a further length determinant of a list with `count` elements left (X.691 11.9.3.8). Few lists need one. The
/// only error is `OutOfMemory`.
#[cold]
fn push_further_length_determinant(
    output: &mut Packing,
    variant: Variant,
    count: usize,
) -> Result<Due, EncodeError>
    ensures heads { MatchResult result
        (λ due. Heads (general (is_aligned variant) count (place output.old)) output.old due output.new)
        (λ e. e ≡ EncodeError.OutOfMemory) }
    ensures due { IfOk result (λ due. IsDue count due) }
{
    push_length_determinant(output, variant, count)
}

/// Adds the length determinant before the next element or the end, if one is due (X.691 11.9.3.8). The only error is
/// `OutOfMemory`.
#[inline(always)]
fn push_next_length_determinant(
    output: &mut Packing,
    variant: Variant,
    due: Due,
) -> Result<Due, EncodeError>
    ensures { MatchResult result (λ next. GoesOn (is_aligned variant) due output.old next output.new)
        (λ e. e ≡ EncodeError.OutOfMemory) }
{
    match due.behind {
        Some(count) if due.units == 0 => {
            let next = push_further_length_determinant(output, variant, count)?;
            Ok(next)
        }
        _ => Ok(due),
    }
}

/// Begins a further element of a list if `more`, else expects none to be due. Each fragment follows its length
/// determinant (X.691 11.9.3.8).
///
/// # Errors
///
/// `CallOutOfPlace` if there are more or fewer elements than due; `OutOfMemory`.
#[inline(always)]
pub(crate) fn next_of_list(
    output: &mut Packing,
    variant: Variant,
    due: &mut Due,
    more: bool,
) -> Result<(), EncodeError>
    ensures { MatchResult result (λ _. GoesOnInList (is_aligned variant) more due.old output.old due.new output.new)
        (NoMember (is_aligned variant) more due.old output.old) }
{
    if more && due.units > 0 {
        due.units -= 1;
        return Ok(());
    }
    let next = push_next_length_determinant(output, variant, *due)?;
    if more != (next.units > 0) {
        return Err(EncodeError::CallOutOfPlace);
    }
    due.units = next.units - usize::from(more);
    due.behind = next.behind;
    Ok(())
}
