//! Bags, whose elements are stored until they end.
ghost use Rattle.std.specs.Prelude.{◌≡◌, Bool, MatchResult, IfOk};
ghost use Rattle.asn1_schema_laws.specs.Records.{bag_begins};
ghost use Rattle.asn1_schema_constraints.specs.Bounds.{members_of};
ghost use Rattle.asn1_schema_constraints.specs.Terms.{size_of};
ghost use Rattle.per_codec_packing.specs.Packed.{Adds, place};
ghost use Rattle.per_codec_encoder.specs.Steps.{with_open};
ghost use Rattle.per_codec_packing.specs.FieldLists.{field_list_at};
ghost use Rattle.per_codec_writing.specs.Writing.{Refuses};
ghost use Rattle.per_codec_encoder.specs.Bags.{form_of, GoesOnInBag, NoFurther};
ghost use Rattle.per_codec_encoder.specs.Holding.{Does, Cannot};
ghost use Rattle.per_codec_rules.specs.Variants.{is_aligned};

use crate::frame::{Bag, Frame};
use crate::frames::Frames;
use asn1_schema_constraints::{Bounded, Sizes};
use asn1_schema_errors::EncodeError;
use per_codec_packing::{FieldLists, Packing};
use per_codec_rules::Variant;
use per_codec_writing::push_bag;
use std::alloc::{AllocError, Global};
use std::mem;

/// Begins a bag (X.691 22) of `count` elements, if the size and the Rust type allow that many. The count is checked
/// here, and written at the end of the bag.
///
/// # Errors
///
/// `SizeConstraintNotSatisfied` if the Rust type does not hold that many elements, or a size without an extension
/// marker does not admit them; `OutOfMemory`.
pub(crate) fn begin_bag(
    output: &mut Packing,
    frames: &mut Frames,
    alloc: Global,
    sizes: Sizes,
    held: Bounded<usize>,
    count: usize,
) -> Result<(), EncodeError>
    ensures { MatchResult result (λ _. (al : Bool)
        → Does al (bag_begins (size_of sizes) (members_of held) count) frames.old output.old frames.new output.new)
        (λ e. (al : Bool) → Cannot al (bag_begins (size_of sizes) (members_of held) count) frames.old output.old e) }
{
    if !sizes.admits(held, count) {
        return Err(EncodeError::SizeConstraintNotSatisfied);
    }
    let outer = mem::replace(output, Packing::unplaced(alloc));
    let bag = Bag {
        outer,
        sizes,
        held,
        due: count,
        members: None,
    };
    let boxed = Box::new(alloc, bag)?;
    frames.open(Frame::Bag(boxed))?;
    Ok(())
}

/// Begins a further element of a bag if `more`, else expects none to be due. Each element begins a new field-list.
///
/// # Errors
///
/// `CallOutOfPlace` if there are more or fewer elements than due; `OutOfMemory`.
pub(crate) fn next_of_bag(
    output: &mut Packing,
    bag: &mut Bag,
    alloc: Global,
    more: bool,
) -> Result<(), EncodeError>
    ensures { MatchResult result (λ _. GoesOnInBag more bag.old output.old bag.new output.new)
        (λ e. NoFurther more bag.old output.old e) }
{
    if more != (bag.due > 0) {
        return Err(EncodeError::CallOutOfPlace);
    }
    if !more {
        return Ok(());
    }
    match &mut bag.members {
        None => bag.members = Some(FieldLists::new(alloc)),
        Some(members) => members.push(output)?,
    }
    output.truncate(0, 0);
    bag.due -= 1;
    Ok(())
}

/// The elements before the open one, and the open one last, if one is open.
fn all_members(
    members: Option<FieldLists>,
    last: &Packing,
    alloc: Global,
) -> Result<FieldLists, AllocError>
    ensures { IfOk result (λ all. all ≡ with_open members last.now.field_list) }
{
    let Some(mut all) = members else {
        return Ok(FieldLists::new(alloc));
    };
    all.push(last)?;
    Ok(all)
}

/// Ends a bag, if no element is due: adds its length determinant and its elements in order, after what precedes the bag
/// (X.691 22).
pub(crate) fn end_bag(
    output: &mut Packing,
    bag: Bag,
    alloc: Global,
    variant: Variant,
) -> Result<(), EncodeError>
    ensures { MatchResult result (λ _. Adds
        (field_list_at (form_of (is_aligned variant) bag (with_open bag.members output.old.field_list)) (place
        bag.outer))
        bag.outer output.new)
        (Refuses (field_list_at (form_of (is_aligned variant) bag (with_open bag.members output.old.field_list))
        (place bag.outer))) }
{
    let members = all_members(bag.members, output, alloc)?;
    *output = bag.outer;
    push_bag(alloc, output, variant, bag.sizes, bag.held, &members)?;
    Ok(())
}
