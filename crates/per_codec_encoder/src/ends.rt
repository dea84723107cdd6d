//! Ends of frames.
ghost use Rattle.std.specs.Prelude.{◌≡◌, ◌<◌, ◌∷◌, Bool, List, true, false, length, IfOk, IfErr};
ghost use Rattle.std.specs.Prelude.{MatchResult};
ghost use Rattle.asn1_model.specs.Form.{is_any_present};
ghost use Rattle.asn1_model.specs.Per.{additions};
ghost use Rattle.asn1_schema_laws.specs.Records.{ends};
ghost use Rattle.per_codec_packing.specs.Packed.{Adds, Packed, place, solid, with_bit};
ghost use Rattle.per_codec_packing.specs.FieldLists.{field_list_at};
ghost use Rattle.per_codec_additions.specs.Additions.{as_open_types};
ghost use Rattle.per_codec_encoder.specs.declared.frame.Frame.{Frame};
ghost use Rattle.per_codec_encoder.specs.Frames.{is_written_at_end};
ghost use Rattle.per_codec_encoder.specs.Holding.{AreSound, Does, Cannot};
ghost use Rattle.per_codec_rules.specs.Variants.{is_aligned};

use crate::bags::end_bag;
use crate::frame::{Additions, Frame};
use crate::frames::Frames;
use asn1_schema_errors::EncodeError;
use asn1_schema_scopes::Stack;
use per_codec_additions::{Slots, push_additions};
use per_codec_packing::Packing;
use per_codec_rules::Variant;
use per_codec_writing::push_open_type;
use std::alloc::Global;
use std::mem;

/// Sets the extension bit and adds the additions, if one is present (X.691 19.1 and 19.7 to 19.9). The only error is
/// `OutOfMemory`.
fn push_extension(
    output: &mut Packing,
    variant: Variant,
    extension_bit: usize,
    slots: &Slots,
) -> Result<(), EncodeError>
    requires { extension_bit < length (solid output.old.field_list) }
    ensures only { IfErr result (λ e. e ≡ EncodeError.OutOfMemory) }
    ensures some { IfOk result (λ _. is_any_present slots.now ≡ true
        → Adds (field_list_at (additions (is_aligned variant) (as_open_types (is_aligned variant) slots.now))
        (place output.old))
        (record { field_list = with_bit extension_bit true output.old.field_list; placed = output.old.placed })
        output.new) }
    ensures none { IfOk result (λ _. is_any_present slots.now ≡ false → output.new ≡ output.old) }
{
    if !slots.is_any_present() {
        return Ok(());
    }
    output.set(extension_bit, true);
    push_additions(output, variant, slots)?;
    Ok(())
}

/// Ends a sequence or set after its root, if no addition is due: if one is present, the additions follow the root,
/// and the extension bit is set (X.691 19.1 and 19.7 to 19.9).
#[inline(always)]
fn end_additions(
    output: &mut Packing,
    additions: Additions,
    variant: Variant,
) -> Result<(), EncodeError>
    requires { (around : List Frame) × AreSound (Frame.Added additions ∷ around) output.old }
    ensures { MatchResult result (λ _. (around : List Frame)
        → Does (is_aligned variant) ends (Frame.Added additions ∷ around) output.old around output.new)
        (λ e. (around : List Frame) → Cannot (is_aligned variant) ends (Frame.Added additions ∷ around)
        output.old e) }
{
    if additions.due > 0 {
        return Err(EncodeError::CallOutOfPlace);
    }
    output.truncate(additions.end.bits, additions.end.paddings);
    push_extension(output, variant, additions.start.bits, &additions.slots)?;
    Ok(())
}

/// Ends an open type: appends its length determinant and its octets to what precedes it (X.691 11.2). The only error
/// is `OutOfMemory`.
#[inline(always)]
fn end_open_type(output: &mut Packing, outer: Packing, variant: Variant) -> Result<(), EncodeError>
    ensures { MatchResult result (λ _. (around : List Frame)
        → Does (is_aligned variant) ends (Frame.OpenType outer ∷ around) output.old around output.new)
        (λ e. e ≡ EncodeError.OutOfMemory) }
{
    let contents = mem::replace(output, outer).into_bits();
    push_open_type(output, variant, &contents)?;
    Ok(())
}

/// Whether nothing is due in a frame, and nothing is written at its end.
#[inline(always)]
fn is_complete(frame: &Frame) -> bool
    ensures complete { result ≡ true → (al : Bool) (fs : List Frame) (o : Packed)
        → Does al ends (frame.now ∷ fs) o fs o }
    ensures due { result ≡ false → is_written_at_end frame.now ≡ false → (al : Bool) (fs : List Frame) (o : Packed)
        → Cannot al ends (frame.now ∷ fs) o EncodeError.CallOutOfPlace }
{
    match frame {
        Frame::Components {
            extensible,
            due,
            ..
        } => {
            if *extensible || *due > 0 {
                return false;
            }
            true
        }
        Frame::Members(due) => {
            if due.units > 0 || due.behind.is_some() {
                return false;
            }
            true
        }
        Frame::Alternative => true,
        _ => false,
    }
}

/// Ends the innermost frame, if nothing is due in it and nothing is written at its end. Returns whether it did.
#[inline(always)]
pub(crate) fn end_complete(others: &mut Stack<Frame>) -> bool
    ensures ended { result ≡ true → (al : Bool) (o : Packed) → Does al ends others.old o others.new o }
    ensures same { result ≡ false → others.new ≡ others.old }
{
    let Some(innermost) = &others.innermost else {
        return false;
    };
    if !is_complete(innermost) {
        return false;
    }
    let _closed = others.close();
    true
}

/// Ends the innermost frame, as `end_scope` does.
fn end_taken(
    output: &mut Packing,
    frames: &mut Frames,
    alloc: Global,
    variant: Variant,
) -> Result<(), EncodeError>
    requires { AreSound frames.old output.old }
    ensures { MatchResult result (λ _. Does (is_aligned variant) ends frames.old output.old frames.new output.new)
        (Cannot (is_aligned variant) ends frames.old output.old) }
{
    match frames.close() {
        Some(Frame::Added(additions)) => end_additions(output, additions, variant),
        Some(Frame::OpenType { outer }) => end_open_type(output, outer, variant),
        Some(Frame::Bag(boxed)) => {
            let bag = Box::into_inner(boxed);
            if bag.due > 0 {
                return Err(EncodeError::CallOutOfPlace);
            }
            end_bag(output, bag, alloc, variant)?;
            Ok(())
        }
        Some(frame) => {
            if !is_complete(&frame) {
                return Err(EncodeError::CallOutOfPlace);
            }
            Ok(())
        }
        None => Err(EncodeError::CallOutOfPlace),
    }
}

/// Ends the innermost frame: a sequence, set or group with nothing due (X.691 19), a list with all its elements and
/// length determinants (X.691 20), a bag (X.691 22), an open type (X.691 11.2) or an alternative (X.691 23).
///
/// # Errors
///
/// `CallOutOfPlace` if nothing is open, or something is due in the innermost frame; `OutOfMemory`.
#[inline(always)]
pub(crate) fn end_scope(
    output: &mut Packing,
    frames: &mut Frames,
    alloc: Global,
    variant: Variant,
) -> Result<(), EncodeError>
    requires { AreSound frames.old output.old }
    ensures { MatchResult result (λ _. Does (is_aligned variant) ends frames.old output.old frames.new output.new)
        (Cannot (is_aligned variant) ends frames.old output.old) }
{
    if frames.end_complete() {
        return Ok(());
    }
    end_taken(output, frames, alloc, variant)
}
