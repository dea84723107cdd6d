//! Extension additions of sequences and sets, which are stored until these end.
ghost use Rattle.std.specs.Prelude.{◌≡◌, ◌⊎◌, ◌∷◌, Bool, IfErr, MatchResult, OnOk};
ghost use Rattle.asn1_schema_laws.specs.Records.{additions_begin, addition, addition_ends};
ghost use Rattle.per_codec_packing.specs.Packed.{Packed};
ghost use Rattle.per_codec_encoder.specs.declared.frame.Frame.{Frame};
ghost use Rattle.per_codec_encoder.specs.Frames.{CountsAddition, KeepsAddition, Next};
ghost use Rattle.per_codec_encoder.specs.Holding.{Does, Cannot};

use crate::frame::{Additions, Frame, Position};
use crate::frames::Frames;
use asn1_schema_errors::EncodeError;
use asn1_schema_scopes::Stack;
use asn1_values_bits::BitBuffer;
use per_codec_additions::Slots;
use per_codec_packing::Packing;
use std::alloc::Global;
use std::mem;

/// Begins the `count` extension additions, after the root of a sequence or set with an extension bit (X.691 19.7).
///
/// # Errors
///
/// `CallOutOfPlace` if the innermost frame is not a sequence or set with an extension bit, or a presence bit of it is
/// due; `OutOfMemory`.
pub(crate) fn open_additions(
    output: &Packing,
    others: &mut Stack<Frame>,
    alloc: Global,
    count: usize,
) -> Result<(), EncodeError>
    ensures { MatchResult result (λ _. (al : Bool)
        → Does al (additions_begin count) others.old output.now others.new output.now)
        (λ e. (al : Bool) → Cannot al (additions_begin count) others.old output.now e) }
{
    let Some(innermost) = &others.innermost else {
        return Err(EncodeError::CallOutOfPlace);
    };
    let Frame::Components {
        extensible,
        due,
        given,
        start,
    } = innermost
    else {
        return Err(EncodeError::CallOutOfPlace);
    };
    if !*extensible || *due > 0 {
        return Err(EncodeError::CallOutOfPlace);
    }
    let (given, start) = (*given, *start);
    let slots = Slots::with_capacity(alloc, count)?;
    others.innermost = Some(Frame::Added(Additions {
        due: count,
        given,
        start,
        end: Position::end_of(output),
        slots,
    }));
    Ok(())
}

/// Counts the next addition, and stores that it is absent if it is.
#[inline(always)]
pub(crate) fn count_addition(additions: &mut Additions, present: bool) -> Result<(), EncodeError>
    ensures { MatchResult result (λ _. Next present additions.old additions.new)
        (λ e. (e ≡ EncodeError.OutOfMemory)
        ⊎ ((e ≡ EncodeError.CallOutOfPlace) × (additions.old.due ≡ 0))) }
{
    if additions.due == 0 {
        return Err(EncodeError::CallOutOfPlace);
    }
    if !present {
        additions.slots.push_absent()?;
    }
    additions.due -= 1;
    Ok(())
}

/// Counts the next addition of the innermost sequence or set.
///
/// # Errors
///
/// `CallOutOfPlace` if the innermost frame takes no addition, or none is due; `OutOfMemory`.
#[inline(always)]
pub(crate) fn next_addition(others: &mut Stack<Frame>, present: bool) -> Result<(), EncodeError>
    ensures ok { OnOk result (CountsAddition present others.old others.new) }
    ensures only { IfErr result (λ e. (al : Bool) (o : Packed) → Cannot al (addition present) others.old o e) }
{
    match &mut others.innermost {
        Some(Frame::Added(additions)) => count_addition(additions, present)?,
        _ => return Err(EncodeError::CallOutOfPlace),
    }
    Ok(())
}

/// Stores the bits of an addition of the innermost sequence or set.
///
/// # Errors
///
/// `CallOutOfPlace` if the innermost frame takes no addition; `OutOfMemory`.
#[inline(always)]
pub(crate) fn keep_addition(
    others: &mut Stack<Frame>,
    contents: &BitBuffer,
) -> Result<(), EncodeError>
    ensures ok { OnOk result (KeepsAddition contents.now others.old others.new) }
    ensures only { IfErr result (λ e. (al : Bool) (outer o : Packed)
        → Cannot al addition_ends (Frame.OpenType outer ∷ others.old) o e) }
{
    match &mut others.innermost {
        Some(Frame::Added(additions)) => additions.slots.push_present(contents)?,
        _ => return Err(EncodeError::CallOutOfPlace),
    }
    Ok(())
}

/// Begins the next addition if it is present. Its bits are kept apart until it ends (X.691 11.2 and 19.9).
///
/// # Errors
///
/// `CallOutOfPlace` if no addition is due in the innermost frame; `OutOfMemory`.
#[inline]
pub(crate) fn encode_addition(
    output: &mut Packing,
    frames: &mut Frames,
    alloc: Global,
    present: bool,
) -> Result<(), EncodeError>
    ensures { MatchResult result (λ _. (al : Bool)
        → Does al (addition present) frames.old output.old frames.new output.new)
        (λ e. (al : Bool) → Cannot al (addition present) frames.old output.old e) }
{
    frames.next_addition(present)?;
    if present {
        frames.open_type(output, alloc)?;
    }
    Ok(())
}

/// Ends an addition, and stores its bits.
///
/// # Errors
///
/// `CallOutOfPlace` if the innermost frame is not an addition; `OutOfMemory`.
pub(crate) fn end_addition(output: &mut Packing, frames: &mut Frames) -> Result<(), EncodeError>
    ensures { MatchResult result (λ _. (al : Bool) → Does al addition_ends frames.old output.old frames.new output.new)
        (λ e. (al : Bool) → Cannot al addition_ends frames.old output.old e) }
{
    let Some(Frame::OpenType { outer }) = frames.close() else {
        return Err(EncodeError::CallOutOfPlace);
    };
    let contents = mem::replace(output, outer).into_bits();
    frames.keep_addition(contents)?;
    Ok(())
}
