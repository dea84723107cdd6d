//! Sequences, sets and groups, with the positions of their preambles, and elements of lists and bags.
ghost use Rattle.std.specs.Prelude.{◌≡◌, Bool, List, ◌∷◌, ◌+◌, ◌≤◌, ◌^◌, cond, MatchOption, MatchResult};
ghost use Rattle.asn1_schema_laws.specs.Records.{sequence_begins, presence_bit, further};
ghost use Rattle.per_codec_encoder.specs.declared.frame.Frame.{Frame};
ghost use Rattle.per_codec_encoder.specs.Holding.{AreSound, Does, Cannot};
ghost use Rattle.per_codec_rules.specs.Variants.{is_aligned};

use crate::bags::next_of_bag;
use crate::frame::{Frame, Position};
use crate::frames::Frames;
use crate::members::next_of_list;
use asn1_schema_errors::EncodeError;
use asn1_schema_scopes::Stack;
use per_codec_packing::Packing;
use per_codec_rules::Variant;
use std::alloc::Global;

/// The position after a preamble that begins at a bit, if it fits in 64 bits.
fn preamble_end(start: usize, extensible: bool, optional: usize) -> Option<usize>
    ensures { MatchOption result (2 ^ 64 ≤ start + (cond extensible 1 0 + optional))
        (λ end. end ≡ start + (cond extensible 1 0 + optional)) }
{
    start
        .checked_add(optional)?
        .checked_add(usize::from(extensible))
}

/// Begins a sequence, a set or an extension addition group with its preamble (X.691 19.1 to 19.3), all bits zero.
///
/// # Errors
///
/// Only `OutOfMemory`.
#[inline]
pub(crate) fn begin_components(
    output: &mut Packing,
    frames: &mut Frames,
    extensible: bool,
    optional: usize,
) -> Result<(), EncodeError>
    ensures { MatchResult result (λ _. (al : Bool)
        → Does al (sequence_begins extensible optional) frames.old output.old frames.new output.new)
        (λ e. e ≡ EncodeError.OutOfMemory) }
{
    let start = Position::end_of(output);
    let Some(end) = preamble_end(start.bits, extensible, optional) else {
        return Err(EncodeError::OutOfMemory);
    };
    output.resize(end, false)?;
    frames.open(Frame::Components {
        extensible,
        due: optional,
        given: 0,
        start,
    })?;
    Ok(())
}

/// Sets the presence bit of the next component that may be absent (X.691 19.2 and 19.3).
///
/// # Errors
///
/// `CallOutOfPlace` if the innermost frame is not a sequence, set or group with a presence bit due.
#[inline(always)]
pub(crate) fn set_presence_bit(
    output: &mut Packing,
    others: &mut Stack<Frame>,
    present: bool,
) -> Result<(), EncodeError>
    requires { AreSound others.old output.old }
    ensures { MatchResult result (λ _. (al : Bool) → Does al (presence_bit present) others.old output.old others.new
        output.new)
        (λ e. (al : Bool) → Cannot al (presence_bit present) others.old output.old e) }
{
    let Some(innermost) = &mut others.innermost else {
        return Err(EncodeError::CallOutOfPlace);
    };
    let Frame::Components {
        extensible,
        due,
        given,
        start,
    } = innermost
    else {
        return Err(EncodeError::CallOutOfPlace);
    };
    if *due == 0 {
        return Err(EncodeError::CallOutOfPlace);
    }
    output.set(start.bits + usize::from(*extensible) + *given, present);
    *due -= 1;
    *given += 1;
    Ok(())
}

/// Begins a further element of the innermost frame, a list or bag, if `more`, else expects none to be due.
#[inline(always)]
fn next_of_frame(
    output: &mut Packing,
    innermost: &mut Frame,
    alloc: Global,
    variant: Variant,
    more: bool,
) -> Result<(), EncodeError>
    ensures { MatchResult result (λ _. (fs : List Frame)
        → Does (is_aligned variant) (further more) (innermost.old ∷ fs) output.old
        (innermost.new ∷ fs) output.new)
        (λ e. (fs : List Frame) → Cannot (is_aligned variant) (further more) (innermost.old ∷ fs) output.old e) }
{
    if let Frame::Members(due) = innermost {
        return next_of_list(output, variant, due, more);
    }
    match innermost {
        Frame::Bag(bag) => next_of_bag(output, bag, alloc, more),
        _ => Err(EncodeError::CallOutOfPlace),
    }
}

/// Begins a further element of a list or bag if `more`, else expects none to be due.
///
/// # Errors
///
/// `CallOutOfPlace` if the innermost frame is not a list or bag, or there are more or fewer elements than due;
/// `OutOfMemory`.
#[inline(always)]
pub(crate) fn next_member(
    output: &mut Packing,
    others: &mut Stack<Frame>,
    alloc: Global,
    variant: Variant,
    more: bool,
) -> Result<(), EncodeError>
    ensures { MatchResult result (λ _. Does (is_aligned variant) (further more)
        others.old output.old others.new output.new)
        (Cannot (is_aligned variant) (further more) others.old output.old) }
{
    let Some(innermost) = &mut others.innermost else {
        return Err(EncodeError::CallOutOfPlace);
    };
    next_of_frame(output, innermost, alloc, variant, more)
}
