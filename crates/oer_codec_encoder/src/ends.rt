//! Ends of frames.
ghost use Rattle.std.specs.Prelude.{◌≡◌, ◌<◌, ◌∷◌, OnErr, MatchResult, vec_len};
ghost use Rattle.asn1_model.specs.Versions.{Begins};
ghost use Rattle.asn1_schema_laws.specs.Records.{ends};
ghost use Rattle.oer_codec_encoder.specs.declared.frame.Frame.TheVariants.{Added};
ghost use Rattle.oer_codec_encoder.specs.Frames.{frame_of, NoEnd};
ghost use Rattle.oer_codec_encoder.specs.EarlierOctets.{Keeps};
ghost use Rattle.oer_codec_encoder.specs.Holding.{AreSound, BagEnds, Does, Cannot};

use crate::bags::{exchange, push_members};
use crate::frame::{Additions, Bag, Frame};
use crate::frames::SmallFrame;
use crate::open_type::insert_length;
use crate::sequences::raise_bit;
use asn1_schema_errors::EncodeError;
use std::alloc::Global;

/// Ends a sequence or set after its root (X.696 16), if no addition is due. If an addition is present, the extension
/// bit is set; if none is, the presence bitmap is removed.
#[inline(always)]
fn end_added(octets: &mut Vec<u8>, additions: Additions) -> Result<(), EncodeError>
    requires { additions.start < vec_len octets.old }
    ensures step { MatchResult result
        (λ _. (k : _) → Does ends (Added additions ∷ k) octets.old.items k octets.new.items)
        (λ e. (k : _) → Cannot ends (Added additions ∷ k) octets.old.items e) }
    ensures kept { OnErr result (octets.new.items ≡ octets.old.items) }
{
    if additions.due > 0 {
        return Err(EncodeError::CallOutOfPlace);
    }
    if !additions.any {
        octets.truncate(additions.root_end);
        return Ok(());
    }
    raise_bit(octets, additions.start, 0);
    Ok(())
}

/// Ends a bag (X.696 19), if no element is due: its elements follow the octets before it, which the bag kept until now.
fn end_bag(octets: &mut Vec<u8>, alloc: Global, bag: &mut Bag) -> Result<(), EncodeError>
    ensures step { MatchResult result (λ _. BagEnds bag.old octets.old.items octets.new.items) (NoEnd bag.old.due) }
    ensures kept { OnErr result (Begins bag.old.outer.items bag.new.outer.items) }
{
    if bag.due > 0 {
        return Err(EncodeError::CallOutOfPlace);
    }
    let Some(members) = bag.members.take() else {
        exchange(octets, bag);
        return Ok(());
    };
    push_members(&mut bag.outer, alloc, members, octets.as_slice())?;
    exchange(octets, bag);
    Ok(())
}

/// Ends a small frame, the innermost (X.696 17, 20 and 30).
///
/// # Errors
///
/// `CallOutOfPlace` if an element of a list is due, and `OutOfMemory`.
#[inline(always)]
pub(crate) fn end_small(
    octets: &mut Vec<u8>,
    alloc: Global,
    small: SmallFrame,
) -> Result<(), EncodeError>
    requires { (k : _) × AreSound (frame_of small ∷ k) octets.old.items }
    ensures step { MatchResult result
        (λ _. (k : _) → Does ends (frame_of small ∷ k) octets.old.items k octets.new.items)
        (λ e. (k : _) → Cannot ends (frame_of small ∷ k) octets.old.items e) }
    ensures kept { OnErr result ((k : _) → Keeps (frame_of small ∷ k) octets.old.items k octets.new.items) }
{
    match small {
        SmallFrame::Members { due: 0 } | SmallFrame::Alternative => Ok(()),
        SmallFrame::Members { .. } => Err(EncodeError::CallOutOfPlace),
        SmallFrame::OpenType { start } => insert_length(octets, alloc, start),
    }
}

/// Ends a frame that has nothing open inside (X.696 16, 17, 19, 20 and 30), if nothing is due: presence bits in a
/// sequence without an extension marker, additions in one with a marker, elements in a list or bag. Only a bag
/// changes: nothing is left in it. If it does not end, it still has the octets before it.
///
/// # Errors
///
/// `CallOutOfPlace` if something is due, and `OutOfMemory`.
#[inline(always)]
pub(crate) fn end_frame(
    octets: &mut Vec<u8>,
    alloc: Global,
    frame: &mut Frame,
) -> Result<(), EncodeError>
    requires { (k : _) × AreSound (frame.old ∷ k) octets.old.items }
    ensures step { MatchResult result (λ _. (k : _) → Does ends (frame.old ∷ k) octets.old.items k octets.new.items)
        (λ e. (k : _) → Cannot ends (frame.old ∷ k) octets.old.items e) }
    ensures kept { OnErr result ((k : _) → Keeps (frame.old ∷ k) octets.old.items (frame.new ∷ k) octets.new.items) }
{
    match frame {
        Frame::Components(preamble) => {
            if preamble.extensible || preamble.due > 0 {
                return Err(EncodeError::CallOutOfPlace);
            }
            Ok(())
        }
        Frame::Added(additions) => end_added(octets, *additions),
        Frame::OpenType { start } => insert_length(octets, alloc, *start),
        Frame::Members { due: 0 } | Frame::Alternative => Ok(()),
        Frame::Members { .. } => Err(EncodeError::CallOutOfPlace),
        Frame::Bag(bag) => end_bag(octets, alloc, bag),
    }
}
