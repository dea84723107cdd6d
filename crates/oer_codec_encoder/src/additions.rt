//! Extension additions of sequences and sets, each an open type (X.696 16 and 30).
ghost use Rattle.std.specs.Prelude.{◌≡◌, OnErr, MatchResult};
ghost use Rattle.asn1_schema_laws.specs.Records.{additions_begin, addition, addition_ends};
ghost use Rattle.oer_codec_encoder.specs.EarlierOctets.{Keeps};
ghost use Rattle.oer_codec_encoder.specs.Holding.{AreSound, Does, Cannot};

use crate::frame::{Additions, Frame};
use crate::frames::Frames;
use crate::open_type::{insert_length, open_in_place};
use crate::sequences::{push_zeros, raise_bit};
use asn1_schema_errors::EncodeError;
use oer_codec_writing::{preamble_len, push_bits_heading};
use std::alloc::Global;

/// Begins the extension additions, after the root of a sequence or set with an extension marker (X.696 16): adds the
/// presence bitmap with all bits zero.
///
/// # Errors
///
/// `CallOutOfPlace` if the innermost frame does not take this call, and `OutOfMemory`.
#[inline(always)]
pub(crate) fn begin_additions(
    octets: &mut Vec<u8>,
    frames: &mut Frames,
    count: usize,
) -> Result<(), EncodeError>
    ensures step { MatchResult result (λ _. Does (additions_begin count) frames.old octets.old.items frames.new
        octets.new.items) (Cannot (additions_begin count) frames.old octets.old.items) }
    ensures kept { OnErr result (Keeps frames.old octets.old.items frames.new octets.new.items) }
{
    let Some(preamble) = frames.preamble() else {
        return Err(EncodeError::CallOutOfPlace);
    };
    if !preamble.extensible || preamble.due > 0 {
        return Err(EncodeError::CallOutOfPlace);
    }
    let root_end = octets.len();
    push_bits_heading(octets, count)?;
    let bitmap = octets.len();
    push_zeros(octets, preamble_len(false, count))?;
    frames.replace(Frame::Added(Additions {
        due: count,
        given: 0,
        any: false,
        bitmap,
        optional: preamble.given,
        start: preamble.start,
        root_end,
    }));
    Ok(())
}

/// Sets the bit of the next addition if it is present (X.696 16.4), and begins it as an open type after the previous
/// additions.
///
/// # Errors
///
/// `CallOutOfPlace` if the innermost frame does not take this call, and `OutOfMemory`.
#[inline(always)]
pub(crate) fn encode_addition(
    octets: &mut Vec<u8>,
    frames: &mut Frames,
    present: bool,
) -> Result<(), EncodeError>
    requires { AreSound frames.old octets.old.items }
    ensures step { MatchResult result (λ _. Does (addition present) frames.old octets.old.items frames.new
        octets.new.items) (Cannot (addition present) frames.old octets.old.items) }
    ensures kept { OnErr result (Keeps frames.old octets.old.items frames.new octets.new.items) }
{
    let Some(additions) = frames.next_addition(present) else {
        return Err(EncodeError::CallOutOfPlace);
    };
    if present {
        raise_bit(octets, additions.bitmap, additions.given);
        open_in_place(octets, frames)?;
    }
    Ok(())
}

/// Ends an addition that is present, and writes its length determinant (X.696 16.5).
///
/// # Errors
///
/// `CallOutOfPlace` if the innermost frame does not take this call, and `OutOfMemory`.
#[inline(always)]
pub(crate) fn end_addition(
    octets: &mut Vec<u8>,
    frames: &mut Frames,
    alloc: Global,
) -> Result<(), EncodeError>
    requires { AreSound frames.old octets.old.items }
    ensures step { MatchResult result
        (λ _. Does addition_ends frames.old octets.old.items frames.new octets.new.items)
        (Cannot addition_ends frames.old octets.old.items) }
    ensures kept { OnErr result (Keeps frames.old octets.old.items frames.new octets.new.items) }
{
    let Some(start) = frames.close_open_type() else {
        return Err(EncodeError::CallOutOfPlace);
    };
    let Some(_) = frames.additions() else {
        return Err(EncodeError::CallOutOfPlace);
    };
    insert_length(octets, alloc, start)?;
    Ok(())
}
