//! Sequences, sets, extension addition groups and lists.
ghost use Rattle.std.specs.Prelude.{◌≡◌, ℕ, List, ltb, ◌-◌, ◌+◌, ◌*◌, ◌/◌, ◌%◌, ◌<◌, ◌++◌, ◌∷◌, [], cond, replicate};
ghost use Rattle.std.specs.Prelude.{OnErr, MatchResult, vec_len, true, slice_set, slice_index};
ghost use Rattle.asn1_model.specs.Numbers.{binary};
ghost use Rattle.asn1_model.specs.Versions.{Begins};
ghost use Rattle.asn1_schema_laws.specs.Records.{sequence_begins, presence_bit, list_begins};
ghost use Rattle.asn1_schema_constraints.specs.Bounds.{members_of};
ghost use Rattle.asn1_schema_constraints.specs.Terms.{sizes_of};
ghost use Rattle.oer_codec_encoder.specs.Frames.{NoMember};
ghost use Rattle.oer_codec_encoder.specs.EarlierOctets.{Keeps};
ghost use Rattle.oer_codec_encoder.specs.Holding.{AreSound, Does, Cannot};

use crate::frame::{Frame, Preamble};
use crate::frames::{Frames, SmallFrame};
use asn1_schema_constraints::{Bounded, Constraints};
use asn1_schema_errors::EncodeError;
use oer_codec_writing::{preamble_len, push_count};

/// Adds `count` zero octets.
#[inline]
pub(crate) fn push_zeros(octets: &mut Vec<u8>, count: usize) -> Result<(), EncodeError>
    ensures text { MatchResult result (λ _. octets.new.items ≡ octets.old.items ++ replicate count 0)
        (λ e. e ≡ EncodeError.OutOfMemory) }
    ensures kept { OnErr result (octets.new.items ≡ octets.old.items) }
{
    // Almost every preamble is one octet or none.
    if count == 0 {
        return Ok(());
    }
    if count == 1 {
        octets.push(0)?;
        return Ok(());
    }
    let Some(len) = octets.len().checked_add(count) else {
        return Err(EncodeError::OutOfMemory);
    };
    octets.resize(len, 0)?;
    Ok(())
}

/// Begins a sequence with its preamble (X.696 16.2), all bits zero.
///
/// # Errors
///
/// Only `OutOfMemory`.
#[inline]
pub(crate) fn begin_components(
    octets: &mut Vec<u8>,
    frames: &mut Frames,
    extensible: bool,
    optional: usize,
) -> Result<(), EncodeError>
    ensures step { MatchResult result (λ _. Does (sequence_begins extensible optional) frames.old octets.old.items
        frames.new octets.new.items) (λ e. e ≡ EncodeError.OutOfMemory) }
    ensures kept { OnErr result (Keeps frames.old octets.old.items frames.new octets.new.items) }
{
    let start = octets.len();
    push_zeros(octets, preamble_len(extensible, optional))?;
    frames.open(Frame::Components(Preamble {
        extensible,
        due: optional,
        given: 0,
        start,
    }))?;
    Ok(())
}

/// An octet with one of its bits set; index 0 is bit 8.
fn with_bit(octet: u8, index: u32) -> u8
    requires { index < 8 }
    ensures { binary 8 result ≡ slice_set (binary 8 octet) index true }
{
    octet | 1 << (7 - index)
}

/// Sets the bit at `place`, counted from the octet at `start`.
#[inline]
pub(crate) fn raise_bit(octets: &mut Vec<u8>, start: usize, place: usize)
    requires { start + place / 8 < vec_len octets.old }
    ensures others { octets.new.items ≡ slice_set octets.old.items (start + place / 8)
        (slice_index octets.new.items (start + place / 8)) }
    ensures bit { binary 8 (slice_index octets.new.items (start + place / 8))
        ≡ slice_set (binary 8 (slice_index octets.old.items (start + place / 8))) (place % 8) true }
{
    let at = start + place / 8;
    octets[at] = with_bit(octets[at], (place % 8) as u32);
}

/// Sets the presence bit of the next component that may be absent (X.696 16.2), if it is present.
///
/// # Errors
///
/// `CallOutOfPlace` if the innermost frame does not take this call, and `OutOfMemory`.
#[inline]
pub(crate) fn encode_presence_bit(
    octets: &mut Vec<u8>,
    frames: &mut Frames,
    present: bool,
) -> Result<(), EncodeError>
    requires { AreSound frames.old octets.old.items }
    ensures step { MatchResult result
        (λ _. Does (presence_bit present) frames.old octets.old.items frames.new octets.new.items)
        (Cannot (presence_bit present) frames.old octets.old.items) }
    ensures kept { OnErr result (Keeps frames.old octets.old.items frames.new octets.new.items) }
{
    let Some(preamble) = frames.next_presence_bit() else {
        return Err(EncodeError::CallOutOfPlace);
    };
    if present {
        let place = preamble.given + usize::from(preamble.extensible);
        raise_bit(octets, preamble.start, place);
    }
    Ok(())
}

/// Begins a list with its count (X.696 17), which the Rust type must be able to hold.
///
/// # Errors
///
/// `SizeConstraintNotSatisfied` if the Rust type cannot hold `count` elements, and `OutOfMemory`.
#[inline]
pub(crate) fn begin_members(
    octets: &mut Vec<u8>,
    frames: &mut Frames,
    constraints: &Constraints,
    held: Bounded<usize>,
    count: usize,
) -> Result<(), EncodeError>
    ensures step { MatchResult result
        (λ _. Does (list_begins (sizes_of constraints.now.size) (members_of held) count)
        frames.old octets.old.items frames.new octets.new.items)
        (Cannot (list_begins (sizes_of constraints.now.size) (members_of held) count) frames.old octets.old.items) }
    ensures kept { OnErr result (Keeps frames.old octets.old.items frames.new octets.new.items) }
{
    push_count(octets, held, count)?;
    frames.open_small(SmallFrame::Members { due: count })?;
    Ok(())
}

/// Counts a further element if `more`, else expects none to be due.
#[inline(always)]
pub(crate) fn count_member(due: &mut usize, more: bool) -> Result<(), EncodeError>
    ensures { MatchResult result (λ _. (more ≡ ltb 0 due.old) × (due.new ≡ due.old - cond more 1 0))
        (NoMember more due.old) }
{
    if more != (*due > 0) {
        return Err(EncodeError::CallOutOfPlace);
    }
    *due -= usize::from(more);
    Ok(())
}
