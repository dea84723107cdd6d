//! Open types (X.696 30), written in place.
ghost use Rattle.std.specs.Prelude.{◌≡◌, ◌+◌, ◌<◌, ◌++◌, ◌∷◌, [], length, take, drop, OnOk, OnErr, MatchResult};
ghost use Rattle.std.specs.Prelude.{slice_set, vec_len};
ghost use Rattle.asn1_model.specs.Form.{written};
ghost use Rattle.asn1_model.specs.Oer.{counted};
ghost use Rattle.asn1_model.specs.Versions.{Begins};
ghost use Rattle.oer_codec_encoder.specs.declared.frame.Frame.TheVariants.{OpenType};
ghost use Rattle.oer_codec_writing.specs.Writing.{Adds};

use crate::frames::{Frames, SmallFrame};
use asn1_schema_errors::EncodeError;
use oer_codec_writing::{push_counted, short_length};
use std::alloc::{AllocError, Global};

/// Opens an open type at the end of the octets, after one octet reserved for its length determinant.
#[inline(always)]
pub(crate) fn open_in_place(octets: &mut Vec<u8>, frames: &mut Frames) -> Result<(), AllocError>
    ensures octets { OnOk result (octets.new.items ≡ octets.old.items ++ 0 ∷ []) }
    ensures frames { OnOk result (frames.new ≡ OpenType (length octets.old.items) ∷ frames.old) }
    ensures kept { OnErr result (Begins octets.old.items octets.new.items) }
    ensures still { OnErr result (frames.new ≡ frames.old) }
{
    let start = octets.len();
    octets.push(0)?;
    frames.open_small(SmallFrame::OpenType { start })?;
    Ok(())
}

/// Sets one octet.
#[inline(always)]
fn set_octet(octets: &mut Vec<u8>, at: usize, octet: u8)
    requires { at < vec_len octets.old }
    ensures { octets.new.items ≡ slice_set octets.old.items at octet }
{
    octets[at] = octet;
}

/// Writes the length determinant of the octets after its reserved octet (X.696 8.6 and 30). A longer determinant
/// moves those octets.
#[inline(always)]
pub(crate) fn insert_length(
    octets: &mut Vec<u8>,
    alloc: Global,
    start: usize,
) -> Result<(), EncodeError>
    requires { start < vec_len octets.old }
    ensures text { MatchResult result (λ _. Adds (written (counted (drop (start + 1) octets.old.items)) 0)
        (take start octets.old.items) octets.new.items) (λ e. e ≡ EncodeError.OutOfMemory) }
    ensures kept { OnErr result (Begins (take start octets.old.items) octets.new.items) }
{
    let length = octets.len() - start - 1;
    match short_length(length) {
        Some(octet) => set_octet(octets, start, octet),
        None => insert_long_length(octets, alloc, start)?,
    }
    Ok(())
}

/// Inserts a length determinant of any size before the octets after its reserved octet.
#[inline(never)]
fn insert_long_length(octets: &mut Vec<u8>, alloc: Global, start: usize) -> Result<(), EncodeError>
    requires { start < vec_len octets.old }
    ensures text { MatchResult result (λ _. Adds (written (counted (drop (start + 1) octets.old.items)) 0)
        (take start octets.old.items) octets.new.items) (λ e. e ≡ EncodeError.OutOfMemory) }
    ensures kept { OnErr result (Begins (take start octets.old.items) octets.new.items) }
{
    let contents = Vec::from_slice(alloc, &octets[start + 1..])?;
    octets.truncate(start);
    push_counted(octets, contents.as_slice())?;
    Ok(())
}
