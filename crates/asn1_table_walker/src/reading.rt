//! A value of a type of a table is read onto a tape.
#![tactic(auto, using(std::proofs::lemmas::Grind::common_steps))]

ghost use Rattle.std.specs.Prelude.{◌≡◌, ◌+◌, ◌≤◌, ◌++◌, [], ◌∷◌, Err, vec_len, reverse};
ghost use Rattle.std.specs.Prelude.{IfOk, IfErr, IfNone, IfSome, OnOk, OnErr};
ghost use Rattle.asn1_schema_decode.specs.Reads.{Unread};
ghost use Rattle.asn1_schema_errors.specs.Calls.{DecoderCall, SameLevel};
ghost use Rattle.asn1_table_laws.specs.Walks.{ReadsOnto, Stuck, Turns, GoesOn, StuckFrom};
ghost use Rattle.asn1_table_nodes.specs.Meaning.{type_at};
ghost use Rattle.asn1_table_tape.specs.Records.{records_of};
ghost use Rattle.asn1_table_walker.specs.Frames.{pending_of, pendings, turn_of, levels_closed};
ghost use Rattle.asn1_table_walker.specs.Frames.{with_frame, levels_in};

use crate::choices::turn_closing;
use crate::frames::{Frame, Turn};
use crate::members::turn_members;
use crate::noting::{turn_inside, turn_noting};
use crate::opening::open;
use crate::sequences::{turn_added, turn_root};
use asn1_schema_decode::Decoder;
use asn1_schema_errors::DecodeError;
use asn1_table_tape::Event;
use asn1_table_types::Types;
use std::alloc::Global;

/// For how many records there is room before the first one is kept.
const FIRST_RECORDS: usize = 21;

/// Reads the value of the type at this index of a table whose records are next, and puts the records of its normal
/// form on the tape. An index outside the table is that of a type without values. After an error the decoder has
/// failed, and no clause says what is on the tape.
///
/// # Errors
///
/// Those of the decoder; `OutOfMemory` also after 2^64 - 1 turns.
pub fn read_onto<D: Decoder>(
    alloc: Global,
    decoder: &mut D,
    types: &Types,
    place: usize,
    tape: &mut Vec<Event>,
) -> Result<(), DecodeError>
    ensures ok { OnOk result (ReadsOnto D.step (λ n. type_at types.now.nodes.items n place) (D.levels decoder.old)
        decoder.old decoder.new (records_of types.now.nodes.items tape.old.items)
        (records_of types.now.nodes.items tape.new.items)) }
    ensures only { IfErr result (Unread D.step D.too_few (λ n. type_at types.now.nodes.items n place)
        (D.levels decoder.old) decoder.old decoder.new) }
    ensures call { DecoderCall D.has_failed (SameLevel D.levels) decoder.old decoder.new result }
{
    // Where no memory is found for these, the first record that is kept fails.
    let _ = tape.reserve(FIRST_RECORDS);
    let mut outer = Vec::new(alloc);
    let mut innermost = open(alloc, decoder, types, place, tape)?;
    // No machine lasts for 2^64 turns, but a loop needs a bound.
    for _turn in 0..usize::MAX {
        let Some(frame) = take_innermost(innermost, &mut outer) else {
            return Ok(());
        };
        innermost = turn(alloc, decoder, types, frame, &mut outer, tape)?;
    }
    Err(decoder.refuse(DecodeError::OutOfMemory))
}

// Takes the innermost frame of a walk: that of the value that was read last, if this is not complete, or else the last
// of the outer ones.
fn take_innermost(innermost: Option<Frame>, outer: &mut Vec<Frame>) -> Option<Frame>
    ensures taken { IfSome result (λ f. with_frame innermost (reverse outer.old.items) ≡ f ∷ reverse outer.new.items) }
    ensures count { IfSome result (λ _. levels_in innermost + vec_len outer.old ≡ vec_len outer.new + 1) }
    ensures none { IfNone result (with_frame innermost (reverse outer.old.items) ≡ []) }
{
    match innermost {
        Some(frame) => Some(frame),
        None => outer.pop(),
    }
}

// One turn of the innermost frame: the next call that it asks for, and the beginning of a value that comes. Answers the
// frame that is then the innermost, unless that is one of the outer ones.
#[inline(always)]
fn turn<D: Decoder>(
    alloc: Global,
    decoder: &mut D,
    types: &Types,
    frame: Frame,
    outer: &mut Vec<Frame>,
    tape: &mut Vec<Event>,
) -> Result<Option<Frame>, DecodeError>
    ensures ok { IfOk result (λ o. GoesOn D.step D.too_few D.too_few_members
        (pendings types.now.nodes.items (D.levels decoder.old) (frame ∷ reverse outer.old.items))
        (pendings types.now.nodes.items (D.levels decoder.new) (with_frame o (reverse outer.new.items)))
        decoder.old decoder.new (records_of types.now.nodes.items tape.old.items)
        (records_of types.now.nodes.items tape.new.items)) }
    ensures level { IfOk result (λ o. D.levels decoder.new + (levels_in o + vec_len outer.new)
        ≡ D.levels decoder.old + (vec_len outer.old + 1)) }
    ensures only { IfErr result (StuckFrom D.step D.too_few D.too_few_members
        (pendings types.now.nodes.items (D.levels decoder.old) (frame ∷ reverse outer.old.items))
        decoder.old decoder.new (records_of types.now.nodes.items tape.old.items)) }
    ensures going { OnOk result (D.has_failed decoder.new → D.has_failed decoder.old) }
    ensures failed { OnErr result (D.has_failed decoder.new) }
    ensures after { result ≡ Err DecodeError.AlreadyFailed → D.has_failed decoder.old }
{
    match go_on(alloc, decoder, types, frame, tape)? {
        Turn::Ended => Ok(None),
        Turn::Again(rest) => Ok(Some(rest)),
        Turn::Value(rest, place) => {
            let opened = open(alloc, decoder, types, place, tape)?;
            let innermost = enter(decoder, outer, rest, opened)?;
            Ok(Some(innermost))
        }
    }
}

// The next call that a frame asks for.
fn go_on<D: Decoder>(
    alloc: Global,
    decoder: &mut D,
    types: &Types,
    frame: Frame,
    tape: &mut Vec<Event>,
) -> Result<Turn, DecodeError>
    ensures ok { IfOk result (λ t. Turns D.step D.too_few D.too_few_members
        (pending_of types.now.nodes.items (D.levels decoder.old) frame)
        (turn_of types.now.nodes.items (D.levels decoder.old) t) decoder.old decoder.new
        (records_of types.now.nodes.items tape.old.items)
        (records_of types.now.nodes.items tape.new.items)) }
    ensures level { IfOk result (λ t. D.levels decoder.new ≡ D.levels decoder.old + levels_closed t) }
    ensures only { IfErr result (Stuck D.step D.too_few D.too_few_members
        (pending_of types.now.nodes.items (D.levels decoder.old) frame)
        (records_of types.now.nodes.items tape.old.items) decoder.old decoder.new) }
    ensures going { OnOk result (D.has_failed decoder.new → D.has_failed decoder.old) }
    ensures failed { OnErr result (D.has_failed decoder.new) }
    ensures after { result ≡ Err DecodeError.AlreadyFailed → D.has_failed decoder.old }
{
    match frame {
        Frame::Members {
            list,
            begins,
            count,
        } => turn_members(alloc, decoder, types, list, begins, count, tape),
        Frame::Root { sequence, next } => turn_root(decoder, types, sequence, next, tape),
        Frame::Noting {
            sequence,
            component,
            from,
        } => turn_noting(decoder, types, sequence, component, from, tape),
        Frame::Added { sequence, next } => turn_added(decoder, types, sequence, next, tape),
        Frame::Inside {
            sequence,
            component,
            from,
        } => turn_inside(decoder, types, sequence, component, from, tape),
        Frame::Alternative { value } => Ok(Turn::Value(Frame::Closing, value)),
        Frame::Closing => turn_closing(decoder, tape),
    }
}

// The innermost frame after a value: its own, if it has only begun, inside of the rest; otherwise the rest. If memory
// runs out, the decoder fails.
fn enter<D: Decoder>(
    decoder: &mut D,
    outer: &mut Vec<Frame>,
    rest: Frame,
    opened: Option<Frame>,
) -> Result<Frame, DecodeError>
    ensures entered { IfOk result
        (λ f. f ∷ reverse outer.new.items ≡ with_frame opened (rest ∷ reverse outer.old.items)) }
    ensures count { OnOk result (vec_len outer.new ≡ vec_len outer.old + levels_in opened) }
    ensures same { OnOk result (decoder.new ≡ decoder.old) }
    ensures memory { IfErr result (λ e. e ≡ DecodeError.OutOfMemory) }
    ensures failed { OnErr result (D.has_failed decoder.new) }
{
    match opened {
        None => Ok(rest),
        Some(frame) => {
            push(decoder, outer, rest)?;
            Ok(frame)
        }
    }
}

// Pushes a frame. If memory runs out, the decoder fails.
fn push<D: Decoder>(
    decoder: &mut D,
    outer: &mut Vec<Frame>,
    frame: Frame,
) -> Result<(), DecodeError>
    ensures pushed { OnOk result (outer.new.items ≡ outer.old.items ++ frame ∷ []) }
    ensures count { OnOk result (vec_len outer.new ≡ vec_len outer.old + 1) }
    ensures same { OnOk result (decoder.new ≡ decoder.old) }
    ensures memory { IfErr result (λ e. e ≡ DecodeError.OutOfMemory) }
    ensures failed { OnErr result (D.has_failed decoder.new) }
{
    let Ok(()) = outer.push(frame) else {
        return Err(decoder.refuse(DecodeError::OutOfMemory));
    };
    Ok(())
}
