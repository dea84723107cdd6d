//! What encoders return, leave and refuse.
use crate::messages::{ADDED, NOTHING, add};
use crate::steps::{Lent, Step};
use asn1_schema_encode::{Encode, Encoder as Writing};
use asn1_schema_errors::EncodeError;
use asn1_schema_tags::{Chosen, Identifier, Tag};
use oer_codec::coer::{Encoder, EncoderOptions};
use per_codec::uper;
use std::alloc::{AllocError, Global};
use std::test::Fail;

/// SEQUENCE {..., a SEQUENCE {..., b BOOLEAN}} with b true, an addition in an addition.
const NESTED: [Step; 11] = [
    Step::Sequence(true, 0),
    Step::Additions(1),
    Step::Addition(true),
    Step::Sequence(true, 0),
    Step::Additions(1),
    Step::Addition(true),
    Step::Truth(true),
    Step::EndOfAddition,
    Step::End,
    Step::EndOfAddition,
    Step::End,
];

/// A message with this string.
fn of(string: &[u8]) -> Lent<'_> {
    Lent {
        tags: &[],
        places: &[],
        string,
    }
}

/// A worker of capacity 64 that holds octets of another message.
fn used_worker(alloc: Global) -> Result<Vec<u8>, AllocError> {
    let mut worker = Vec::with_capacity(alloc, 64)?;
    worker.extend_from_slice(&[0xAA, 0xBB, 0xCC])?;
    Ok(worker)
}

/// Three messages in sequence.
const THREE: [u8; 21] = [
    0x82, 0x04, 0x03, 0x01, 0x02, 0x03, 0x82, 0x02, 0x01, 0x04, 0x80, 0x02, 0x07, 0x80, 0x06, 0x80,
    0x02, 0x07, 0x80, 0x01, 0xFF,
];

/// Adds three messages with one worker. Returns whether they are as expected, and the worker keeps its capacity.
fn keeps_room(
    alloc: Global,
    buffer: &mut Vec<u8>,
    worker: &mut Vec<u8>,
) -> Result<bool, EncodeError> {
    let room = worker.capacity();
    add(alloc, buffer, worker, &ADDED, of(&[0x01, 0x02, 0x03]))?;
    add(alloc, buffer, worker, &ADDED, of(&[0x04]))?;
    let between = worker.capacity();
    add(alloc, buffer, worker, &NESTED, NOTHING)?;
    Ok(between == room && worker.capacity() == room && buffer.as_slice() == THREE.as_slice())
}

/// Whether a worker that holds something can be reused.
fn is_used_again(alloc: Global) -> Result<bool, EncodeError> {
    let mut worker = used_worker(alloc)?;
    let mut buffer = Vec::new(alloc);
    keeps_room(alloc, &mut buffer, &mut worker)
}

/// The contents of a worker do not matter. It keeps its capacity from message to message, even if one addition is in
/// another.
#[test]
fn one_worker_for_more_messages(rt: HostRuntime) -> Result<(), Fail> {
    let alloc = rt.alloc();
    assert!(rt; is_used_again(alloc)?);
    Ok(())
}

/// Writes true. Returns whether it alone is the output.
fn outputs_true(encoder: &mut Encoder<'_>) -> Result<bool, EncodeError> {
    true.encode(encoder)?;
    Ok(encoder.output().as_slice() == [0xFF].as_slice())
}

/// Whether an end with nothing open is refused, and then every call.
fn fails_for_good(encoder: &mut Encoder<'_>) -> bool {
    encoder.end() == Err(EncodeError::CallOutOfPlace)
        && encoder.encode_presence_bit(true) == Err(EncodeError::AlreadyFailed)
        && encoder.encode_bool(Tag::BOOL, true, Identifier::EMPTY)
            == Err(EncodeError::AlreadyFailed)
}

/// Whether each of two values, one written after the other, is the whole output, until the encoder fails.
fn outputs_two(encoder: &mut Encoder<'_>) -> Result<bool, EncodeError> {
    let first = outputs_true(encoder)?;
    let second = outputs_true(encoder)?;
    Ok(first && second && fails_for_good(encoder))
}

/// Whether an encoder does that.
fn two_are_put_out(alloc: Global) -> Result<bool, EncodeError> {
    let mut buffer = Vec::new(alloc);
    let mut worker = Vec::new(alloc);
    let options = EncoderOptions::coer();
    let mut encoder = Encoder::from_buffer(alloc, options, &mut buffer, &mut worker);
    outputs_two(&mut encoder)
}

/// Begins an addition of a choice that is not extensible, and so has none.
fn begin_without_marker<E: Writing>(encoder: &mut E, additions: &[Tag]) -> Result<(), EncodeError> {
    let roots = [Tag::new_context(0), Tag::new_context(1)];
    encoder.begin_choice(Tag::CHOICE, &roots, false, additions, Chosen::addition(0))
}

/// Whether an OER encoder refuses that.
fn refuses_without_marker(alloc: Global) -> bool {
    let mut buffer = Vec::new(alloc);
    let mut worker = Vec::new(alloc);
    let options = EncoderOptions::coer();
    let mut encoder = Encoder::from_buffer(alloc, options, &mut buffer, &mut worker);
    let answer = begin_without_marker(&mut encoder, &[Tag::new_context(2)]);
    answer == Err(EncodeError::ValueConstraintNotSatisfied)
}

#[test]
fn encoders_that_have_failed(rt: HostRuntime) {
    let alloc = rt.alloc();
    assert!(rt; two_are_put_out(alloc) == Ok(true));
    assert!(rt; refuses_without_marker(alloc));
}

/// Whether an encoder returns the octet of TRUE once, and then the octet of a message without bits.
fn gives_true_once(encoder: &mut uper::Encoder) -> Result<bool, EncodeError> {
    true.encode(encoder)?;
    let first = encoder.output()?;
    let second = encoder.output()?;
    Ok(first.as_slice() == [0x80].as_slice() && second.as_slice() == [0x00].as_slice())
}

/// Whether an encoder with nothing open refuses to end it, and then a presence bit.
fn refuses_to_end(encoder: &mut uper::Encoder) -> bool {
    encoder.end() == Err(EncodeError::CallOutOfPlace)
        && encoder.encode_presence_bit(true) == Err(EncodeError::AlreadyFailed)
}

/// Whether it does both.
fn is_taken_once(encoder: &mut uper::Encoder) -> bool {
    gives_true_once(encoder) == Ok(true) && refuses_to_end(encoder)
}

#[test]
fn what_is_held_is_taken_once(rt: HostRuntime) -> Result<(), Fail> {
    let alloc = rt.alloc();
    let options = uper::EncoderOptions::unaligned();
    let room = vec![in alloc; 1u8, 2, 3]?;
    let mut encoder = uper::Encoder::new_with_output(alloc, options, room);
    assert!(rt; is_taken_once(&mut encoder));
    Ok(())
}

#[test]
fn an_added_alternative_without_an_extension_marker(rt: HostRuntime) {
    let mut encoder = uper::Encoder::new(rt.alloc(), uper::EncoderOptions::aligned());
    assert!(rt; begin_without_marker(&mut encoder, &[]).is_err());
}
