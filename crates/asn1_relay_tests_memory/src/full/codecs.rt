//! Calls of codecs and relays that take no memory, and the test of all such calls.
use crate::full::memory::{is_taken, take_memory};
use crate::full::values::wrong_values;
use asn1_relay_core::{
    Codec, DecodeError, EncodeError, Relay, RelayFault, RelayFaultKind, recode_into,
};
use asn1_relay_types::Small;
use asn1_schema::records::{Item, RecordDecoder, RecordEncoder};
use asn1_schema::{CodecKind, Decoder, Encoder, Identifier, Tag};
use oer_codec::oer;
use per_codec::uper;
use std::alloc::{AllocError, Global};
use std::process::Abort;

/// Whether a decoder finds TRUE, NULL and nothing after them.
fn finds_both<D: Decoder>(decoder: &mut D) -> bool {
    decoder.decode_bool(Tag::BOOL) == Ok(true)
        && decoder.decode_null(Tag::NULL) == Ok(())
        && decoder.decode_bool(Tag::BOOL) == Err(DecodeError::Incomplete)
        && decoder.decode_null(Tag::NULL) == Err(DecodeError::AlreadyFailed)
}

/// Whether a decoder of octets does.
fn are_octets_found(alloc: Global, options: oer::DecoderOptions) -> bool {
    let mut decoder = oer::Decoder::new(alloc, &[0xFF], options);
    finds_both(&mut decoder)
}

/// Whether a decoder of one bit does.
fn is_bit_found(alloc: Global, options: uper::DecoderOptions) -> bool {
    let mut decoder = uper::Decoder::new(alloc, &[0x80], options);
    decoder.decode_bool(Tag::BOOL) == Ok(true)
        && decoder.decode_null(Tag::NULL) == Ok(())
        && decoder.input().len() == 7
}

/// Whether the decoder over records does.
fn are_records_found(records: Vec<Item>) -> bool {
    let mut decoder = RecordDecoder::new(records, CodecKind::Uper);
    finds_both(&mut decoder)
}

/// The records of TRUE and NULL.
fn records(alloc: Global) -> Result<Vec<Item>, EncodeError> {
    let mut encoder = RecordEncoder::new(alloc, CodecKind::Uper);
    encoder.encode_bool(Tag::BOOL, true, Identifier::EMPTY)?;
    encoder.encode_null(Tag::NULL, Identifier::EMPTY)?;
    Ok(encoder.into_items())
}

/// Whether options are made.
fn are_options() -> bool {
    uper::EncoderOptions::aligned().is_aligned() && !uper::EncoderOptions::unaligned().is_aligned()
}

/// The error at the first message.
fn at_first(kind: RelayFaultKind) -> Result<(), RelayFault> {
    Err(RelayFault { number: 0, kind })
}

/// Whether a new relay reports its state, and an empty piece changes nothing.
fn is_idle(relay: &mut Relay<Small>, out: &mut Vec<u8>) -> bool {
    relay.unread_len() == 0
        && !relay.has_failed()
        && relay.finish() == Ok(())
        && relay.feed(&[], out) == Ok(())
}

/// Whether a relay that is just created does.
fn is_new_idle(alloc: Global) -> bool {
    let mut relay = Relay::new(alloc, Codec::Coer, Codec::Uper, 1);
    is_idle(&mut relay, &mut Vec::new(alloc))
}

/// Whether a relay that waits for more than an octet reports that.
fn is_waiting(relay: &Relay<Small>) -> bool {
    relay.unread_len() == 1
        && !relay.has_failed()
        && relay.finish() == at_first(RelayFaultKind::NoForm)
}

/// Whether a relay that stopped because memory ran out reports that.
fn is_stopped(relay: &Relay<Small>) -> bool {
    relay.has_failed() && relay.finish() == at_first(RelayFaultKind::AlreadyFailed)
}

/// Whether numbers are translated into vectors that have capacity for them, after an octet, and one that is too large
/// adds nothing.
fn are_translated(alloc: Global, room: &mut Vec<u8>, out: &mut Vec<u8>) -> bool {
    recode_into::<Small>(alloc, Codec::Coer, Codec::Uper, &[0x03], room, out) == Ok(())
        && recode_into::<Small>(alloc, Codec::Uper, Codec::Coer, &[0x80], room, out) == Ok(())
        && recode_into::<Small>(alloc, Codec::Uper, Codec::Coer, &[0xF0], room, out).is_err()
        && out.as_slice() == [0xAA, 0x80, 0x03].as_slice()
}

/// What the calls are made on. It was created before memory was taken.
#[derive(Drop)]
struct Prepared {
    records: Vec<Item>,
    relay: Relay<Small>,
    room: Vec<u8>,
    out: Vec<u8>,
}

/// Creates it, with a relay that waits.
fn prepare(alloc: Global) -> Result<Prepared, EncodeError> {
    let records = records(alloc)?;
    let mut relay = Relay::new(alloc, Codec::Coer, Codec::Uper, 1);
    let room = Vec::with_capacity(alloc, 8)?;
    let mut out = Vec::with_capacity(alloc, 8)?;
    out.push(0xAA)?;
    match relay.feed(&[0x06], &mut Vec::new(alloc)) {
        Ok(()) => Ok(Prepared {
            records,
            relay,
            room,
            out,
        }),
        Err(_) => Err(EncodeError::OutOfMemory),
    }
}

/// The first group of calls of codecs and relays that is not right, if there is one.
fn wrong_calls(alloc: Global, prepared: Prepared) -> Option<&'static str> {
    let Prepared {
        records,
        relay,
        mut room,
        mut out,
    } = prepared;
    let found = [
        ("oer", are_octets_found(alloc, oer::DecoderOptions::oer())),
        ("coer", are_octets_found(alloc, oer::DecoderOptions::coer())),
        (
            "uper",
            is_bit_found(alloc, uper::DecoderOptions::unaligned()),
        ),
        ("aper", is_bit_found(alloc, uper::DecoderOptions::aligned())),
        ("options", are_options()),
        ("a new relay", is_new_idle(alloc)),
        ("a waiting relay", is_waiting(&relay)),
        ("recode_into", are_translated(alloc, &mut room, &mut out)),
        ("records", are_records_found(records)),
    ];
    for (name, is_right) in found {
        if !is_right {
            return Some(name);
        }
    }
    wrong_values(alloc)
}

/// The first group of calls that is not right with enough memory.
fn wrong_first(alloc: Global) -> Option<&'static str> {
    match prepare(alloc) {
        Ok(prepared) => wrong_calls(alloc, prepared),
        Err(_) => Some("no memory"),
    }
}

/// The first group of calls that is not right while all memory is taken.
fn wrong_when_taken(alloc: Global, prepared: Prepared) -> Option<&'static str> {
    match take_memory(alloc) {
        Ok(_taken) if is_taken(alloc) => wrong_calls(alloc, prepared),
        _ => Some("memory"),
    }
}

/// Ends the test, and shows what is wrong, if anything is.
fn assert_none(rt: &impl Abort, wrong: &Option<&'static str>) {
    assert!(rt; wrong.is_none(), "{wrong:?}");
}

/// The calls are made with enough memory first, so that the stack has grown.
#[test]
fn calls_that_take_no_memory(rt: HostRuntime) {
    assert_none(&rt, &wrong_first(rt.alloc()));
    match prepare(rt.alloc()) {
        Ok(prepared) => assert_none(&rt, &wrong_when_taken(rt.alloc(), prepared)),
        Err(_) => assert_none(&rt, &Some("no memory")),
    }
}
