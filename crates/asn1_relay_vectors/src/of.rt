//! The calls of the library for a Rust type of the vectors.
use crate::relays::{feed_pieces, follow_octets};
use asn1_relay_core::{Codec, DecodeError, MemorySink, MemorySource, Relay, recode, run};
use asn1_relay_vectors_judging::judged::{Encoded, Judged, Ran, Rules, Step, Told, Translated};
use asn1_relay_vectors_judging::streams::{Relayed, Way};
use asn1_schema_decode::Decode;
use asn1_schema_encode::Encode;
use oer_codec::{coer, oer};
use per_codec::{aper, aper_strict, uper, uper_strict};
use std::alloc::{AllocError, Global};
use std::marker::PhantomData;

/// The type `T`.
#[derive(Drop)]
pub struct Of<T>(pub PhantomData<T>);

/// A relay of messages of a type.
fn relay_of<T: Encode + Decode>(alloc: Global, way: Way) -> Relay<T> {
    let limit = way.limit.octets;
    Relay::new(alloc, way.from, way.to, limit)
}

impl<T: Encode + Decode> Judged for Of<T> {
    fn is_relayed(&self) -> bool {
        true
    }

    fn translate(&self, alloc: Global, rules: Rules, octets: &[u8]) -> Translated {
        recode::<T>(alloc, rules.from, rules.to, octets)
    }

    fn front(&self, alloc: Global, rules: Rules, octets: &[u8]) -> Result<Told, DecodeError> {
        let (value, rest): (T, &[u8]) = read_front(alloc, rules.from, octets)?;
        Ok(Told::new(octets, rest, encode(alloc, rules.to, &value)))
    }

    fn follow(
        &self,
        alloc: Global,
        way: Way,
        octets: &[u8],
        ends: &[usize],
        out: &mut Vec<u8>,
    ) -> Result<Option<Vec<Step>>, AllocError> {
        let mut relay = relay_of::<T>(alloc, way);
        Ok(Some(follow_octets(alloc, &mut relay, octets, ends, out)?))
    }

    fn relay(
        &self,
        alloc: Global,
        way: Way,
        pieces: &[&[u8]],
        out: &mut Vec<u8>,
    ) -> Option<Relayed> {
        let mut relay = relay_of::<T>(alloc, way);
        Some(feed_pieces(&mut relay, pieces, out))
    }

    fn run(&self, alloc: Global, way: Way, octets: Vec<u8>) -> Option<Ran> {
        let mut source = MemorySource::new(octets, None);
        let mut sink = MemorySink::new(alloc, None);
        let limit = way.limit.octets;
        let answer = run::<T, MemorySource, MemorySink>(
            alloc,
            &mut source,
            &mut sink,
            way.from,
            way.to,
            limit,
        );
        Some((answer, sink))
    }
}

/// Decodes the value of a type with whose encoding octets begin, and borrows the octets after it.
fn read_front<'input, T: Decode>(
    alloc: Global,
    codec: Codec,
    octets: &'input [u8],
) -> Result<(T, &'input [u8]), DecodeError> {
    match codec {
        Codec::Uper => uper::decode_with_remainder(alloc, octets),
        Codec::Aper => aper::decode_with_remainder(alloc, octets),
        Codec::UperStrict => uper_strict::decode_with_remainder(alloc, octets),
        Codec::AperStrict => aper_strict::decode_with_remainder(alloc, octets),
        Codec::Oer => oer::decode_with_remainder(alloc, octets),
        Codec::Coer => coer::decode_with_remainder(alloc, octets),
    }
}

/// Encodes a value of a type.
fn encode<T: Encode>(alloc: Global, codec: Codec, value: &T) -> Encoded {
    match codec {
        Codec::Uper | Codec::UperStrict => uper::encode(alloc, value),
        Codec::Aper | Codec::AperStrict => aper::encode(alloc, value),
        Codec::Oer => oer::encode(alloc, value),
        Codec::Coer => coer::encode(alloc, value),
    }
}
