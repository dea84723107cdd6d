//! The calls of the library for a Rust type with constraints that are given to each call.
use asn1_relay_core::{Codec, DecodeError};
use asn1_relay_vectors_judging::judged::{Encoded, Judged, Ran, Rules, Step, Told, Translated};
use asn1_relay_vectors_judging::streams::{Relayed, Way};
use asn1_relay_vectors_lines::limits::Limits;
use asn1_relay_vectors_lines::line::LineError;
use asn1_schema_constraints::Constraints;
use asn1_schema_decode::Decode;
use asn1_schema_encode::Encode;
use oer_codec::{coer, oer};
use per_codec::{aper, aper_strict, uper, uper_strict};
use std::alloc::{AllocError, Global};
use std::marker::PhantomData;

/// The type `T` under constraints.
#[derive(Drop)]
pub struct Under<T> {
    limits: Limits,
    values: PhantomData<T>,
}

impl<T> Under<T> {
    /// The type under constraints as a line writes them.
    ///
    /// # Errors
    ///
    /// Those of `Limits::read`.
    pub fn read(alloc: Global, constraints: &str) -> Result<Under<T>, LineError> {
        Ok(Under {
            limits: Limits::read(alloc, constraints)?,
            values: PhantomData,
        })
    }
}

impl<T: Encode + Decode> Judged for Under<T> {
    fn is_relayed(&self) -> bool {
        false
    }

    fn translate(&self, alloc: Global, rules: Rules, octets: &[u8]) -> Translated {
        let constraints = self.limits.constraints();
        let value: T = read(alloc, &constraints, rules.from, octets)?;
        Ok(write(alloc, &constraints, rules.to, &value)?)
    }

    fn front(&self, alloc: Global, rules: Rules, octets: &[u8]) -> Result<Told, DecodeError> {
        let constraints = self.limits.constraints();
        let value: T = read(alloc, &constraints, rules.from, octets)?;
        let encoded = write(alloc, &constraints, rules.to, &value);
        Ok(Told {
            taken: None,
            encoded,
        })
    }

    fn follow(
        &self,
        _alloc: Global,
        _way: Way,
        _octets: &[u8],
        _ends: &[usize],
        _out: &mut Vec<u8>,
    ) -> Result<Option<Vec<Step>>, AllocError> {
        Ok(None)
    }

    fn relay(
        &self,
        _alloc: Global,
        _way: Way,
        _pieces: &[&[u8]],
        _out: &mut Vec<u8>,
    ) -> Option<Relayed> {
        None
    }

    fn run(&self, _alloc: Global, _way: Way, _octets: Vec<u8>) -> Option<Ran> {
        None
    }
}

/// Decodes a value of a type with constraints.
fn read<T: Decode>(
    alloc: Global,
    constraints: &Constraints<'_>,
    codec: Codec,
    octets: &[u8],
) -> Result<T, DecodeError> {
    match codec {
        Codec::Uper => uper::decode_with_constraints(alloc, constraints, octets),
        Codec::Aper => aper::decode_with_constraints(alloc, constraints, octets),
        Codec::UperStrict => uper_strict::decode_with_constraints(alloc, constraints, octets),
        Codec::AperStrict => aper_strict::decode_with_constraints(alloc, constraints, octets),
        Codec::Oer => oer::decode_with_constraints(alloc, constraints, octets),
        Codec::Coer => coer::decode_with_constraints(alloc, constraints, octets),
    }
}

/// Encodes a value of a type with constraints.
fn write<T: Encode>(
    alloc: Global,
    constraints: &Constraints<'_>,
    codec: Codec,
    value: &T,
) -> Encoded {
    match codec {
        Codec::Uper | Codec::UperStrict => {
            uper::encode_with_constraints(alloc, constraints, value)
        }
        Codec::Aper | Codec::AperStrict => {
            aper::encode_with_constraints(alloc, constraints, value)
        }
        Codec::Oer => oer::encode_with_constraints(alloc, constraints, value),
        Codec::Coer => coer::encode_with_constraints(alloc, constraints, value),
    }
}
