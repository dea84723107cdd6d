//! Calls on one message.
use crate::parcel::{Parcel, is_parcel, parcel, parcels};
use crate::trial::{Outcome, Trial};
use asn1_relay_core::{Codec, DecodeError, EncodeError, RecodeFault, recode, recode_into};
use oer_codec::{coer, oer};
use per_codec::{aper, aper_strict, uper, uper_strict};
use std::alloc::{AllocError, Global};

/// The rules, of the other family, into which `recode` and `feed` translate.
pub fn target_of(source: Codec) -> Codec {
    match source {
        Codec::Uper | Codec::UperStrict => Codec::Coer,
        Codec::Aper | Codec::AperStrict => Codec::Oer,
        Codec::Oer => Codec::Aper,
        Codec::Coer => Codec::Uper,
    }
}

/// `encode` of one set of rules.
#[derive(Drop)]
pub struct Encodes {
    alloc: Global,
    codec: Codec,
    parcel: Parcel,
}

impl Encodes {
    fn written(&self) -> Result<Vec<u8>, EncodeError> {
        match self.codec {
            Codec::Uper | Codec::UperStrict => uper::encode(self.alloc, &self.parcel),
            Codec::Aper | Codec::AperStrict => aper::encode(self.alloc, &self.parcel),
            Codec::Oer => oer::encode(self.alloc, &self.parcel),
            Codec::Coer => coer::encode(self.alloc, &self.parcel),
        }
    }
}

/// The outcome of encoding, with the expected octets.
fn written(answer: &Result<Vec<u8>, EncodeError>, wanted: &[u8]) -> Outcome {
    match answer {
        Ok(octets) => Outcome::of(octets.as_slice() == wanted),
        Err(error) => Outcome::of_want(*error == EncodeError::OutOfMemory),
    }
}

impl Trial for Encodes {
    type Plan = Codec;

    fn begin(alloc: Global, plan: Codec) -> Result<Encodes, AllocError> {
        Ok(Encodes {
            alloc,
            codec: plan,
            parcel: parcel(alloc)?,
        })
    }

    fn call(&mut self) -> Outcome {
        written(&self.written(), parcels(self.codec, 1))
    }

    fn again(&mut self) -> bool {
        self.call() == Outcome::Ample
    }
}

/// `encode_buf` of one set of rules, into a buffer that already holds an octet.
#[derive(Drop)]
pub struct EncodesInto {
    alloc: Global,
    codec: Codec,
    parcel: Parcel,
    buffer: Vec<u8>,
}

impl EncodesInto {
    fn write(&mut self) -> Result<(), EncodeError> {
        match self.codec {
            Codec::Uper | Codec::UperStrict => {
                uper::encode_buf(self.alloc, &self.parcel, &mut self.buffer)
            }
            Codec::Aper | Codec::AperStrict => {
                aper::encode_buf(self.alloc, &self.parcel, &mut self.buffer)
            }
            Codec::Oer => oer::encode_buf(self.alloc, &self.parcel, &mut self.buffer),
            Codec::Coer => coer::encode_buf(self.alloc, &self.parcel, &mut self.buffer),
        }
    }

    /// Whether the buffer holds these octets, after the octet that it held before in OER, and alone in PER.
    fn holds(&self, octets: &[u8]) -> bool {
        let held = self.buffer.as_slice();
        match self.codec {
            Codec::Uper | Codec::Aper | Codec::UperStrict | Codec::AperStrict => held == octets,
            Codec::Oer | Codec::Coer => held.strip_prefix(&[0xAA]) == Some(octets),
        }
    }
}

impl Trial for EncodesInto {
    type Plan = Codec;

    fn begin(alloc: Global, plan: Codec) -> Result<EncodesInto, AllocError> {
        let parcel = parcel(alloc)?;
        Ok(EncodesInto {
            alloc,
            codec: plan,
            parcel,
            buffer: Vec::from_slice(alloc, &[0xAA])?,
        })
    }

    fn call(&mut self) -> Outcome {
        match self.write() {
            Ok(()) => Outcome::of(self.holds(parcels(self.codec, 1))),
            Err(error) => Outcome::of_want(error == EncodeError::OutOfMemory && self.holds(&[])),
        }
    }

    fn again(&mut self) -> bool {
        self.call() == Outcome::Ample
    }
}

/// `decode` of one set of rules.
#[derive(Drop)]
pub struct Decodes {
    alloc: Global,
    codec: Codec,
}

impl Decodes {
    fn read(&self) -> Result<Parcel, DecodeError> {
        let input = parcels(self.codec, 2);
        match self.codec {
            Codec::Uper => uper::decode(self.alloc, input),
            Codec::Aper => aper::decode(self.alloc, input),
            Codec::UperStrict => uper_strict::decode(self.alloc, input),
            Codec::AperStrict => aper_strict::decode(self.alloc, input),
            Codec::Oer => oer::decode(self.alloc, input),
            Codec::Coer => coer::decode(self.alloc, input),
        }
    }
}

/// The outcome of decoding the parcel.
pub fn read(answer: &Result<Parcel, DecodeError>) -> Outcome {
    match answer {
        Ok(parcel) => Outcome::of(is_parcel(parcel)),
        Err(error) => Outcome::of_want(*error == DecodeError::OutOfMemory),
    }
}

impl Trial for Decodes {
    type Plan = Codec;

    fn begin(alloc: Global, plan: Codec) -> Result<Decodes, AllocError> {
        Ok(Decodes { alloc, codec: plan })
    }

    fn call(&mut self) -> Outcome {
        read(&self.read())
    }

    fn again(&mut self) -> bool {
        self.call() == Outcome::Ample
    }
}

/// `recode` from one set of rules.
#[derive(Drop)]
pub struct Recodes {
    alloc: Global,
    codec: Codec,
}

/// The outcome of a translation, with the expected octets.
fn recoded(answer: &Result<Vec<u8>, RecodeFault>, wanted: &[u8]) -> Outcome {
    match answer {
        Ok(octets) => Outcome::of(octets.as_slice() == wanted),
        Err(fault) => Outcome::of_want(*fault == RecodeFault::Memory),
    }
}

impl Trial for Recodes {
    type Plan = Codec;

    fn begin(alloc: Global, plan: Codec) -> Result<Recodes, AllocError> {
        Ok(Recodes { alloc, codec: plan })
    }

    fn call(&mut self) -> Outcome {
        let target = target_of(self.codec);
        let answer = recode::<Parcel>(self.alloc, self.codec, target, parcels(self.codec, 1));
        recoded(&answer, parcels(target, 1))
    }

    fn again(&mut self) -> bool {
        self.call() == Outcome::Ample
    }
}

/// `recode_into` from one set of rules, after an octet.
#[derive(Drop)]
pub struct RecodesInto {
    alloc: Global,
    codec: Codec,
    room: Vec<u8>,
    out: Vec<u8>,
}

impl RecodesInto {
    fn translate(&mut self, target: Codec) -> Result<(), RecodeFault> {
        let input = parcels(self.codec, 1);
        recode_into::<Parcel>(
            self.alloc,
            self.codec,
            target,
            input,
            &mut self.room,
            &mut self.out,
        )
    }

    /// Whether these octets are there, after the one that was there before.
    fn holds(&self, octets: &[u8]) -> bool {
        self.out.as_slice().strip_prefix(&[0xAA]) == Some(octets)
    }
}

impl Trial for RecodesInto {
    type Plan = Codec;

    fn begin(alloc: Global, plan: Codec) -> Result<RecodesInto, AllocError> {
        Ok(RecodesInto {
            alloc,
            codec: plan,
            room: Vec::new(alloc),
            out: Vec::from_slice(alloc, &[0xAA])?,
        })
    }

    fn call(&mut self) -> Outcome {
        let target = target_of(self.codec);
        match self.translate(target) {
            Ok(()) => Outcome::of(self.holds(parcels(target, 1))),
            Err(fault) => Outcome::of_want(fault == RecodeFault::Memory && self.holds(&[])),
        }
    }

    fn again(&mut self) -> bool {
        self.call() == Outcome::Ample
    }
}
