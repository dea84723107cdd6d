//! `Iter::next` and `append_bytes`.
use crate::messages::read;
use crate::parcel::{Parcel, parcels};
use crate::trial::{Outcome, Trial};
use asn1_relay_core::{Codec, DecodeError};
use asn1_schema_decode::making::iter;
use asn1_schema_decode::{FrontReader, Iter};
use oer_codec::{CoerFront, OerFront};
use per_codec::{AperFront, UperFront};
use std::alloc::{AllocError, Global};

/// A reader of the parcel with which octets begin.
pub trait Front: FrontReader<Parcel> + Drop {
    /// The reader.
    fn reader() -> Self;

    /// The rules by which it decodes.
    fn codec() -> Codec;
}

impl Front for UperFront {
    fn reader() -> Self {
        UperFront
    }

    fn codec() -> Codec {
        Codec::Uper
    }
}

impl Front for AperFront {
    fn reader() -> Self {
        AperFront
    }

    fn codec() -> Codec {
        Codec::Aper
    }
}

impl Front for OerFront {
    fn reader() -> Self {
        OerFront
    }

    fn codec() -> Codec {
        Codec::Oer
    }
}

impl Front for CoerFront {
    fn reader() -> Self {
        CoerFront
    }

    fn codec() -> Codec {
        Codec::Coer
    }
}

/// The outcome of a call for the next value.
fn next_read(answer: &Option<Result<Parcel, DecodeError>>) -> Outcome {
    match answer {
        Some(answer) => read(answer),
        None => Outcome::Wrong,
    }
}

/// `Iter::next` on the octets of two values.
#[derive(Drop)]
pub struct Nexts<R> {
    values: Iter<Parcel, R>,
}

impl<R: Front> Nexts<R> {
    /// Whether this many values are unread.
    fn are_left(&self, count: usize) -> bool {
        self.values.unread_len() == parcels(R::codec(), count).len()
    }
}

impl<R: Front> Trial for Nexts<R> {
    type Plan = ();

    fn begin(alloc: Global, _plan: ()) -> Result<Nexts<R>, AllocError> {
        Ok(Nexts {
            values: iter(alloc, R::reader(), parcels(R::codec(), 2))?,
        })
    }

    fn call(&mut self) -> Outcome {
        match next_read(&self.values.next()) {
            Outcome::Ample => Outcome::of(self.are_left(1)),
            Outcome::Wanting => Outcome::of_want(self.are_left(2)),
            Outcome::Wrong => Outcome::Wrong,
        }
    }

    fn again(&mut self) -> bool {
        self.call() == Outcome::Ample
            && next_read(&self.values.next()) == Outcome::Ample
            && self.are_left(0)
    }
}

/// `append_bytes` to an iterator that holds the first octets of two values. The other octets do not fit its memory.
#[derive(Drop)]
pub struct Appends {
    values: Iter<Parcel, CoerFront>,
}

/// How many octets it holds before.
const FIRST: usize = 10;

/// The octets of two parcels: those held before, and the others.
fn both_parts() -> (&'static [u8], &'static [u8]) {
    let octets = parcels(Codec::Coer, 2);
    octets.split_at(FIRST.min(octets.len()))
}

impl Trial for Appends {
    type Plan = ();

    fn begin(alloc: Global, _plan: ()) -> Result<Appends, AllocError> {
        let (first, _) = both_parts();
        Ok(Appends {
            values: iter(alloc, CoerFront, first)?,
        })
    }

    fn call(&mut self) -> Outcome {
        let (_, others) = both_parts();
        match self.values.append_bytes(others) {
            Ok(()) => Outcome::of(self.values.unread_len() == parcels(Codec::Coer, 2).len()),
            Err(AllocError) => Outcome::of_want(self.values.unread_len() == FIRST),
        }
    }

    fn again(&mut self) -> bool {
        self.call() == Outcome::Ample
            && next_read(&self.values.next()) == Outcome::Ample
            && next_read(&self.values.next()) == Outcome::Ample
            && self.values.unread_len() == 0
    }
}
