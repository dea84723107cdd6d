//! How SEQUENCE OF is decoded (X.680 26) into vectors and arrays.
use crate::decode::{Decode, Decoder};
use crate::lists::DecodeList;
use asn1_schema_constraints::{Bounded, Constraints};
use asn1_schema_errors::DecodeError;
use asn1_schema_tags::Tag;
use std::alloc::Global;

impl<T: Decode> Decode for Vec<T> {
    fn decode_with_tag_and_constraints<D: Decoder>(
        alloc: Global,
        decoder: &mut D,
        tag: Tag,
        constraints: &Constraints,
    ) -> Result<Self, DecodeError> {
        let items = decoder.decode_sequence_of(alloc, tag, constraints, Bounded::None)?;
        Ok(items)
    }
}

impl<T: Decode, const N: usize> Decode for [T; N] {
    fn decode_with_tag_and_constraints<D: Decoder>(
        alloc: Global,
        decoder: &mut D,
        tag: Tag,
        constraints: &Constraints,
    ) -> Result<Self, DecodeError> {
        let items = decoder.decode_sequence_of(alloc, tag, constraints, Bounded::Single(N))?;
        match <[T; N]>::try_from(items) {
            Ok(array) => Ok(array),
            Err(_) => unreachable!(),
        }
    }
}
