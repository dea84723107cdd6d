//! How INTEGER in the native types of 128 bits and of the pointer width is decoded (X.680 19).

use crate::decode::{Decode, Decoder};
use asn1_schema_constraints::Constraints;
use asn1_schema_errors::DecodeError;
use asn1_schema_tags::Tag;
use std::alloc::Global;

impl Decode for i128 {
    fn decode_with_tag_and_constraints<D: Decoder>(
        alloc: Global,
        decoder: &mut D,
        tag: Tag,
        constraints: &Constraints,
    ) -> Result<Self, DecodeError> {
        let value: i128 = decoder.decode_integer(alloc, tag, constraints)?;
        Ok(value)
    }
}

impl Decode for u128 {
    fn decode_with_tag_and_constraints<D: Decoder>(
        alloc: Global,
        decoder: &mut D,
        tag: Tag,
        constraints: &Constraints,
    ) -> Result<Self, DecodeError> {
        let value: u128 = decoder.decode_integer(alloc, tag, constraints)?;
        Ok(value)
    }
}

impl Decode for isize {
    fn decode_with_tag_and_constraints<D: Decoder>(
        alloc: Global,
        decoder: &mut D,
        tag: Tag,
        constraints: &Constraints,
    ) -> Result<Self, DecodeError> {
        let value: isize = decoder.decode_integer(alloc, tag, constraints)?;
        Ok(value)
    }
}

impl Decode for usize {
    fn decode_with_tag_and_constraints<D: Decoder>(
        alloc: Global,
        decoder: &mut D,
        tag: Tag,
        constraints: &Constraints,
    ) -> Result<Self, DecodeError> {
        let value: usize = decoder.decode_integer(alloc, tag, constraints)?;
        Ok(value)
    }
}
