//! How INTEGER in the signed native types is decoded (X.680 19).

use crate::decode::{Decode, Decoder};
use asn1_schema_constraints::Constraints;
use asn1_schema_errors::DecodeError;
use asn1_schema_tags::Tag;
use std::alloc::Global;

impl Decode for i8 {
    #[inline(always)]
    fn decode_with_tag_and_constraints<D: Decoder>(
        alloc: Global,
        decoder: &mut D,
        tag: Tag,
        constraints: &Constraints,
    ) -> Result<Self, DecodeError> {
        let value: i8 = decoder.decode_integer(alloc, tag, constraints)?;
        Ok(value)
    }
}

impl Decode for i16 {
    #[inline(always)]
    fn decode_with_tag_and_constraints<D: Decoder>(
        alloc: Global,
        decoder: &mut D,
        tag: Tag,
        constraints: &Constraints,
    ) -> Result<Self, DecodeError> {
        let value: i16 = decoder.decode_integer(alloc, tag, constraints)?;
        Ok(value)
    }
}

impl Decode for i32 {
    #[inline(always)]
    fn decode_with_tag_and_constraints<D: Decoder>(
        alloc: Global,
        decoder: &mut D,
        tag: Tag,
        constraints: &Constraints,
    ) -> Result<Self, DecodeError> {
        let value: i32 = decoder.decode_integer(alloc, tag, constraints)?;
        Ok(value)
    }
}

impl Decode for i64 {
    #[inline(always)]
    fn decode_with_tag_and_constraints<D: Decoder>(
        alloc: Global,
        decoder: &mut D,
        tag: Tag,
        constraints: &Constraints,
    ) -> Result<Self, DecodeError> {
        let value: i64 = decoder.decode_integer(alloc, tag, constraints)?;
        Ok(value)
    }
}
