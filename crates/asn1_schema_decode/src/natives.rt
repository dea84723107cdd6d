//! How INTEGER in the unsigned native types is decoded (X.680 19).

use crate::decode::{Decode, Decoder};
use asn1_schema_constraints::Constraints;
use asn1_schema_errors::DecodeError;
use asn1_schema_tags::Tag;
use std::alloc::Global;

impl Decode for u16 {
    #[inline(always)]
    fn decode_with_tag_and_constraints<D: Decoder>(
        alloc: Global,
        decoder: &mut D,
        tag: Tag,
        constraints: &Constraints,
    ) -> Result<Self, DecodeError> {
        let value = decoder.decode_integer(alloc, tag, constraints)?;
        Ok(value)
    }
}

impl Decode for u32 {
    #[inline(always)]
    fn decode_with_tag_and_constraints<D: Decoder>(
        alloc: Global,
        decoder: &mut D,
        tag: Tag,
        constraints: &Constraints,
    ) -> Result<Self, DecodeError> {
        let value = decoder.decode_integer(alloc, tag, constraints)?;
        Ok(value)
    }
}

impl Decode for u64 {
    #[inline(always)]
    fn decode_with_tag_and_constraints<D: Decoder>(
        alloc: Global,
        decoder: &mut D,
        tag: Tag,
        constraints: &Constraints,
    ) -> Result<Self, DecodeError> {
        let value = decoder.decode_integer(alloc, tag, constraints)?;
        Ok(value)
    }
}
