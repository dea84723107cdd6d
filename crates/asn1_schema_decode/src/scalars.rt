//! BOOLEAN and NULL (X.680 18 and 24).

use crate::decode::{Decode, Decoder};
use asn1_schema_constraints::Constraints;
use asn1_schema_errors::DecodeError;
use asn1_schema_tags::Tag;
use std::alloc::Global;

impl Decode for bool {
    #[inline(always)]
    fn decode_with_tag_and_constraints<D: Decoder>(
        _alloc: Global,
        decoder: &mut D,
        tag: Tag,
        _constraints: &Constraints,
    ) -> Result<Self, DecodeError> {
        let value = decoder.decode_bool(tag)?;
        Ok(value)
    }
}

impl Decode for () {
    #[inline(always)]
    fn decode_with_tag_and_constraints<D: Decoder>(
        _alloc: Global,
        decoder: &mut D,
        tag: Tag,
        _constraints: &Constraints,
    ) -> Result<Self, DecodeError> {
        decoder.decode_null(tag)?;
        Ok(())
    }
}
