//! How values that are borrowed until they have to be owned are decoded.
use crate::decode::{Decode, Decoder};
use crate::lists::DecodeList;
use asn1_schema_constraints::{Bounded, Constraints};
use asn1_schema_errors::DecodeError;
use asn1_schema_tags::Tag;
use std::alloc::Global;
use std::borrow::{Cow, CowSlice, CowStr};

impl<'a, T: Decode> Decode for Cow<'a, T> {
    fn decode_with_tag_and_constraints<D: Decoder>(
        alloc: Global,
        decoder: &mut D,
        tag: Tag,
        constraints: &Constraints,
    ) -> Result<Self, DecodeError> {
        let value = T::decode_with_tag_and_constraints(alloc, decoder, tag, constraints)?;
        Ok(Cow::Owned(value))
    }
}

impl<'a, T: Decode> Decode for CowSlice<'a, T, Global> {
    fn decode_with_tag_and_constraints<D: Decoder>(
        alloc: Global,
        decoder: &mut D,
        tag: Tag,
        constraints: &Constraints,
    ) -> Result<Self, DecodeError> {
        let items = decoder.decode_sequence_of(alloc, tag, constraints, Bounded::None)?;
        Ok(CowSlice::Owned(items))
    }
}

impl<'a> Decode for CowStr<'a, Global> {
    fn decode_with_tag_and_constraints<D: Decoder>(
        alloc: Global,
        decoder: &mut D,
        tag: Tag,
        constraints: &Constraints,
    ) -> Result<Self, DecodeError> {
        let value = decoder.decode_utf8_string(alloc, tag, constraints)?;
        Ok(CowStr::Owned(value))
    }
}
