//! How values held by pointers are decoded.
use crate::decode::{Decode, Decoder};
use asn1_schema_constraints::Constraints;
use asn1_schema_errors::DecodeError;
use asn1_schema_tags::Tag;
use std::alloc::Global;

impl<T: Decode> Decode for Box<T> {
    fn decode_with_tag_and_constraints<D: Decoder>(
        alloc: Global,
        decoder: &mut D,
        tag: Tag,
        constraints: &Constraints,
    ) -> Result<Self, DecodeError> {
        let inner = T::decode_with_tag_and_constraints(alloc, decoder, tag, constraints)?;
        match Box::new(alloc, inner) {
            Ok(boxed) => Ok(boxed),
            Err(_) => Err(decoder.refuse(DecodeError::OutOfMemory)),
        }
    }
}
