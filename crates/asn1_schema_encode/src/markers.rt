//! How marker types are encoded.
use crate::encode::{Encode, Encoder};
use asn1_schema_constraints::Constraints;
use asn1_schema_errors::EncodeError;
use asn1_schema_tags::{Identifier, Tag};
use std::marker::PhantomData;

impl<T> Encode for PhantomData<T> {
    fn encode_with_tag_and_constraints<E: Encoder>(
        &self,
        encoder: &mut E,
        tag: Tag,
        _constraints: &Constraints,
    ) -> Result<(), EncodeError> {
        encoder.encode_null(tag, Identifier::NULL)?;
        Ok(())
    }
}
