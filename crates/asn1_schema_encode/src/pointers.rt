//! How values held by pointers are encoded.
use crate::encode::{Encode, Encoder};
use asn1_schema_constraints::Constraints;
use asn1_schema_errors::EncodeError;
use asn1_schema_tags::Tag;

impl<T: Encode> Encode for Box<T> {
    fn encode_with_tag_and_constraints<E: Encoder>(
        &self,
        encoder: &mut E,
        tag: Tag,
        constraints: &Constraints,
    ) -> Result<(), EncodeError> {
        T::encode_with_tag_and_constraints(&**self, encoder, tag, constraints)
    }
}
