//! How INTEGER in the native types of 128 bits and of the pointer width is encoded (X.680 19).
use crate::encode::{Encode, Encoder};
use asn1_schema_constraints::Constraints;
use asn1_schema_errors::EncodeError;
use asn1_schema_tags::{Identifier, Tag};

impl Encode for i128 {
    fn encode_with_tag_and_constraints<E: Encoder>(
        &self,
        encoder: &mut E,
        tag: Tag,
        constraints: &Constraints,
    ) -> Result<(), EncodeError> {
        encoder.encode_integer(tag, constraints, self, Identifier::INTEGER)?;
        Ok(())
    }
}

impl Encode for u128 {
    fn encode_with_tag_and_constraints<E: Encoder>(
        &self,
        encoder: &mut E,
        tag: Tag,
        constraints: &Constraints,
    ) -> Result<(), EncodeError> {
        encoder.encode_integer(tag, constraints, self, Identifier::INTEGER)?;
        Ok(())
    }
}

impl Encode for isize {
    fn encode_with_tag_and_constraints<E: Encoder>(
        &self,
        encoder: &mut E,
        tag: Tag,
        constraints: &Constraints,
    ) -> Result<(), EncodeError> {
        encoder.encode_integer(tag, constraints, self, Identifier::INTEGER)?;
        Ok(())
    }
}

impl Encode for usize {
    fn encode_with_tag_and_constraints<E: Encoder>(
        &self,
        encoder: &mut E,
        tag: Tag,
        constraints: &Constraints,
    ) -> Result<(), EncodeError> {
        encoder.encode_integer(tag, constraints, self, Identifier::INTEGER)?;
        Ok(())
    }
}
