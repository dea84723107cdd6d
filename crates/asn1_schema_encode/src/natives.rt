//! How INTEGER in the native types is encoded (X.680 19).
use crate::encode::{Encode, Encoder};
use asn1_schema_constraints::Constraints;
use asn1_schema_errors::EncodeError;
use asn1_schema_tags::{Identifier, Tag};

impl Encode for i8 {
    #[inline(always)]
    fn encode_with_tag_and_constraints<E: Encoder>(
        &self,
        encoder: &mut E,
        tag: Tag,
        constraints: &Constraints,
    ) -> Result<(), EncodeError> {
        encoder.encode_integer(tag, constraints, self, Identifier::INTEGER)?;
        Ok(())
    }
}

impl Encode for i16 {
    #[inline(always)]
    fn encode_with_tag_and_constraints<E: Encoder>(
        &self,
        encoder: &mut E,
        tag: Tag,
        constraints: &Constraints,
    ) -> Result<(), EncodeError> {
        encoder.encode_integer(tag, constraints, self, Identifier::INTEGER)?;
        Ok(())
    }
}

impl Encode for i32 {
    #[inline(always)]
    fn encode_with_tag_and_constraints<E: Encoder>(
        &self,
        encoder: &mut E,
        tag: Tag,
        constraints: &Constraints,
    ) -> Result<(), EncodeError> {
        encoder.encode_integer(tag, constraints, self, Identifier::INTEGER)?;
        Ok(())
    }
}

impl Encode for i64 {
    #[inline(always)]
    fn encode_with_tag_and_constraints<E: Encoder>(
        &self,
        encoder: &mut E,
        tag: Tag,
        constraints: &Constraints,
    ) -> Result<(), EncodeError> {
        encoder.encode_integer(tag, constraints, self, Identifier::INTEGER)?;
        Ok(())
    }
}

impl Encode for u16 {
    #[inline(always)]
    fn encode_with_tag_and_constraints<E: Encoder>(
        &self,
        encoder: &mut E,
        tag: Tag,
        constraints: &Constraints,
    ) -> Result<(), EncodeError> {
        encoder.encode_integer(tag, constraints, self, Identifier::INTEGER)?;
        Ok(())
    }
}

impl Encode for u32 {
    #[inline(always)]
    fn encode_with_tag_and_constraints<E: Encoder>(
        &self,
        encoder: &mut E,
        tag: Tag,
        constraints: &Constraints,
    ) -> Result<(), EncodeError> {
        encoder.encode_integer(tag, constraints, self, Identifier::INTEGER)?;
        Ok(())
    }
}

impl Encode for u64 {
    #[inline(always)]
    fn encode_with_tag_and_constraints<E: Encoder>(
        &self,
        encoder: &mut E,
        tag: Tag,
        constraints: &Constraints,
    ) -> Result<(), EncodeError> {
        encoder.encode_integer(tag, constraints, self, Identifier::INTEGER)?;
        Ok(())
    }
}
