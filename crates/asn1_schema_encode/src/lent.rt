//! How borrowed values, and values borrowed until they have to be owned, are encoded.
use crate::encode::{Encode, Encoder};
use crate::lists::EncodeList;
use asn1_schema_constraints::{Bounded, Constraints};
use asn1_schema_errors::EncodeError;
use asn1_schema_tags::{Identifier, Tag};
use asn1_values_bits::BitStr;
use asn1_values_identifiers::Oid;
use std::alloc::Global;
use std::borrow::{Cow, CowSlice, CowStr};

impl<T: Encode> Encode for &T {
    fn encode_with_tag_and_constraints<E: Encoder>(
        &self,
        encoder: &mut E,
        tag: Tag,
        constraints: &Constraints,
    ) -> Result<(), EncodeError> {
        T::encode_with_tag_and_constraints(*self, encoder, tag, constraints)
    }
}

impl Encode for &str {
    fn encode_with_tag_and_constraints<E: Encoder>(
        &self,
        encoder: &mut E,
        tag: Tag,
        constraints: &Constraints,
    ) -> Result<(), EncodeError> {
        encoder.encode_utf8_string(tag, constraints, *self, Identifier::UTF8_STRING)?;
        Ok(())
    }
}

impl<'a, T: Encode> Encode for Cow<'a, T> {
    fn encode_with_tag_and_constraints<E: Encoder>(
        &self,
        encoder: &mut E,
        tag: Tag,
        constraints: &Constraints,
    ) -> Result<(), EncodeError> {
        let value: &T = self.as_ref();
        T::encode_with_tag_and_constraints(value, encoder, tag, constraints)
    }
}

impl<'a, T: Encode> Encode for CowSlice<'a, T, Global> {
    fn encode_with_tag_and_constraints<E: Encoder>(
        &self,
        encoder: &mut E,
        tag: Tag,
        constraints: &Constraints,
    ) -> Result<(), EncodeError> {
        encoder.encode_sequence_of(tag, self.as_slice(), constraints, Bounded::None)
    }
}

impl<'a> Encode for CowStr<'a, Global> {
    fn encode_with_tag_and_constraints<E: Encoder>(
        &self,
        encoder: &mut E,
        tag: Tag,
        constraints: &Constraints,
    ) -> Result<(), EncodeError> {
        encoder.encode_utf8_string(tag, constraints, self.as_str(), Identifier::UTF8_STRING)?;
        Ok(())
    }
}

impl<'a> Encode for BitStr<'a> {
    fn encode_with_tag_and_constraints<E: Encoder>(
        &self,
        encoder: &mut E,
        tag: Tag,
        constraints: &Constraints,
    ) -> Result<(), EncodeError> {
        encoder.encode_bit_string(
            tag,
            constraints,
            Bounded::None,
            *self,
            Identifier::BIT_STRING,
        )?;
        Ok(())
    }
}

impl<'a> Encode for Oid<'a> {
    fn encode_with_tag_and_constraints<E: Encoder>(
        &self,
        encoder: &mut E,
        tag: Tag,
        _constraints: &Constraints,
    ) -> Result<(), EncodeError> {
        let oid = Oid::new_unchecked(self.as_slice());
        encoder.encode_object_identifier(tag, oid, Identifier::OBJECT_IDENTIFIER)?;
        Ok(())
    }
}
