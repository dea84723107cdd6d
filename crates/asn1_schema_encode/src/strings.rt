//! How BIT STRING, OCTET STRING, UTF8String and OBJECT IDENTIFIER are encoded (X.680 22, 23, 41 and 32).
use crate::encode::{Encode, Encoder};
use asn1_schema_constraints::{Bounded, Constraints};
use asn1_schema_errors::EncodeError;
use asn1_schema_tags::{Identifier, Tag};
use asn1_values_bit_strings::BitString;
use asn1_values_identifiers::ObjectIdentifier;
use asn1_values_octets::OctetString;

impl Encode for BitString {
    fn encode_with_tag_and_constraints<E: Encoder>(
        &self,
        encoder: &mut E,
        tag: Tag,
        constraints: &Constraints,
    ) -> Result<(), EncodeError> {
        encoder.encode_bit_string(
            tag,
            constraints,
            Bounded::None,
            self.as_bitslice(),
            Identifier::BIT_STRING,
        )?;
        Ok(())
    }
}

impl Encode for OctetString {
    #[inline(always)]
    fn encode_with_tag_and_constraints<E: Encoder>(
        &self,
        encoder: &mut E,
        tag: Tag,
        constraints: &Constraints,
    ) -> Result<(), EncodeError> {
        encoder.encode_octet_string(
            tag,
            constraints,
            Bounded::None,
            self.as_slice(),
            Identifier::OCTET_STRING,
        )?;
        Ok(())
    }
}

impl Encode for String {
    fn encode_with_tag_and_constraints<E: Encoder>(
        &self,
        encoder: &mut E,
        tag: Tag,
        constraints: &Constraints,
    ) -> Result<(), EncodeError> {
        encoder.encode_utf8_string(tag, constraints, self.as_str(), Identifier::UTF8_STRING)?;
        Ok(())
    }
}

impl Encode for ObjectIdentifier {
    fn encode_with_tag_and_constraints<E: Encoder>(
        &self,
        encoder: &mut E,
        tag: Tag,
        _constraints: &Constraints,
    ) -> Result<(), EncodeError> {
        encoder.encode_object_identifier(tag, self.as_oid(), Identifier::OBJECT_IDENTIFIER)?;
        Ok(())
    }
}
