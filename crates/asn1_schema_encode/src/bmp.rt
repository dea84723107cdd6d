//! How a BMPString is encoded (X.680 41).
use crate::encode::{Encode, Encoder};
use asn1_schema_constraints::Constraints;
use asn1_schema_errors::EncodeError;
use asn1_schema_tags::{Identifier, Tag};
use asn1_values_strings::BmpString;

impl Encode for BmpString {
    fn encode_with_tag_and_constraints<E: Encoder>(
        &self,
        encoder: &mut E,
        tag: Tag,
        constraints: &Constraints,
    ) -> Result<(), EncodeError> {
        encoder.encode_characters(tag, constraints, self, Identifier::BMP_STRING)?;
        Ok(())
    }
}
