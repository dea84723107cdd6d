//! How BIT STRING and OCTET STRING of a fixed size are encoded (X.680 22 and 23).
use crate::encode::{Encode, Encoder};
use asn1_schema_constraints::{Bounded, Constraints};
use asn1_schema_errors::EncodeError;
use asn1_schema_tags::{Identifier, Tag};
use asn1_values_bit_strings::FixedBitString;
use asn1_values_octets::FixedOctetString;

impl<const N: usize> Encode for FixedBitString<N> {
    fn encode_with_tag_and_constraints<E: Encoder>(
        &self,
        encoder: &mut E,
        tag: Tag,
        constraints: &Constraints,
    ) -> Result<(), EncodeError> {
        encoder.encode_bit_string(
            tag,
            constraints,
            Bounded::single_value(N),
            self.as_bitslice(),
            Identifier::BIT_STRING,
        )?;
        Ok(())
    }
}

impl<const N: usize> Encode for FixedOctetString<N> {
    fn encode_with_tag_and_constraints<E: Encoder>(
        &self,
        encoder: &mut E,
        tag: Tag,
        constraints: &Constraints,
    ) -> Result<(), EncodeError> {
        encoder.encode_octet_string(
            tag,
            constraints,
            Bounded::single_value(N),
            self.as_slice(),
            Identifier::OCTET_STRING,
        )?;
        Ok(())
    }
}
