//! How the restricted character strings with one octet per character are encoded (X.680 41).
use crate::encode::{Encode, Encoder};
use asn1_schema_constraints::Constraints;
use asn1_schema_errors::EncodeError;
use asn1_schema_tags::Tag;
use asn1_schema_types::TaggedKind;
use asn1_values_strings::RestrictedString;

impl<K: TaggedKind> Encode for RestrictedString<K> {
    #[inline(always)]
    fn encode_with_tag_and_constraints<E: Encoder>(
        &self,
        encoder: &mut E,
        tag: Tag,
        constraints: &Constraints,
    ) -> Result<(), EncodeError> {
        encoder.encode_characters(tag, constraints, self, K::IDENTIFIER)?;
        Ok(())
    }
}
