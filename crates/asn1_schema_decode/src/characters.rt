//! How the restricted character strings with one octet per character are decoded (X.680 41).

use crate::decode::{Decode, Decoder};
use asn1_schema_constraints::Constraints;
use asn1_schema_errors::DecodeError;
use asn1_schema_tags::Tag;
use asn1_schema_types::TaggedKind;
use asn1_values_strings::RestrictedString;
use std::alloc::Global;

impl<K: TaggedKind> Decode for RestrictedString<K> {
    #[inline(always)]
    fn decode_with_tag_and_constraints<D: Decoder>(
        alloc: Global,
        decoder: &mut D,
        tag: Tag,
        constraints: &Constraints,
    ) -> Result<Self, DecodeError> {
        let value = decoder.decode_characters(alloc, tag, constraints)?;
        Ok(value)
    }
}
