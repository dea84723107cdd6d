//! BOOLEAN and NULL (X.680 18 and 24).

use crate::encode::{Encode, Encoder};
use asn1_schema_constraints::Constraints;
use asn1_schema_errors::EncodeError;
use asn1_schema_tags::{Identifier, Tag};

impl Encode for bool {
    #[inline(always)]
    fn encode_with_tag_and_constraints<E: Encoder>(
        &self,
        encoder: &mut E,
        tag: Tag,
        _constraints: &Constraints,
    ) -> Result<(), EncodeError> {
        encoder.encode_bool(tag, *self, Identifier::BOOL)?;
        Ok(())
    }
}

impl Encode for () {
    #[inline(always)]
    fn encode_with_tag_and_constraints<E: Encoder>(
        &self,
        encoder: &mut E,
        tag: Tag,
        _constraints: &Constraints,
    ) -> Result<(), EncodeError> {
        encoder.encode_null(tag, Identifier::NULL)?;
        Ok(())
    }
}
