//! How an INTEGER within a range that the type fixes is encoded (X.680 19 and 51.4).

use crate::encode::{Encode, Encoder};
use asn1_schema_constraints::Constraints;
use asn1_schema_errors::EncodeError;
use asn1_schema_tags::{Identifier, Tag};
use asn1_schema_types::constrained::within_range;
use asn1_values_integers::{Ends, Integer, RangedInteger};

impl<R: Ends> Encode for RangedInteger<R> {
    fn encode_with_tag_and_constraints<E: Encoder>(
        &self,
        encoder: &mut E,
        tag: Tag,
        constraints: &Constraints,
    ) -> Result<(), EncodeError> {
        let number: &Integer = self;
        let range = within_range(constraints, R::START, R::END);
        encoder.encode_integer(tag, &range, number, Identifier::INTEGER)?;
        Ok(())
    }
}
