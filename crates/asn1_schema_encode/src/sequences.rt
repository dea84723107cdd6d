//! How SEQUENCE OF is encoded (X.680 26) from vectors, arrays and slices.
use crate::encode::{Encode, Encoder};
use crate::lists::EncodeList;
use asn1_schema_constraints::{Bounded, Constraints};
use asn1_schema_errors::EncodeError;
use asn1_schema_tags::Tag;

impl<T: Encode> Encode for Vec<T> {
    fn encode_with_tag_and_constraints<E: Encoder>(
        &self,
        encoder: &mut E,
        tag: Tag,
        constraints: &Constraints,
    ) -> Result<(), EncodeError> {
        encoder.encode_sequence_of(tag, self.as_slice(), constraints, Bounded::None)
    }
}

impl<T: Encode, const N: usize> Encode for [T; N] {
    fn encode_with_tag_and_constraints<E: Encoder>(
        &self,
        encoder: &mut E,
        tag: Tag,
        constraints: &Constraints,
    ) -> Result<(), EncodeError> {
        encoder.encode_sequence_of(tag, self.as_slice(), constraints, Bounded::Single(N))
    }
}

impl<T: Encode> Encode for &[T] {
    fn encode_with_tag_and_constraints<E: Encoder>(
        &self,
        encoder: &mut E,
        tag: Tag,
        constraints: &Constraints,
    ) -> Result<(), EncodeError> {
        encoder.encode_sequence_of(tag, *self, constraints, Bounded::None)
    }
}
