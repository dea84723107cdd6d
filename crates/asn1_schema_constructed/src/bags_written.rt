//! How SET OF types are encoded.
ghost use Rattle.std.specs.Prelude.{◌≡◌, OnOk, OnErr, IfErr};
ghost use Rattle.asn1_model.specs.Value.{bag};
ghost use Rattle.asn1_schema_laws.specs.Parts.{values_of};
ghost use Rattle.asn1_schema_constructed.specs.Bags.{bag_under};
ghost use Rattle.asn1_schema_encode.specs.Writes.{Writes, CannotWrite};
ghost use Rattle.asn1_schema_errors.specs.Calls.{EncoderCall};

use asn1_schema_constraints::{Bounded, Constraints};
use asn1_schema_encode::{Encode, Encoder, encode_members};
use asn1_schema_errors::EncodeError;
use asn1_schema_tags::Tag;

/// Encodes SET OF types.
pub trait EncodeBag: Encoder {
    /// Encodes a SET OF (X.680 28) under a size constraint; `held` bounds the number of elements that the user-defined
    /// type can hold. The elements are given in any order.
    final fn encode_set_of<T: Encode>(
        &mut self,
        tag: Tag,
        items: &[T],
        constraints: &Constraints,
        held: Bounded<usize>,
    ) -> Result<(), EncodeError>
    where
        Self: Sized,
        ensures ok { OnOk result
            (Writes Self.step (bag_under constraints.now held T.schema) (bag (values_of T.meaning items.now))
            self.old self.new) }
        ensures only { IfErr result
            (CannotWrite Self.step (bag_under constraints.now held T.schema) (bag (values_of T.meaning items.now))
            self.old) }
        ensures call { EncoderCall Self.has_failed Self.front self.old self.new result }
    {
        self.begin_bag(tag, constraints, held, items.len())?;
        encode_members(self, items)?;
        Ok(())
    }
}

impl<E: Encoder> EncodeBag for E {}
