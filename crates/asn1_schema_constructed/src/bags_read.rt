//! How SET OF types are decoded.
ghost use Rattle.std.specs.Prelude.{◌≡◌, length, true, OnOk, IfOk, OnErr, IfErr};
ghost use Rattle.asn1_model.specs.Numbers.{is_count_within};
ghost use Rattle.asn1_model.specs.Value.{bag};
ghost use Rattle.asn1_schema_constraints.specs.Bounds.{members_of};
ghost use Rattle.asn1_schema_laws.specs.Parts.{values_of};
ghost use Rattle.asn1_schema_constructed.specs.Bags.{bag_under};
ghost use Rattle.asn1_schema_decode.specs.Reads.{Reads, Unread};
ghost use Rattle.asn1_schema_errors.specs.Calls.{DecoderCall, SameLevel};

use asn1_schema_constraints::{Bounded, Constraints};
use asn1_schema_decode::{Decode, Decoder, members_within};
use asn1_schema_errors::DecodeError;
use asn1_schema_tags::Tag;
use std::alloc::Global;

/// Decodes SET OF types.
pub trait DecodeBag: Decoder {
    /// Decodes a SET OF (X.680 28) under a size constraint; `held` bounds the number of elements that the user-defined
    /// type can hold. An element beyond them is not read. Memory is allocated only for elements that were read.
    final fn decode_set_of<T: Decode>(
        &mut self,
        alloc: Global,
        tag: Tag,
        constraints: &Constraints,
        held: Bounded<usize>,
    ) -> Result<Vec<T>, DecodeError>
    where
        Self: Sized,
        ensures ok { IfOk result
            (λ x. Reads Self.step (bag_under constraints.now held T.schema) (Self.levels self.old)
            (bag (values_of T.meaning x.items)) self.old self.new) }
        ensures held { IfOk result (λ x. is_count_within (members_of held) (length x.items) ≡ true) }
        ensures only { IfErr result
            (Unread Self.step Self.too_few (bag_under constraints.now held T.schema)
            (Self.levels self.old) self.old self.new) }
        ensures call { DecoderCall Self.has_failed (SameLevel Self.levels) self.old self.new result }
    {
        self.begin_bag(tag, constraints, held)?;
        let items = members_within(alloc, self, held)?;
        Ok(items)
    }
}

impl<D: Decoder> DecodeBag for D {}
