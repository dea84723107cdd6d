//! Sequences whose Rust values are their components as they are read, without names.
ghost use Rattle.std.specs.Prelude.{◌≡◌, refl, [], ◌∷◌, OnOk, OnErr, IfOk, IfErr};
ghost use Rattle.asn1_model.specs.Value.{Value};
ghost use Rattle.asn1_schema_constraints.specs.Terms.{no_constraint};
ghost use Rattle.asn1_schema_decode.specs.Reads.{Reads, Unread};
ghost use Rattle.asn1_schema_encode.specs.Writes.{CannotWrite, Writes};
ghost use Rattle.asn1_schema_laws.specs.Tables.{IsType, IsValue, Table, sequence_type};
ghost use Rattle.asn1_schema_errors.specs.Calls.{DecoderCall, EncoderCall, SameLevel};

use asn1_schema_constraints::Constraints;
use asn1_schema_decode::{Decode, Decoder};
use asn1_schema_encode::{Encode, Encoder};
use asn1_schema_errors::{DecodeError, EncodeError};
use asn1_schema_tags::{Tag, TagTree};
use asn1_schema_types::{AsnType, Described};
use std::alloc::Global;

/// The components of a sequence.
pub trait Listed: Drop {
    /// The table of the components.
    ghost form: { Table };

    /// The value of the components.
    ghost value: { Self → Value };

    /// The sequence is a well-formed type.
    ghost lawful: { IsType (record { class = 0; number = 16 } ∷ []) (sequence_type form) };

    /// Its components are values of it.
    ghost each: { (x : Self) → IsValue (sequence_type form) (value x) };

    /// Encodes the sequence.
    fn write<E: Encoder>(&self, encoder: &mut E, tag: Tag) -> Result<(), EncodeError>
        ensures ok { OnOk result (Writes E.step (sequence_type form) (value self.now) encoder.old encoder.new) }
        ensures only { IfErr result (CannotWrite E.step (sequence_type form) (value self.now) encoder.old) }
        ensures call { EncoderCall E.has_failed E.front encoder.old encoder.new result };

    /// Decodes the sequence.
    fn read<D: Decoder>(alloc: Global, decoder: &mut D, tag: Tag) -> Result<Self, DecodeError>
        ensures ok { IfOk result
            (λ x. Reads D.step (sequence_type form) (D.levels decoder.old) (value x) decoder.old decoder.new) }
        ensures only { IfErr result
            (Unread D.step D.too_few (sequence_type form) (D.levels decoder.old) decoder.old decoder.new) }
        ensures call { DecoderCall D.has_failed (SameLevel D.levels) decoder.old decoder.new result };
}

/// A sequence of these components (X.680 25).
#[derive(Drop)]
pub struct Sequence<C> {
    components: C,
}

impl<C: Listed> Described for Sequence<C> {
    ghost tags = { record { class = 0; number = 16 } ∷ [] };

    ghost own = { no_constraint };

    ghost under = { λ _. sequence_type C.form };

    ghost schema = { sequence_type C.form };

    ghost is_own = { λ _. refl };

    ghost meaning = { λ x. C.value x.components };

    ghost typed = { C.lawful };

    ghost valued = { λ x. C.each x.components };

    ghost valued_under = { λ _ x. C.each x.components };
}

impl<C: Listed> AsnType for Sequence<C> {
    const TAG: Tag = Tag::SEQUENCE;

    fn tag_tree() -> TagTree<'static> {
        TagTree::of(Tag::SEQUENCE)
    }

    fn constraints() -> Constraints<'static> {
        Constraints::NONE
    }
}

impl<C: Listed> Encode for Sequence<C> {
    fn encode_with_tag_and_constraints<E: Encoder>(
        &self,
        encoder: &mut E,
        tag: Tag,
        _constraints: &Constraints,
    ) -> Result<(), EncodeError> {
        self.components.write(encoder, tag)
    }
}

impl<C: Listed> Decode for Sequence<C> {
    fn decode_with_tag_and_constraints<D: Decoder>(
        alloc: Global,
        decoder: &mut D,
        tag: Tag,
        _constraints: &Constraints,
    ) -> Result<Self, DecodeError> {
        let components = C::read(alloc, decoder, tag)?;
        Ok(Sequence { components })
    }
}
