//! CHOICE (X.680 29) as a type around a user-defined enum.
ghost use Rattle.std.specs.Prelude.{◌≡◌, [], true, false, map, refl, MatchOption, IfOk, IfErr, OnErr, OnOk};
ghost use Rattle.asn1_schema_constraints.specs.Terms.{no_constraint};
ghost use Rattle.asn1_schema_tags.specs.Places.{is_table_of};
ghost use Rattle.asn1_schema_tags.specs.Tags.{tag_of};
ghost use Rattle.asn1_schema_tags.specs.Trees.{leaves};
ghost use Rattle.asn1_schema_encode.specs.Writes.{Writes, CannotWrite};
ghost use Rattle.asn1_schema_decode.specs.Reads.{Reads, Unread};
ghost use Rattle.asn1_schema_authored.specs.ChoiceShapes.{ChoiceShape};
ghost use Rattle.asn1_schema_constructed.specs.Chosen.{IsAmong, IsTag, chosen_type, chosen_value};
ghost use Rattle.asn1_schema_constructed.specs.Tables.{all_tags, choice_type, tags_of};
ghost use Rattle.asn1_schema_errors.specs.Calls.{DecoderCall, EncoderCall, SameLevel};

use asn1_schema_constraints::Constraints;
use asn1_schema_constructed::{
    Alternatives, Choice, DecodeAlternatives, DecodeChoice, EncodeChoice,
};
use asn1_schema_decode::{Decode, Decoder};
use asn1_schema_encode::{Encode, Encoder};
use asn1_schema_errors::{DecodeError, EncodeError};
use asn1_schema_tags::{Chosen, Identifier, Tag, TagPlace, TagTree};
use asn1_schema_types::{AsnType, Described};
use std::alloc::Global;
use std::ops::Deref;

/// A user-defined enum whose variants are the alternatives of a CHOICE (X.680 29).
pub trait ChoiceAlternatives: Drop {
    /// The name of the type, if it has one.
    const IDENTIFIER: Identifier = Identifier::EMPTY;

    /// The alternatives, and which of them each value is.
    ghost shape: { ChoiceShape Self };

    /// The tags of all alternatives, those of the root first.
    fn tag_tree() -> TagTree<'static>
        ensures { leaves result ≡ all_tags shape.table };

    /// The tags of the root alternatives, in ascending order (X.680 8.6).
    fn variants() -> &'static [Tag]
        ensures { map tag_of result.now ≡ tags_of shape.table.root };

    /// The tags of the added alternatives in their order, or `None` if there is no extension marker.
    fn extended_variants() -> Option<&'static [Tag]>
        ensures { MatchOption result ((false ≡ shape.table.extensible) × ([] ≡ tags_of shape.table.additions))
            (λ tags. (true ≡ shape.table.extensible) × (map tag_of tags.now ≡ tags_of shape.table.additions)) };

    /// The tags of all alternatives in ascending order (X.680 8.6), each with its index. The alternatives of
    /// `variants()` are numbered before those of `extended_variants()`.
    fn places() -> &'static [TagPlace]
        ensures { is_table_of result.now (all_tags shape.table) ≡ true };

    /// The chosen alternative.
    fn chosen(&self) -> Chosen
        ensures { result ≡ shape.place self.now };

    /// Encodes the value of the chosen alternative, and returns the tag of the alternative.
    fn write_chosen<E: Encoder>(&self, encoder: &mut E) -> Result<Tag, EncodeError>
        ensures ok { IfOk result (λ _. Writes E.step (chosen_type shape.table (shape.place self.now))
            (shape.inner self.now) encoder.old encoder.new) }
        ensures tag { IfOk result (λ tag. IsTag shape.table (shape.place self.now) (tag_of tag)) }
        ensures only { IfErr result (CannotWrite E.step (chosen_type shape.table (shape.place self.now))
            (shape.inner self.now) encoder.old) }
        ensures call { EncoderCall E.has_failed E.front encoder.old encoder.new result };

    /// Decodes the value of an alternative.
    fn from_chosen<D: Decoder>(
        alloc: Global,
        decoder: &mut D,
        chosen: Chosen,
    ) -> Result<Self, DecodeError>
        requires { IsAmong shape.table chosen }
        ensures place { IfOk result (λ x. shape.place x ≡ chosen) }
        ensures ok { IfOk result (λ x. Reads D.step (chosen_type shape.table chosen) (D.levels decoder.old)
            (shape.inner x) decoder.old decoder.new) }
        ensures only { IfErr result
            (Unread D.step D.too_few (chosen_type shape.table chosen) (D.levels decoder.old) decoder.old decoder.new) }
        ensures call { DecoderCall D.has_failed (SameLevel D.levels) decoder.old decoder.new result };
}

/// CHOICE (X.680 29) of the variants of an enum.
#[derive(Drop)]
pub struct ChoiceOf<T> {
    /// The enum.
    pub value: T,
}

impl<T> ChoiceOf<T> {
    /// This enum as a CHOICE.
    pub fn new(value: T) -> Self
        ensures { result.value ≡ value }
    {
        ChoiceOf { value }
    }
}

impl<T> Deref for ChoiceOf<T> {
    type Target = T;

    ghost deref_gives = { λ t v. v ≡ t.value };

    fn deref(&self) -> &T {
        &self.value
    }
}

impl<T: ChoiceAlternatives> Described for ChoiceOf<T> {
    ghost tags = { all_tags T.shape.table };

    ghost own = { no_constraint };

    ghost under = { λ _. choice_type T.shape.table };

    ghost schema = { choice_type T.shape.table };

    ghost is_own = { λ _. refl };

    ghost meaning = { λ x. chosen_value (T.shape.place x.value) (T.shape.inner x.value) };

    ghost typed = { T.shape.typed };

    ghost valued = { λ x. T.shape.valued x.value };

    ghost valued_under = { λ _ x. T.shape.valued x.value };
}

impl<T: ChoiceAlternatives> AsnType for ChoiceOf<T> {
    const TAG: Tag = Tag::CHOICE;

    const IDENTIFIER: Identifier = T::IDENTIFIER;

    const IS_CHOICE: bool = true;

    fn tag_tree() -> TagTree<'static> {
        T::tag_tree()
    }

    fn constraints() -> Constraints<'static> {
        Constraints::NONE
    }
}

impl<T: ChoiceAlternatives> Alternatives for ChoiceOf<T> {
    ghost table = { T.shape.table };

    fn variants() -> &'static [Tag] {
        T::variants()
    }

    fn extended_variants() -> Option<&'static [Tag]> {
        T::extended_variants()
    }

    fn places() -> &'static [TagPlace] {
        T::places()
    }

    ghost tagged = { refl };

    ghost is_of = { λ _ _. refl };
}

impl<T: ChoiceAlternatives> Choice for ChoiceOf<T> {
    ghost place = { λ x. T.shape.place x.value };

    ghost inner = { λ x. T.shape.inner x.value };

    fn chosen(&self) -> Chosen {
        self.value.chosen()
    }

    fn write_chosen<E: Encoder>(&self, encoder: &mut E) -> Result<Tag, EncodeError> {
        self.value.write_chosen(encoder)
    }

    ghost means = { λ _. refl };
}

impl<T: ChoiceAlternatives> DecodeChoice for ChoiceOf<T> {
    fn from_chosen<D: Decoder>(
        alloc: Global,
        decoder: &mut D,
        chosen: Chosen,
    ) -> Result<Self, DecodeError> {
        let value = T::from_chosen(alloc, decoder, chosen)?;
        Ok(ChoiceOf { value })
    }
}

impl<T: ChoiceAlternatives> Encode for ChoiceOf<T> {
    fn encode_with_tag_and_constraints<E: Encoder>(
        &self,
        encoder: &mut E,
        tag: Tag,
        constraints: &Constraints,
    ) -> Result<(), EncodeError> {
        encoder.encode_choice(tag, constraints, self)
    }
}

impl<T: ChoiceAlternatives> Decode for ChoiceOf<T> {
    fn decode_with_tag_and_constraints<D: Decoder>(
        alloc: Global,
        decoder: &mut D,
        tag: Tag,
        constraints: &Constraints,
    ) -> Result<Self, DecodeError> {
        decoder.decode_choice(alloc, tag, constraints)
    }
}
