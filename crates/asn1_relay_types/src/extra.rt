//! The group [[x INTEGER (0..255) OPTIONAL]].
ghost use Rattle.std.specs.Prelude.{refl};
ghost use Rattle.asn1_schema.proofs.Author.{group_of, sequence_of, sequence_tag};

use asn1_schema::{
    Components, ComponentsOf, DecodeComponents, DecodeError, Decoder, EncodeComponents,
    EncodeError, Encoder, End, Field, FieldTables, Fields, GroupComponents, Heading, Identifier,
    Optional, OptionalComponent, Sequence, Tag, field,
};
use std::alloc::Global;

/// An extension addition group (X.680 25).
pub type Extra = Sequence<ExtraFields>;

/// Its components.
#[derive(Drop)]
pub struct ExtraFields {
    /// Its only component.
    pub x: Option<u8>,
}

type Form = OptionalComponent<u8, End>;

impl Components for ExtraFields {
    const TAG: Tag = Tag::SEQUENCE;

    ghost TAG = { sequence_tag };

    const IDENTIFIER: Identifier = Identifier(Some("Extra"));

    ghost shape = { sequence_of ⟦<Form as ComponentsOf>⟧ tt refl (λ x. record { 0 = x.x; 1 = record {} }) };

    fn heading() -> Heading {
        Heading::sequence(1)
    }

    fn write_components<E: Encoder>(&self, encoder: &mut E) -> Result<(), EncodeError> {
        Optional(&self.x, End).encode_components(encoder)
    }

    #[inline(always)]
    fn read_components<D: Decoder>(alloc: Global, decoder: &mut D) -> Result<Self, DecodeError> {
        let OptionalComponent(x, End) = Form::decode_components(alloc, decoder)?;
        Ok(ExtraFields { x })
    }
}

impl FieldTables for ExtraFields {
    fn fields() -> Fields<'static> {
        const FIELDS: &'static [Field<'static>] = &[field!(0, "x", Optional, Tag::INTEGER)];
        Fields::from_static(FIELDS)
    }

    fn extended_fields() -> Option<Fields<'static>> {
        None
    }
}

impl GroupComponents for ExtraFields {
    ghost group = { group_of ⟦<ExtraFields as Components>⟧.shape refl
        (record { not_extensible = refl; no_additions = refl; tagged = refl }) (λ _. refl) };

    fn is_empty(&self) -> bool {
        self.x.is_none()
    }

    ghost same = { refl };
}
