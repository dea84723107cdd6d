//! A BOOLEAN and an INTEGER from -5 to 5.
ghost use Rattle.std.specs.Prelude.{refl};
ghost use Rattle.asn1_schema.proofs.Author.{sequence_of, sequence_tag};

use crate::small::Small;
use asn1_schema::{
    Components, ComponentsOf, DecodeComponents, DecodeError, Decoder, EncodeComponents,
    EncodeError, Encoder, End, Field, FieldTables, Fields, Heading, Identifier, Required,
    RequiredComponent, Sequence, Tag, field,
};
use std::alloc::Global;

/// SEQUENCE {a BOOLEAN, b INTEGER (-5..5)} (X.680 25).
pub type Pair = Sequence<PairFields>;

/// Its components.
#[derive(Debug, Drop)]
pub struct PairFields {
    /// The BOOLEAN.
    pub a: bool,
    /// The INTEGER.
    pub b: Small,
}

type Form = RequiredComponent<bool, RequiredComponent<Small, End>>;

impl Components for PairFields {
    const TAG: Tag = Tag::SEQUENCE;

    ghost TAG = { sequence_tag };

    const IDENTIFIER: Identifier = Identifier(Some("Pair"));

    ghost shape = { sequence_of ⟦<Form as ComponentsOf>⟧ tt refl
        (λ x. record { 0 = x.a; 1 = record { 0 = x.b; 1 = record {} } }) };

    fn heading() -> Heading {
        Heading::sequence(0)
    }

    fn write_components<E: Encoder>(&self, encoder: &mut E) -> Result<(), EncodeError> {
        Required(&self.a, Required(&self.b, End)).encode_components(encoder)
    }

    #[inline(always)]
    fn read_components<D: Decoder>(alloc: Global, decoder: &mut D) -> Result<Self, DecodeError> {
        let form = Form::decode_components(alloc, decoder)?;
        let RequiredComponent(a, RequiredComponent(b, End)) = form;
        Ok(PairFields { a, b })
    }
}

impl FieldTables for PairFields {
    fn fields() -> Fields<'static> {
        const FIELDS: &'static [Field<'static>] = &[
            field!(0, "a", Required, Tag::BOOL),
            field!(1, "b", Required, Tag::INTEGER),
        ];
        Fields::from_static(FIELDS)
    }

    fn extended_fields() -> Option<Fields<'static>> {
        None
    }
}
