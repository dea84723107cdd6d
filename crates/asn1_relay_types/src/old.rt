//! SEQUENCE {a BOOLEAN, ...}.
ghost use Rattle.std.specs.Prelude.{refl};
ghost use Rattle.asn1_schema.proofs.Author.{sequence_of, sequence_tag};

use asn1_schema::{
    Components, ComponentsOf, DecodeComponents, DecodeError, Decoder, EncodeComponents,
    EncodeError, Encoder, ExtensibleComponents, ExtensionMarker, Field, FieldTables, Fields,
    Heading, Identifier, NoAddition, NoMore, Required, RequiredComponent, Sequence, Tag, field,
};
use std::alloc::Global;

/// The older version of a type, without extension additions.
pub type Old = Sequence<OldFields>;

/// Its components.
#[derive(Drop)]
pub struct OldFields {
    /// Its only component.
    pub a: bool,
}

type Form = RequiredComponent<bool, ExtensibleComponents<NoAddition, NoMore>>;

impl Components for OldFields {
    const TAG: Tag = Tag::SEQUENCE;

    ghost TAG = { sequence_tag };

    const IDENTIFIER: Identifier = Identifier(Some("Old"));

    ghost shape = { sequence_of ⟦<Form as ComponentsOf>⟧ tt refl
        (λ x. record { 0 = x.a; 1 = record { 0 = record {}; 1 = record {} } }) };

    fn heading() -> Heading {
        Heading::sequence(0).extensible()
    }

    fn write_components<E: Encoder>(&self, encoder: &mut E) -> Result<(), EncodeError> {
        let marker = ExtensionMarker { additions: NoMore };
        Required(&self.a, marker).encode_components(encoder)
    }

    #[inline(always)]
    fn read_components<D: Decoder>(alloc: Global, decoder: &mut D) -> Result<Self, DecodeError> {
        let form = Form::decode_components(alloc, decoder)?;
        let RequiredComponent(a, ExtensibleComponents(NoMore, _)) = form;
        Ok(OldFields { a })
    }
}

impl FieldTables for OldFields {
    fn fields() -> Fields<'static> {
        const FIELDS: &'static [Field<'static>] = &[field!(0, "a", Required, Tag::BOOL)];
        Fields::from_static(FIELDS)
    }

    fn extended_fields() -> Option<Fields<'static>> {
        const FIELDS: &'static [Field<'static>] = &[];
        Some(Fields::from_static(FIELDS))
    }
}
