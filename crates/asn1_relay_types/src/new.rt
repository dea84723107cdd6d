//! SEQUENCE {a BOOLEAN, ..., b INTEGER (0..255) OPTIONAL}.
ghost use Rattle.std.specs.Prelude.{refl};
ghost use Rattle.asn1_schema.proofs.Author.{constant_unfolds, field_unfolds, gains_additions, no_fields_unfold};
ghost use Rattle.asn1_schema.proofs.Author.{sequence_of, sequence_tag, sequence_unfolds};

use crate::old::{Old, OldFields};
use asn1_schema::{
    AddedOptional, AddedOptionalComponent, AdditionsOf, Components, ComponentsOf, DecodeComponents,
    DecodeError, Decoder, Described, EncodeComponents, EncodeError, Encoder, ExtendsComponents,
    ExtensibleComponents, ExtensionMarker, Field, FieldTables, Fields, Heading, Identifier, NoMore,
    OneAddition, Required, RequiredComponent, Sequence, Tag, field,
};
use std::alloc::Global;

/// A newer version of `Old`, extended by `b`.
pub type New = Sequence<NewFields>;

/// Its components.
#[derive(Drop)]
pub struct NewFields {
    /// The component of the extension root.
    pub a: bool,
    /// The extension addition.
    pub b: Option<u8>,
}

type Additions = AddedOptionalComponent<u8, NoMore>;

type Form = RequiredComponent<bool, ExtensibleComponents<OneAddition, Additions>>;

impl Components for NewFields {
    const TAG: Tag = Tag::SEQUENCE;

    ghost TAG = { sequence_tag };

    const IDENTIFIER: Identifier = Identifier(Some("New"));

    ghost shape = { sequence_of ⟦<Form as ComponentsOf>⟧ tt refl
        (λ x. record { 0 = x.a; 1 = record { 0 = record { 0 = x.b; 1 = record {} }; 1 = record {} } }) };

    fn heading() -> Heading {
        Heading::sequence(0).extensible()
    }

    fn write_components<E: Encoder>(&self, encoder: &mut E) -> Result<(), EncodeError> {
        let additions = AddedOptional(&self.b, NoMore);
        Required(&self.a, ExtensionMarker { additions }).encode_components(encoder)
    }

    #[inline(always)]
    fn read_components<D: Decoder>(alloc: Global, decoder: &mut D) -> Result<Self, DecodeError> {
        let form = Form::decode_components(alloc, decoder)?;
        let RequiredComponent(a, ExtensibleComponents(AddedOptionalComponent(b, NoMore), _)) = form;
        Ok(NewFields { a, b })
    }
}

impl FieldTables for NewFields {
    fn fields() -> Fields<'static> {
        const FIELDS: &'static [Field<'static>] = &[field!(0, "a", Required, Tag::BOOL)];
        Fields::from_static(FIELDS)
    }

    fn extended_fields() -> Option<Fields<'static>> {
        const FIELDS: &'static [Field<'static>] = &[field!(0, "b", Optional, Tag::INTEGER)];
        Some(Fields::from_static(FIELDS))
    }
}

/// The components of the other version, and the extension addition `b`.
impl ExtendsComponents<OldFields> for NewFields {
    ghost extends = { gains_additions _ ⟦<Additions as AdditionsOf>⟧.additions ⟦<Old as Described>⟧.typed.lawful refl };

    ghost old_unfolds = { sequence_unfolds _ (field_unfolds constant_unfolds no_fields_unfold) no_fields_unfold };

    ghost unfolds = { sequence_unfolds _ (field_unfolds constant_unfolds no_fields_unfold)
        (field_unfolds constant_unfolds no_fields_unfold) };
}
