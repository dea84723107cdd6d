//! SEQUENCE {a BOOLEAN, ..., [[x INTEGER (0..255) OPTIONAL]]}.
ghost use Rattle.std.specs.Prelude.{refl};
ghost use Rattle.asn1_schema.proofs.Author.{sequence_of, sequence_tag};

use crate::extra::Extra;
use asn1_schema::{
    AddedGroup, AddedGroupComponent, Components, ComponentsOf, DecodeComponents, DecodeError,
    Decoder, EncodeComponents, EncodeError, Encoder, ExtensibleComponents, ExtensionMarker, Field,
    FieldTables, Fields, Heading, Identifier, NoMore, OneAddition, Required, RequiredComponent,
    Sequence, Tag, field,
};
use std::alloc::Global;

/// A version of a type, extended by an extension addition group.
pub type Group = Sequence<GroupFields>;

/// Its components.
#[derive(Drop)]
pub struct GroupFields {
    /// The component of the extension root.
    pub a: bool,
    /// The extension addition group.
    pub extra: Option<Extra>,
}

type Additions = AddedGroupComponent<Extra, NoMore>;

type Form = RequiredComponent<bool, ExtensibleComponents<OneAddition, Additions>>;

impl Components for GroupFields {
    const TAG: Tag = Tag::SEQUENCE;

    ghost TAG = { sequence_tag };

    const IDENTIFIER: Identifier = Identifier(Some("Group"));

    ghost shape = { sequence_of ⟦<Form as ComponentsOf>⟧ tt refl
        (λ x. record { 0 = x.a; 1 = record { 0 = record { 0 = x.extra; 1 = record {} }; 1 = record {} } }) };

    fn heading() -> Heading {
        Heading::sequence(0).extensible()
    }

    fn write_components<E: Encoder>(&self, encoder: &mut E) -> Result<(), EncodeError> {
        let additions = AddedGroup(&self.extra, NoMore);
        Required(&self.a, ExtensionMarker { additions }).encode_components(encoder)
    }

    #[inline(always)]
    fn read_components<D: Decoder>(alloc: Global, decoder: &mut D) -> Result<Self, DecodeError> {
        let form = Form::decode_components(alloc, decoder)?;
        let RequiredComponent(a, ExtensibleComponents(AddedGroupComponent(extra, NoMore), _)) =
            form;
        Ok(GroupFields { a, extra })
    }
}

impl FieldTables for GroupFields {
    fn fields() -> Fields<'static> {
        const FIELDS: &'static [Field<'static>] = &[field!(0, "a", Required, Tag::BOOL)];
        Fields::from_static(FIELDS)
    }

    fn extended_fields() -> Option<Fields<'static>> {
        const FIELDS: &'static [Field<'static>] = &[field!(0, "extra", Optional, Tag::INTEGER)];
        Some(Fields::from_static(FIELDS))
    }
}
