//! SEQUENCE {s S DEFAULT {a TRUE}}, where S is SEQUENCE {a BOOLEAN, ...}.
ghost use Rattle.std.specs.Prelude.{refl};
ghost use Rattle.asn1_schema.specs.Author.{end};
ghost use Rattle.asn1_schema.proofs.Author.{group_of, sequence_of, sequence_tag};
ghost use Rattle.asn1_relay_types.specs.Defaults.{true_and, old_true_stands};

use crate::old::{Old, OldFields};
use asn1_schema::{
    Components, ComponentsOf, DecodeComponents, DecodeError, Decoder, DefaultOf, Defaulted,
    DefaultedComponent, EncodeComponents, EncodeError, Encoder, End, Field, FieldTables, Fields,
    GroupComponents, Heading, Identifier, Sequence, Tag, field,
};
use std::alloc::{AllocError, Global};
use std::marker::PhantomData;

/// A type whose only component has a default.
pub type OldDefault = Sequence<OldDefaultFields>;

/// Its component.
#[derive(Drop)]
pub struct OldDefaultFields {
    /// The component, {a TRUE} by default.
    pub s: Old,
}

/// The default of the component.
#[derive(Drop)]
pub struct TrueAlone;

impl DefaultOf<Old> for TrueAlone {
    ghost value = { true_and end };

    fn default_value(_alloc: Global) -> Result<Old, AllocError> {
        Ok(Sequence::new(OldFields { a: true }))
    }

    fn is_default(component: &Old) -> bool {
        component.value.a
    }

    ghost lawful = { old_true_stands };
}

type Form = DefaultedComponent<TrueAlone, Old, End>;

impl Components for OldDefaultFields {
    const TAG: Tag = Tag::SEQUENCE;

    ghost TAG = { sequence_tag };

    const IDENTIFIER: Identifier = Identifier(Some("OldDefault"));

    ghost shape = { sequence_of ⟦<Form as ComponentsOf>⟧ (old_true_stands, tt) refl
        (λ x. record { 0 = x.s; 1 = record {}; 2 = record {} }) };

    fn heading() -> Heading {
        Heading::sequence(1)
    }

    fn write_components<E: Encoder>(&self, encoder: &mut E) -> Result<(), EncodeError> {
        Defaulted(&self.s, PhantomData::<TrueAlone>, End).encode_components(encoder)
    }

    #[inline(always)]
    fn read_components<D: Decoder>(alloc: Global, decoder: &mut D) -> Result<Self, DecodeError> {
        let DefaultedComponent(s, _, End) = Form::decode_components(alloc, decoder)?;
        Ok(OldDefaultFields { s })
    }
}

impl FieldTables for OldDefaultFields {
    fn fields() -> Fields<'static> {
        const FIELDS: &'static [Field<'static>] = &[field!(0, "s", Default, Tag::SEQUENCE)];
        Fields::from_static(FIELDS)
    }

    fn extended_fields() -> Option<Fields<'static>> {
        None
    }
}

/// Also as an extension addition group.
impl GroupComponents for OldDefaultFields {
    ghost group = { group_of ⟦<OldDefaultFields as Components>⟧.shape refl
        (record { not_extensible = refl; no_additions = refl; tagged = refl }) (λ _. refl) };

    fn is_empty(&self) -> bool {
        self.s.value.a
    }

    ghost same = { refl };
}
