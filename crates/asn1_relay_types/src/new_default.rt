//! SEQUENCE {s S DEFAULT {a TRUE}}, where S is SEQUENCE {a BOOLEAN, ..., b INTEGER (0..255) OPTIONAL}.
ghost use Rattle.std.specs.Prelude.{refl};
ghost use Rattle.asn1_schema.specs.Author.{absent, end, no_field};
ghost use Rattle.asn1_schema.proofs.Author.{constant_unfolds, default_gains, field_unfolds, gains_additions};
ghost use Rattle.asn1_schema.proofs.Author.{group_of, grown_field, no_fields, no_fields_unfold, same_tags};
ghost use Rattle.asn1_schema.proofs.Author.{sequence_extends, sequence_of, sequence_tag, sequence_unfolds};
ghost use Rattle.asn1_relay_types.specs.Defaults.{flag_table, new_true_stands, old_true_stands, one_optional, true_and};

use crate::new::{New, NewFields};
use crate::old::Old;
use crate::old_default::OldDefaultFields;
use asn1_schema::{
    Components, ComponentsOf, DecodeComponents, DecodeError, Decoder, DefaultOf, Defaulted,
    DefaultedComponent, Described, EncodeComponents, EncodeError, Encoder, End, ExtendsComponents,
    Field, FieldTables, Fields, GroupComponents, Heading, Identifier, Sequence, Tag, field,
};
use std::alloc::{AllocError, Global};
use std::marker::PhantomData;

/// A type whose only component has a default.
pub type NewDefault = Sequence<NewDefaultFields>;

/// Its component.
#[derive(Drop)]
pub struct NewDefaultFields {
    /// The component, {a TRUE} by default.
    pub s: New,
}

/// The default of the component.
#[derive(Drop)]
pub struct TrueAlone;

impl DefaultOf<New> for TrueAlone {
    ghost value = { true_and (absent end) };

    fn default_value(_alloc: Global) -> Result<New, AllocError> {
        Ok(Sequence::new(NewFields { a: true, b: None }))
    }

    fn is_default(component: &New) -> bool {
        component.value.a && component.value.b.is_none()
    }

    ghost lawful = { new_true_stands _ };
}

type Form = DefaultedComponent<TrueAlone, New, End>;

impl Components for NewDefaultFields {
    const TAG: Tag = Tag::SEQUENCE;

    ghost TAG = { sequence_tag };

    const IDENTIFIER: Identifier = Identifier(Some("NewDefault"));

    ghost shape = { sequence_of ⟦<Form as ComponentsOf>⟧ (new_true_stands _, tt) refl
        (λ x. record { 0 = x.s; 1 = record {}; 2 = record {} }) };

    fn heading() -> Heading {
        Heading::sequence(1)
    }

    fn write_components<E: Encoder>(&self, encoder: &mut E) -> Result<(), EncodeError> {
        Defaulted(&self.s, PhantomData::<TrueAlone>, End).encode_components(encoder)
    }

    #[inline(always)]
    fn read_components<D: Decoder>(alloc: Global, decoder: &mut D) -> Result<Self, DecodeError> {
        let DefaultedComponent(s, _, End) = Form::decode_components(alloc, decoder)?;
        Ok(NewDefaultFields { s })
    }
}

impl FieldTables for NewDefaultFields {
    fn fields() -> Fields<'static> {
        const FIELDS: &'static [Field<'static>] = &[field!(0, "s", Default, Tag::SEQUENCE)];
        Fields::from_static(FIELDS)
    }

    fn extended_fields() -> Option<Fields<'static>> {
        None
    }
}

/// Also as an extension addition group.
impl GroupComponents for NewDefaultFields {
    ghost group = { group_of ⟦<NewDefaultFields as Components>⟧.shape refl
        (record { not_extensible = refl; no_additions = refl; tagged = refl }) (λ _. refl) };

    fn is_empty(&self) -> bool {
        self.s.value.a && self.s.value.b.is_none()
    }

    ghost same = { refl };
}

/// The same component, whose type was extended. Its default is that of the other version, with the addition absent.
impl ExtendsComponents<OldDefaultFields> for NewDefaultFields {
    ghost extends = { sequence_extends (grown_field (same_tags ⟦<New as Described>⟧.tags)
        (default_gains (flag_table no_field) (one_optional _) old_true_stands (new_true_stands _))
        (gains_additions (flag_table no_field) (one_optional _) ⟦<Old as Described>⟧.typed.lawful refl) no_fields)
        refl no_fields };

    ghost old_unfolds = { sequence_unfolds _ (field_unfolds
        (sequence_unfolds (flag_table no_field) (field_unfolds constant_unfolds no_fields_unfold) no_fields_unfold)
        no_fields_unfold) no_fields_unfold };

    ghost unfolds = { sequence_unfolds _ (field_unfolds
        (sequence_unfolds (flag_table (one_optional _)) (field_unfolds constant_unfolds no_fields_unfold)
        (field_unfolds constant_unfolds no_fields_unfold)) no_fields_unfold) no_fields_unfold };
}
