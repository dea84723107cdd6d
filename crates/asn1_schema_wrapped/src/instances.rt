//! Values with the identifier of their type.
ghost use Rattle.std.specs.Prelude.{refl, [], ◌∷◌};
ghost use Rattle.asn1_model.specs.Value.{fields};
ghost use Rattle.asn1_schema_constraints.specs.Terms.{no_constraint};
ghost use Rattle.asn1_schema_laws.specs.Tables.{sequence_type};
ghost use Rattle.asn1_schema_laws.proofs.Same.{arcs_agree};
ghost use Rattle.asn1_schema_laws.proofs.Values.{type_sequence, value_sequence};
ghost use Rattle.asn1_schema_wrapped.specs.Instances.{instances_agree};

use crate::tag::Context;
use crate::tagged::Explicit;
use asn1_schema_constraints::Constraints;
use asn1_schema_decode::{Decode, DecodeSequence, Decoder};
use asn1_schema_encode::{Encode, EncodeSequence, Encoder};
use asn1_schema_errors::{DecodeError, EncodeError};
use asn1_schema_tags::{Identifier, Tag, TagTree};
use asn1_schema_types::{
    AsnType, ComponentsOf, Described, End, EqualByMeaning, Required, RequiredComponent,
};
use asn1_values_identifiers::ObjectIdentifier;
use std::alloc::Global;

/// A value with the identifier of its type (X.681 annex C): a SEQUENCE with the tag of EXTERNAL, of the identifier and
/// the value, which has the explicit context tag 0.
#[derive(Clone, Debug, Drop, PartialEq, Eq)]
pub struct InstanceOf<T> {
    /// The identifier of the type.
    pub type_id: ObjectIdentifier,
    /// The value.
    pub value: T,
}

type Form<T> = RequiredComponent<ObjectIdentifier, RequiredComponent<Explicit<Context<0>, T>, End>>;

impl<T: Described> Described for InstanceOf<T> {
    ghost tags = { record { class = 0; number = 8 } ∷ [] };

    ghost own = { no_constraint };

    ghost under = { λ _. sequence_type ⟦<Form<T> as ComponentsOf>⟧.table };

    ghost schema = { sequence_type ⟦<Form<T> as ComponentsOf>⟧.table };

    ghost is_own = { λ _. refl };

    ghost meaning = { λ x. fields (⟦<Form<T> as ComponentsOf>⟧.root
        (record { 0 = x.type_id; 1 = record { 0 = record { value = x.value; tag = _ }; 1 = record {} } }))
        (⟦<Form<T> as ComponentsOf>⟧.added
        (record { 0 = x.type_id; 1 = record { 0 = record { value = x.value; tag = _ }; 1 = record {} } })) };

    ghost typed = { type_sequence _ refl (⟦<Form<T> as ComponentsOf>⟧.typed tt) refl };

    ghost valued = { λ x. value_sequence _ (⟦<Form<T> as ComponentsOf>⟧.valued tt
        (record { 0 = x.type_id; 1 = record { 0 = record { value = x.value; tag = _ }; 1 = record {} } })) };

    ghost valued_under = { λ _ x. value_sequence _ (⟦<Form<T> as ComponentsOf>⟧.valued tt
        (record { 0 = x.type_id; 1 = record { 0 = record { value = x.value; tag = _ }; 1 = record {} } })) };
}

/// Values with the identifiers of their types are equal exactly if what they mean is equal.
impl<T: EqualByMeaning> EqualByMeaning for InstanceOf<T> {
    ghost agrees = { λ x y. instances_agree _ _ _ _ (arcs_agree x.type_id y.type_id) (T.agrees x.value y.value) };
}

impl<T: AsnType> AsnType for InstanceOf<T> {
    const TAG: Tag = Tag::EXTERNAL;

    const IDENTIFIER: Identifier = Identifier::INSTANCE_OF;

    fn tag_tree() -> TagTree<'static> {
        TagTree::of(Tag::EXTERNAL)
    }

    fn constraints() -> Constraints<'static> {
        Constraints::NONE
    }
}

impl<T: Encode> Encode for InstanceOf<T> {
    fn encode_with_tag_and_constraints<E: Encoder>(
        &self,
        encoder: &mut E,
        tag: Tag,
        _constraints: &Constraints,
    ) -> Result<(), EncodeError> {
        encoder.encode_sequence_components(
            tag,
            0,
            &Required(
                &self.type_id,
                Required(&Explicit::<Context<0>, _>::new(&self.value), End),
            ),
        )
    }
}

impl<T: Decode> Decode for InstanceOf<T> {
    fn decode_with_tag_and_constraints<D: Decoder>(
        alloc: Global,
        decoder: &mut D,
        tag: Tag,
        _constraints: &Constraints,
    ) -> Result<Self, DecodeError> {
        let form = decoder.decode_sequence_components::<Form<T>>(alloc, tag, 0)?;
        let RequiredComponent(type_id, RequiredComponent(value, End)) = form;
        Ok(InstanceOf {
            type_id,
            value: value.value,
        })
    }
}
