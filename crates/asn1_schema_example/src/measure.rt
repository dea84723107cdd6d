//! SEQUENCE {offset INTEGER DEFAULT 0, exact BOOLEAN OPTIONAL}.
ghost use Rattle.std.specs.Prelude.{refl, [], ◌∷◌, pos};
ghost use Rattle.asn1_schema.specs.Author.{fields, number, no_constraint, sequence_form, sequence_type};
ghost use Rattle.asn1_schema.proofs.Author.{type_sequence, value_sequence, integer_default};

use asn1_schema::{
    AsnType, ComponentsOf, Constraints, Constructed, Decode, DecodeComponents, DecodeConstructed,
    DecodeError, Decoder, DefaultOf, Defaulted, DefaultedComponent, Described, Encode,
    EncodeComponents, EncodeConstructed, EncodeError, Encoder, End, EqualByMeaning, Field, Fields,
    Global, Identifier, Optional, OptionalComponent, Tag, TagTree, field,
};
use asn1_values::Integer;
use std::alloc::AllocError;
use std::marker::PhantomData;

/// A measure.
#[derive(Drop)]
pub struct Measure {
    /// The offset, 0 by default.
    pub offset: Integer,
    /// Whether it is exact, if that is known.
    pub exact: Option<bool>,
}

/// The default of an offset.
#[derive(Drop)]
pub struct Zero;

impl DefaultOf<Integer> for Zero {
    ghost value = { number (pos 0) };

    fn default_value(_alloc: Global) -> Result<Integer, AllocError> {
        Ok(Integer::zero())
    }

    fn is_default(component: &Integer) -> bool {
        component.means_same(&Integer::zero())
    }

    ghost lawful = { integer_default _ _ _ refl };
}

type Form = DefaultedComponent<Zero, Integer, OptionalComponent<bool, End>>;

impl Described for Measure {
    ghost tags = { record { class = 0; number = 16 } ∷ [] };

    ghost own = { no_constraint };

    ghost under = { λ _. sequence_type ⟦<Form as ComponentsOf>⟧.table };

    ghost schema = { sequence_type ⟦<Form as ComponentsOf>⟧.table };

    ghost is_own = { λ _. refl };

    ghost meaning = { λ x. fields (⟦<Form as ComponentsOf>⟧.root
        (record { 0 = x.offset; 1 = record {}; 2 = record { 0 = x.exact; 1 = record {} } }))
        (⟦<Form as ComponentsOf>⟧.added
        (record { 0 = x.offset; 1 = record {}; 2 = record { 0 = x.exact; 1 = record {} } })) };

    ghost typed = { type_sequence _ refl (⟦<Form as ComponentsOf>⟧.typed (integer_default _ _ _ refl, tt)) refl };

    ghost valued = { λ x. value_sequence _ (⟦<Form as ComponentsOf>⟧.valued (integer_default _ _ _ refl, tt)
        (record { 0 = x.offset; 1 = record {}; 2 = record { 0 = x.exact; 1 = record {} } })) };

    ghost valued_under = { λ _ x. value_sequence _ (⟦<Form as ComponentsOf>⟧.valued (integer_default _ _ _ refl, tt)
        (record { 0 = x.offset; 1 = record {}; 2 = record { 0 = x.exact; 1 = record {} } })) };
}

impl AsnType for Measure {
    const TAG: Tag = Tag::SEQUENCE;

    const IDENTIFIER: Identifier = Identifier(Some("Measure"));

    fn tag_tree() -> TagTree<'static> {
        TagTree::of(Self::TAG)
    }

    fn constraints() -> Constraints<'static> {
        Constraints::NONE
    }
}

impl Constructed for Measure {
    ghost form = { sequence_form };

    ghost table = { ⟦<Form as ComponentsOf>⟧.table };

    ghost root = { λ x. ⟦<Form as ComponentsOf>⟧.root
        (record { 0 = x.offset; 1 = record {}; 2 = record { 0 = x.exact; 1 = record {} } }) };

    ghost added = { λ x. ⟦<Form as ComponentsOf>⟧.added
        (record { 0 = x.offset; 1 = record {}; 2 = record { 0 = x.exact; 1 = record {} } }) };

    fn fields() -> Fields<'static> {
        const FIELDS: &'static [Field<'static>] = &[
            field!(0, "offset", Default, Tag::INTEGER),
            field!(1, "exact", Optional, Tag::BOOL),
        ];
        Fields::from_static(FIELDS)
    }

    fn extended_fields() -> Option<Fields<'static>> {
        None
    }

    fn is_extensible() -> bool {
        false
    }

    fn write_fields<E: Encoder>(&self, encoder: &mut E) -> Result<(), EncodeError> {
        let components = Defaulted(
            &self.offset,
            PhantomData::<Zero>,
            Optional(&self.exact, End),
        );
        components.encode_components(encoder)
    }

    fn read_fields<D: Decoder>(alloc: Global, decoder: &mut D) -> Result<Self, DecodeError> {
        let form = Form::decode_components(alloc, decoder)?;
        let DefaultedComponent(offset, _, OptionalComponent(exact, End)) = form;
        Ok(Measure { offset, exact })
    }

    ghost means = { λ _. refl };

    ghost is_of = { λ _ _. refl };
}

impl Encode for Measure {
    fn encode_with_tag_and_constraints<E: Encoder>(
        &self,
        encoder: &mut E,
        tag: Tag,
        _constraints: &Constraints,
    ) -> Result<(), EncodeError> {
        encoder.encode_sequence(tag, self, Self::IDENTIFIER)
    }
}

impl Decode for Measure {
    fn decode_with_tag_and_constraints<D: Decoder>(
        alloc: Global,
        decoder: &mut D,
        tag: Tag,
        _constraints: &Constraints,
    ) -> Result<Self, DecodeError> {
        decoder.decode_sequence(alloc, tag)
    }
}
