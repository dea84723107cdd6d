//! SET {power CHOICE {on [7] BOOLEAN, off [1] NULL}, level [0] INTEGER (0..255)}. The smallest tag of the CHOICE, [1],
//! determines its order, so it comes after the INTEGER (X.680 8.6).
ghost use Rattle.std.specs.Prelude.{refl, [], ◌∷◌};
ghost use Rattle.asn1_schema.specs.Author.{fields, no_constraint, set_form, set_type};
ghost use Rattle.asn1_schema.proofs.Author.{type_set, value_set};

use crate::power::Power;
use asn1_schema::{
    AsnType, ComponentsOf, Constraints, Constructed, Decode, DecodeComponents, DecodeError,
    DecodeSet, Decoder, Described, Encode, EncodeComponents, EncodeError, EncodeSet, Encoder, End,
    Field, FieldPresence, Fields, Global, Identifier, Implicit, Required, RequiredComponent, Tag,
    TagTree, field, tag, tagged,
};

/// An INTEGER, and an untagged CHOICE after it.
#[derive(Drop)]
pub struct Gauge {
    /// The level, from 0 to 255.
    pub level: Implicit<tag::Context<0>, u8>,
    /// Whether it is on, a CHOICE without a tag of its own.
    pub power: Power,
}

type Form = RequiredComponent<Implicit<tag::Context<0>, u8>, RequiredComponent<Power, End>>;

impl Described for Gauge {
    ghost tags = { record { class = 0; number = 17 } ∷ [] };

    ghost own = { no_constraint };

    ghost under = { λ _. set_type ⟦<Form as ComponentsOf>⟧.table };

    ghost schema = { set_type ⟦<Form as ComponentsOf>⟧.table };

    ghost is_own = { λ _. refl };

    ghost meaning = { λ x. fields (⟦<Form as ComponentsOf>⟧.root
        (record { 0 = x.level; 1 = record { 0 = x.power; 1 = record {} } }))
        (⟦<Form as ComponentsOf>⟧.added (record { 0 = x.level; 1 = record { 0 = x.power; 1 = record {} } })) };

    ghost typed = { type_set _ refl (⟦<Form as ComponentsOf>⟧.typed tt) refl refl };

    ghost valued = { λ x. value_set _ (⟦<Form as ComponentsOf>⟧.valued tt
        (record { 0 = x.level; 1 = record { 0 = x.power; 1 = record {} } })) };

    ghost valued_under = { λ _ x. value_set _ (⟦<Form as ComponentsOf>⟧.valued tt
        (record { 0 = x.level; 1 = record { 0 = x.power; 1 = record {} } })) };
}

impl AsnType for Gauge {
    const TAG: Tag = Tag::SET;

    const IDENTIFIER: Identifier = Identifier(Some("Gauge"));

    fn tag_tree() -> TagTree<'static> {
        TagTree::of(Self::TAG)
    }

    fn constraints() -> Constraints<'static> {
        Constraints::NONE
    }
}

impl Constructed for Gauge {
    ghost form = { set_form };

    ghost table = { ⟦<Form as ComponentsOf>⟧.table };

    ghost root = { λ x. ⟦<Form as ComponentsOf>⟧.root
        (record { 0 = x.level; 1 = record { 0 = x.power; 1 = record {} } }) };

    ghost added = { λ x. ⟦<Form as ComponentsOf>⟧.added
        (record { 0 = x.level; 1 = record { 0 = x.power; 1 = record {} } }) };

    fn fields() -> Fields<'static> {
        const FIELDS: &'static [Field<'static>] = &[
            field!(0, "level", Required, tagged!(Context, 0)),
            Field {
                index: 1,
                tag: Tag::CHOICE,
                tag_tree: TagTree::Choice(&[
                    TagTree::Leaf(tagged!(Context, 1)),
                    TagTree::Leaf(tagged!(Context, 7)),
                ]),
                presence: FieldPresence::Required,
                name: "power",
            },
        ];
        Fields::from_static(FIELDS)
    }

    fn extended_fields() -> Option<Fields<'static>> {
        None
    }

    fn is_extensible() -> bool {
        false
    }

    fn write_fields<E: Encoder>(&self, encoder: &mut E) -> Result<(), EncodeError> {
        let components = Required(&self.level, Required(&self.power, End));
        components.encode_components(encoder)
    }

    fn read_fields<D: Decoder>(alloc: Global, decoder: &mut D) -> Result<Self, DecodeError> {
        let form = Form::decode_components(alloc, decoder)?;
        let RequiredComponent(level, RequiredComponent(power, End)) = form;
        Ok(Gauge { level, power })
    }

    ghost means = { λ _. refl };

    ghost is_of = { λ _ _. refl };
}

impl Encode for Gauge {
    fn encode_with_tag_and_constraints<E: Encoder>(
        &self,
        encoder: &mut E,
        tag: Tag,
        _constraints: &Constraints,
    ) -> Result<(), EncodeError> {
        encoder.encode_set(tag, self, Self::IDENTIFIER)
    }
}

impl Decode for Gauge {
    fn decode_with_tag_and_constraints<D: Decoder>(
        alloc: Global,
        decoder: &mut D,
        tag: Tag,
        _constraints: &Constraints,
    ) -> Result<Self, DecodeError> {
        decoder.decode_set(alloc, tag)
    }
}
