//! SEQUENCE {on BOOLEAN, level INTEGER (0..255) OPTIONAL, step NULL}.
ghost use Rattle.asn1_schema.specs.Author.{fields, no_constraint, sequence_form, sequence_type};
ghost use Rattle.std.specs.Prelude.{◌∷◌};
ghost use Rattle.asn1_schema.proofs.Author.{refl, [], type_sequence, value_sequence};

use asn1_schema::{
    AsnType, ComponentsOf, Constraints, Constructed, Decode, DecodeComponents, DecodeConstructed,
    DecodeError, Decoder, Described, Encode, EncodeComponents, EncodeConstructed, EncodeError,
    Encoder, End, Field, Fields, Global, Identifier, Optional, OptionalComponent, Required,
    RequiredComponent, Tag, TagTree, field,
};

/// A setting.
#[derive(Drop)]
pub struct Setting {
    /// Whether it is on.
    pub on: bool,
    /// Its level, if it has one.
    pub level: Option<u8>,
    /// NULL.
    pub step: (),
}

type Form = RequiredComponent<bool, OptionalComponent<u8, RequiredComponent<(), End>>>;

impl Described for Setting {
    ghost tags = { record { class = 0; number = 16 } ∷ [] };

    ghost own = { no_constraint };

    ghost under = { λ _. sequence_type ⟦<Form as ComponentsOf>⟧.table };

    ghost schema = { sequence_type ⟦<Form as ComponentsOf>⟧.table };

    ghost is_own = { λ _. refl };

    ghost meaning = { λ x. fields (⟦<Form as ComponentsOf>⟧.root
        (record { 0 = x.on; 1 = record { 0 = x.level; 1 = record { 0 = x.step; 1 = record {} } } }))
        (⟦<Form as ComponentsOf>⟧.added
        (record { 0 = x.on; 1 = record { 0 = x.level; 1 = record { 0 = x.step; 1 = record {} } } })) };

    ghost typed = { type_sequence _ refl (⟦<Form as ComponentsOf>⟧.typed tt) refl };

    ghost valued = { λ x. value_sequence _ (⟦<Form as ComponentsOf>⟧.valued tt
        (record { 0 = x.on; 1 = record { 0 = x.level; 1 = record { 0 = x.step; 1 = record {} } } })) };

    ghost valued_under = { λ _ x. value_sequence _ (⟦<Form as ComponentsOf>⟧.valued tt
        (record { 0 = x.on; 1 = record { 0 = x.level; 1 = record { 0 = x.step; 1 = record {} } } })) };
}

impl AsnType for Setting {
    const TAG: Tag = Tag::SEQUENCE;

    const IDENTIFIER: Identifier = Identifier(Some("Setting"));

    fn tag_tree() -> TagTree<'static> {
        TagTree::of(Self::TAG)
    }

    fn constraints() -> Constraints<'static> {
        Constraints::NONE
    }
}

impl Constructed for Setting {
    ghost form = { sequence_form };

    ghost table = { ⟦<Form as ComponentsOf>⟧.table };

    ghost root = { λ x. ⟦<Form as ComponentsOf>⟧.root
        (record { 0 = x.on; 1 = record { 0 = x.level; 1 = record { 0 = x.step; 1 = record {} } } }) };

    ghost added = { λ x. ⟦<Form as ComponentsOf>⟧.added
        (record { 0 = x.on; 1 = record { 0 = x.level; 1 = record { 0 = x.step; 1 = record {} } } }) };

    fn fields() -> Fields<'static> {
        const FIELDS: &'static [Field<'static>] = &[
            field!(0, "on", Required, Tag::BOOL),
            field!(1, "level", Optional, Tag::INTEGER),
            field!(2, "step", Required, Tag::NULL),
        ];
        Fields::from_static(FIELDS)
    }

    fn extended_fields() -> Option<Fields<'static>> {
        None
    }

    fn is_extensible() -> bool {
        false
    }

    fn write_fields<E: Encoder>(&self, encoder: &mut E) -> Result<(), EncodeError> {
        let components = Required(&self.on, Optional(&self.level, Required(&self.step, End)));
        components.encode_components(encoder)
    }

    fn read_fields<D: Decoder>(alloc: Global, decoder: &mut D) -> Result<Self, DecodeError> {
        let form = Form::decode_components(alloc, decoder)?;
        let RequiredComponent(on, OptionalComponent(level, RequiredComponent(step, End))) = form;
        Ok(Setting { on, level, step })
    }

    ghost means = { λ _. refl };

    ghost is_of = { λ _ _. refl };
}

impl Encode for Setting {
    fn encode_with_tag_and_constraints<E: Encoder>(
        &self,
        encoder: &mut E,
        tag: Tag,
        _constraints: &Constraints,
    ) -> Result<(), EncodeError> {
        encoder.encode_sequence(tag, self, Self::IDENTIFIER)
    }
}

impl Decode for Setting {
    fn decode_with_tag_and_constraints<D: Decoder>(
        alloc: Global,
        decoder: &mut D,
        tag: Tag,
        _constraints: &Constraints,
    ) -> Result<Self, DecodeError> {
        decoder.decode_sequence(alloc, tag)
    }
}
