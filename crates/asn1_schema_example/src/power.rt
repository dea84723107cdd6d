//! CHOICE {on [7] BOOLEAN, off [1] NULL}. Its alternatives are indexed in the order of their tags: off, on (X.680 8.6).
ghost use Rattle.std.specs.Prelude.{◌∷◌, [], refl, true, false};
ghost use Rattle.asn1_schema.specs.Author.{nothing, context, no_constraint, variant, no_variant, choice_type};
ghost use Rattle.asn1_schema.specs.Author.{chosen_value};
ghost use Rattle.asn1_schema.proofs.Author.{type_choice, more_variants, no_variants, value_choice, null_value};

use asn1_schema::{
    Alternatives, AsnType, Choice, Chosen, Constraints, Decode, DecodeAlternatives, DecodeChoice,
    DecodeError, Decoder, Described, Encode, EncodeChoice, EncodeError, Encoder, Global,
    Identifier, Tag, TagPlace, TagTree, place, read_alternative, tagged, write_alternative,
};

/// Whether something is on.
#[derive(Drop)]
pub enum Power {
    /// It is off.
    Off,
    /// It is on, with a flag.
    On(bool),
}

const OFF: Tag = tagged!(Context, 1);

const ON: Tag = tagged!(Context, 7);

impl Described for Power {
    ghost use Rattle.asn1_schema_example.specs.declared.power.Power.TheVariants.{Off, On};

    ghost tags = { context 1 ∷ context 7 ∷ [] };

    ghost own = { no_constraint };

    ghost under = { λ _. choice_type
        (record {
          root = variant (context 1) ⟦<() as Described>⟧.schema
              (variant (context 7) ⟦<bool as Described>⟧.schema no_variant);
          extensible = false;
          additions = no_variant;
        }) };

    ghost schema = { choice_type (record {
      root = variant (context 1) ⟦<() as Described>⟧.schema
          (variant (context 7) ⟦<bool as Described>⟧.schema no_variant);
      extensible = false;
      additions = no_variant;
    }) };

    ghost is_own = { λ _. refl };

    ghost meaning = { elim [
      | Off ↦ chosen_value (record { added = false; place = 0 }) (nothing)
      | On x ↦ chosen_value
          (record { added = false; place = 1 }) (⟦<bool as Described>⟧.meaning x)
    ] };

    ghost typed = { type_choice _ refl (more_variants _ refl ⟦<() as Described>⟧.typed
        (more_variants _ refl ⟦<bool as Described>⟧.typed no_variants)) no_variants refl };

    ghost valued = { elim [
      | Off ↦ value_choice _ false 0 (null_value)
      | On x ↦ value_choice _ false 1
          (⟦<bool as Described>⟧.valued x)
    ] };

    ghost valued_under = { λ _. elim [
      | Off ↦ value_choice _ false 0 (null_value)
      | On x ↦ value_choice _ false 1
          (⟦<bool as Described>⟧.valued x)
    ] };
}

impl AsnType for Power {
    const TAG: Tag = Tag::CHOICE;

    const IDENTIFIER: Identifier = Identifier(Some("Power"));

    const IS_CHOICE: bool = true;

    fn tag_tree() -> TagTree<'static> {
        const TREES: &'static [TagTree<'static>] = &[TagTree::Leaf(OFF), TagTree::Leaf(ON)];
        TagTree::Choice(TREES)
    }

    fn constraints() -> Constraints<'static> {
        Constraints::NONE
    }
}

impl Alternatives for Power {
    ghost table = { record {
      root = variant (context 1) ⟦<() as Described>⟧.schema
          (variant (context 7) ⟦<bool as Described>⟧.schema no_variant);
      extensible = false;
      additions = no_variant;
    } };

    fn variants() -> &'static [Tag] {
        &[OFF, ON]
    }

    fn extended_variants() -> Option<&'static [Tag]> {
        None
    }

    fn places() -> &'static [TagPlace] {
        &[place!(OFF, 0), place!(ON, 1)]
    }

    ghost tagged = { refl };

    ghost is_of = { λ _ _. refl };
}

impl Choice for Power {
    ghost use Rattle.asn1_schema_example.specs.declared.power.Power.TheVariants.{Off, On};

    ghost place = { elim [ Off ↦ record { added = false; place = 0 } | On x ↦ record { added = false; place = 1 } ] };

    ghost inner = { elim [ Off ↦ nothing | On x ↦ ⟦<bool as Described>⟧.meaning x ] };

    fn chosen(&self) -> Chosen {
        match self {
            Power::Off => Chosen::root(0),
            Power::On(_) => Chosen::root(1),
        }
    }

    fn write_chosen<E: Encoder>(&self, encoder: &mut E) -> Result<Tag, EncodeError> {
        match self {
            Power::Off => {
                ().encode_with_tag(encoder, OFF)?;
                Ok(OFF)
            }
            Power::On(value) => write_alternative!(encoder, value, ON),
        }
    }

    ghost means = { elim [ Off ↦ refl | On x ↦ refl ] };
}

impl DecodeChoice for Power {
    fn from_chosen<D: Decoder>(
        alloc: Global,
        decoder: &mut D,
        chosen: Chosen,
    ) -> Result<Self, DecodeError> {
        match (chosen.added, chosen.place) {
            (false, 0) => {
                <()>::decode_with_tag(alloc, decoder, OFF)?;
                Ok(Power::Off)
            }
            (false, 1) => read_alternative!(alloc, decoder, bool, Power::On, ON),
            _ => unreachable!(),
        }
    }
}

impl Encode for Power {
    fn encode_with_tag_and_constraints<E: Encoder>(
        &self,
        encoder: &mut E,
        tag: Tag,
        constraints: &Constraints,
    ) -> Result<(), EncodeError> {
        encoder.encode_choice(tag, constraints, self)
    }
}

impl Decode for Power {
    fn decode_with_tag_and_constraints<D: Decoder>(
        alloc: Global,
        decoder: &mut D,
        tag: Tag,
        constraints: &Constraints,
    ) -> Result<Self, DecodeError> {
        decoder.decode_choice(alloc, tag, constraints)
    }
}
