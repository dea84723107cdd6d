//! CHOICE {flag [0] BOOLEAN, count [1] INTEGER, ..., name [2] UTF8String}.
ghost use Rattle.std.specs.Prelude.{◌∷◌, [], refl, true, false};
ghost use Rattle.asn1_schema.specs.Author.{choice_type, chosen_value, context, no_constraint, no_variant, variant};
ghost use Rattle.asn1_schema.proofs.Author.{more_variants, no_variants, type_choice, value_choice};

use asn1_schema::{
    Alternatives, AsnType, Choice, Chosen, Constraints, Decode, DecodeAlternatives, DecodeChoice,
    DecodeError, Decoder, Described, Encode, EncodeChoice, EncodeError, Encoder, Global,
    Identifier, Tag, TagPlace, TagTree, place, read_alternative, tagged, write_alternative,
};
use asn1_values::Integer;

/// A message.
#[derive(Drop)]
pub enum Message {
    /// A flag.
    Flag(bool),
    /// A count.
    Count(Integer),
    /// A name, an extension addition.
    Name(String),
}

const FLAG: Tag = tagged!(Context, 0);

const COUNT: Tag = tagged!(Context, 1);

const NAME: Tag = tagged!(Context, 2);

impl Described for Message {
    ghost use Rattle.asn1_schema_example.specs.declared.message.Message.TheVariants.{Flag, Count, Name};

    ghost tags = { context 0 ∷ context 1 ∷ context 2 ∷ [] };

    ghost own = { no_constraint };

    ghost under = { λ _. choice_type
        (record {
          root = variant (context 0) ⟦<bool as Described>⟧.schema
              (variant (context 1) ⟦<Integer as Described>⟧.schema no_variant);
          extensible = true;
          additions = variant
              (context 2) ⟦<String as Described>⟧.schema no_variant;
        }) };

    ghost schema = { choice_type (record {
      root = variant (context 0) ⟦<bool as Described>⟧.schema
          (variant (context 1) ⟦<Integer as Described>⟧.schema no_variant);
      extensible = true;
      additions = variant
          (context 2) ⟦<String as Described>⟧.schema no_variant;
    }) };

    ghost is_own = { λ _. refl };

    ghost meaning = { elim [
      | Flag x ↦ chosen_value (record { added = false; place = 0 })
          (⟦<bool as Described>⟧.meaning x)
      | Count x ↦ chosen_value (record { added = false; place = 1 })
          (⟦<Integer as Described>⟧.meaning x)
      | Name x ↦ chosen_value (record { added = true; place = 0 })
          (⟦<String as Described>⟧.meaning x)
    ] };

    ghost typed = { type_choice _ refl (more_variants _ refl ⟦<bool as Described>⟧.typed
        (more_variants _ refl ⟦<Integer as Described>⟧.typed no_variants))
        (more_variants _ refl ⟦<String as Described>⟧.typed no_variants) refl };

    ghost valued = { elim [
      | Flag x ↦ value_choice _ false 0 (⟦<bool as Described>⟧.valued x)
      | Count x ↦ value_choice
          _ false 1 (⟦<Integer as Described>⟧.valued x)
      | Name x ↦ value_choice _ true 0
          (⟦<String as Described>⟧.valued x)
    ] };

    ghost valued_under = { λ _. elim [
      | Flag x ↦ value_choice _ false 0 (⟦<bool as Described>⟧.valued x)
      | Count x ↦
          value_choice _ false 1 (⟦<Integer as Described>⟧.valued x)
      | Name x ↦ value_choice _ true 0
          (⟦<String as Described>⟧.valued x)
    ] };
}

impl AsnType for Message {
    const TAG: Tag = Tag::CHOICE;

    const IDENTIFIER: Identifier = Identifier(Some("Message"));

    const IS_CHOICE: bool = true;

    fn tag_tree() -> TagTree<'static> {
        const TREES: &'static [TagTree<'static>] = &[
            TagTree::Leaf(FLAG),
            TagTree::Leaf(COUNT),
            TagTree::Leaf(NAME),
        ];
        TagTree::Choice(TREES)
    }

    fn constraints() -> Constraints<'static> {
        Constraints::NONE
    }
}

impl Alternatives for Message {
    ghost table = { record {
      root = variant (context 0) ⟦<bool as Described>⟧.schema
          (variant (context 1) ⟦<Integer as Described>⟧.schema no_variant);
      extensible = true;
      additions = variant
          (context 2) ⟦<String as Described>⟧.schema no_variant;
    } };

    fn variants() -> &'static [Tag] {
        &[FLAG, COUNT]
    }

    fn extended_variants() -> Option<&'static [Tag]> {
        Some(&[NAME])
    }

    fn places() -> &'static [TagPlace] {
        &[place!(FLAG, 0), place!(COUNT, 1), place!(NAME, 2)]
    }

    ghost tagged = { refl };

    ghost is_of = { λ _ _. refl };
}

impl Choice for Message {
    ghost use Rattle.asn1_schema_example.specs.declared.message.Message.TheVariants.{Flag, Count, Name};

    ghost place = { elim [
      | Flag x ↦ record { added = false; place = 0 }
      | Count x ↦
          record { added = false; place = 1 }
      | Name x ↦ record { added = true; place = 0 }
    ] };

    ghost inner = { elim [
      | Flag x ↦ ⟦<bool as Described>⟧.meaning x
      | Count x ↦ ⟦<Integer as Described>⟧.meaning x
      | Name x ↦ ⟦<String as Described>⟧.meaning x
    ] };

    fn chosen(&self) -> Chosen {
        match self {
            Message::Flag(_) => Chosen::root(0),
            Message::Count(_) => Chosen::root(1),
            Message::Name(_) => Chosen::addition(0),
        }
    }

    fn write_chosen<E: Encoder>(&self, encoder: &mut E) -> Result<Tag, EncodeError> {
        match self {
            Message::Flag(value) => write_alternative!(encoder, value, FLAG),
            Message::Count(value) => write_alternative!(encoder, value, COUNT),
            Message::Name(value) => write_alternative!(encoder, value, NAME),
        }
    }

    ghost means = { elim [ Flag x ↦ refl | Count x ↦ refl | Name x ↦ refl ] };
}

impl DecodeChoice for Message {
    fn from_chosen<D: Decoder>(
        alloc: Global,
        decoder: &mut D,
        chosen: Chosen,
    ) -> Result<Self, DecodeError> {
        match (chosen.added, chosen.place) {
            (false, 0) => read_alternative!(alloc, decoder, bool, Message::Flag, FLAG),
            (false, 1) => read_alternative!(alloc, decoder, Integer, Message::Count, COUNT),
            (true, 0) => read_alternative!(alloc, decoder, String, Message::Name, NAME),
            _ => unreachable!(),
        }
    }
}

impl Encode for Message {
    fn encode_with_tag_and_constraints<E: Encoder>(
        &self,
        encoder: &mut E,
        tag: Tag,
        constraints: &Constraints,
    ) -> Result<(), EncodeError> {
        encoder.encode_choice(tag, constraints, self)
    }
}

impl Decode for Message {
    fn decode_with_tag_and_constraints<D: Decoder>(
        alloc: Global,
        decoder: &mut D,
        tag: Tag,
        constraints: &Constraints,
    ) -> Result<Self, DecodeError> {
        decoder.decode_choice(alloc, tag, constraints)
    }
}
