//! ENUMERATED {red, green, ..., blue}.
ghost use Rattle.std.specs.Prelude.{◌∷◌, [], refl, pos, true, false, codes};
ghost use Rattle.asn1_schema.specs.Author.{enumerated, item, no_constraint};
ghost use Rattle.asn1_schema.proofs.Author.{one_number_of, type_enumerated, value_enumerated};

use asn1_schema::{
    AsnType, Constraints, Decode, DecodeError, DecodeItems, Decoder, Described, Encode,
    EncodeError, EncodeItems, Encoder, Enumerated, EnumeratedType, Global, Identifier, Tag,
    TagTree,
};

/// A colour.
#[derive(Clone, Copy, Debug, PartialEq, Eq)]
pub enum Colour {
    Red,
    Green,
    Blue,
}

impl Described for Colour {
    ghost use Rattle.asn1_schema_example.specs.declared.colour.Colour.TheVariants.{Red, Green, Blue};

    ghost tags = { record { class = 0; number = 10 } ∷ [] };

    ghost own = { no_constraint };

    ghost under = { λ _ _. enumerated (pos 0 ∷ pos 1 ∷ []) true (pos 2 ∷ []) };

    ghost schema = { λ _. enumerated (pos 0 ∷ pos 1 ∷ []) true (pos 2 ∷ []) };

    ghost is_own = { λ _. refl };

    ghost meaning = { elim [ Red ↦ item (pos 0) | Green ↦ item (pos 1) | Blue ↦ item (pos 2) ] };

    ghost typed = { type_enumerated _ _ _ refl refl };

    ghost valued = { elim [
      | Red ↦ value_enumerated _ _ _ _
      | Green ↦ value_enumerated _ _ _ _
      | Blue ↦
          value_enumerated _ _ _ _
    ] };

    ghost valued_under = { λ _. elim [
      | Red ↦ value_enumerated _ _ _ _
      | Green ↦ value_enumerated _ _ _ _
      | Blue ↦
          value_enumerated _ _ _ _
    ] };
}

impl AsnType for Colour {
    const TAG: Tag = Tag::ENUMERATED;

    const IDENTIFIER: Identifier = Identifier(Some("Colour"));

    fn tag_tree() -> TagTree<'static> {
        TagTree::of(Self::TAG)
    }

    fn constraints() -> Constraints<'static> {
        Constraints::NONE
    }
}

impl Enumerated for Colour {
    ghost use Rattle.asn1_schema_example.specs.declared.colour.Colour.TheVariants.{Red, Green, Blue};

    ghost roots = { pos 0 ∷ pos 1 ∷ [] };

    ghost extensible = { true };

    ghost additions = { pos 2 ∷ [] };

    ghost number = { elim [ Red ↦ pos 0 | Green ↦ pos 1 | Blue ↦ pos 2 ] };

    ghost names = { codes "red" ∷ codes "green" ∷ codes "blue" ∷ [] };

    fn variants<'a>() -> &'a [Self]
    where
        Self: 'a,
    {
        &[Colour::Red, Colour::Green]
    }

    fn extended_variants<'a>() -> Option<&'a [Self]>
    where
        Self: 'a,
    {
        Some(&[Colour::Blue])
    }

    fn discriminant(&self) -> isize {
        match self {
            Colour::Red => 0,
            Colour::Green => 1,
            Colour::Blue => 2,
        }
    }

    fn identifier(&self) -> &'static str {
        match self {
            Colour::Red => "red",
            Colour::Green => "green",
            Colour::Blue => "blue",
        }
    }

    ghost distinct = { refl };

    ghost named = { (refl, refl) };

    ghost one_number = { one_number_of _ (Red ∷ Green ∷ Blue ∷ [])
        (elim [ Red ↦ (0, refl) | Green ↦ (1, refl) | Blue ↦ (2, refl) ]) refl };

    ghost listed = { elim [
      | Red ↦ (false, 0, refl)
      | Green ↦ (false, 1, refl)
      | Blue ↦ (true, 0, (refl, refl, refl))
    ] };
}

impl EnumeratedType for Colour {
    ghost use Rattle.asn1_schema_example.specs.declared.colour.Colour.TheVariants.{Red, Green, Blue};

    ghost is_of = { λ _. refl };

    ghost means = { elim [ Red ↦ refl | Green ↦ refl | Blue ↦ refl ] };
}

impl Encode for Colour {
    fn encode_with_tag_and_constraints<E: Encoder>(
        &self,
        encoder: &mut E,
        tag: Tag,
        _constraints: &Constraints,
    ) -> Result<(), EncodeError> {
        encoder.encode_item(tag, self)
    }
}

impl Decode for Colour {
    fn decode_with_tag_and_constraints<D: Decoder>(
        _alloc: Global,
        decoder: &mut D,
        tag: Tag,
        _constraints: &Constraints,
    ) -> Result<Self, DecodeError> {
        decoder.decode_item(tag)
    }
}
