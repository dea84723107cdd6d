//! ENUMERATED {red, ..., blue}.
ghost use Rattle.std.specs.Prelude.{◌∷◌, [], refl, pos, true, false, codes};
ghost use Rattle.asn1_schema.specs.Author.{enumerated, item, no_constraint};
ghost use Rattle.asn1_schema.proofs.Author.{one_number_of, type_enumerated, value_enumerated};

use crate::old_colour::OldColour;
use asn1_schema::{
    AsnType, Constraints, Decode, DecodeError, DecodeItems, Decoder, Described, Encode,
    EncodeError, EncodeItems, Encoder, Enumerated, EnumeratedType, Extends, Identifier, Tag,
    TagTree,
};
use std::alloc::Global;

/// A colour.
#[derive(Clone, Copy, Debug, PartialEq, Eq)]
pub enum NewColour {
    /// Red.
    Red,
    /// Blue, an extension addition.
    Blue,
}

impl Described for NewColour {
    ghost use Rattle.asn1_relay_types.specs.declared.new_colour.NewColour.TheVariants.{Red, Blue};

    ghost tags = { record { class = 0; number = 10 } ∷ [] };

    ghost own = { no_constraint };

    ghost under = { λ _ _. enumerated (pos 0 ∷ []) true (pos 1 ∷ []) };

    ghost schema = { λ _. enumerated (pos 0 ∷ []) true (pos 1 ∷ []) };

    ghost is_own = { λ _. refl };

    ghost meaning = { elim [ Red ↦ item (pos 0) | Blue ↦ item (pos 1) ] };

    ghost typed = { type_enumerated _ _ _ refl refl };

    ghost valued = { elim [ Red ↦ value_enumerated _ _ _ _ | Blue ↦ value_enumerated _ _ _ _ ] };

    ghost valued_under = { λ _. elim [ Red ↦ value_enumerated _ _ _ _ | Blue ↦ value_enumerated _ _ _ _ ] };
}

impl AsnType for NewColour {
    const TAG: Tag = Tag::ENUMERATED;

    const IDENTIFIER: Identifier = Identifier(Some("NewColour"));

    fn tag_tree() -> TagTree<'static> {
        TagTree::of(Self::TAG)
    }

    fn constraints() -> Constraints<'static> {
        Constraints::NONE
    }
}

impl Enumerated for NewColour {
    ghost use Rattle.asn1_relay_types.specs.declared.new_colour.NewColour.TheVariants.{Red, Blue};

    ghost roots = { pos 0 ∷ [] };

    ghost extensible = { true };

    ghost additions = { pos 1 ∷ [] };

    ghost number = { elim [ Red ↦ pos 0 | Blue ↦ pos 1 ] };

    ghost names = { codes "red" ∷ codes "blue" ∷ [] };

    fn variants<'a>() -> &'a [Self]
    where
        Self: 'a,
    {
        &[NewColour::Red]
    }

    fn extended_variants<'a>() -> Option<&'a [Self]>
    where
        Self: 'a,
    {
        Some(&[NewColour::Blue])
    }

    fn discriminant(&self) -> isize {
        match self {
            NewColour::Red => 0,
            NewColour::Blue => 1,
        }
    }

    fn identifier(&self) -> &'static str {
        match self {
            NewColour::Red => "red",
            NewColour::Blue => "blue",
        }
    }

    ghost distinct = { refl };

    ghost named = { (refl, refl) };

    ghost one_number = { one_number_of _ (Red ∷ Blue ∷ []) (elim [ Red ↦ (0, refl) | Blue ↦ (1, refl) ]) refl };

    ghost listed = { elim [ Red ↦ (false, 0, refl) | Blue ↦ (true, 0, (refl, refl, refl)) ] };
}

impl EnumeratedType for NewColour {
    ghost use Rattle.asn1_relay_types.specs.declared.new_colour.NewColour.TheVariants.{Red, Blue};

    ghost is_of = { λ _. refl };

    ghost means = { elim [ Red ↦ refl | Blue ↦ refl ] };
}

impl Encode for NewColour {
    fn encode_with_tag_and_constraints<E: Encoder>(
        &self,
        encoder: &mut E,
        tag: Tag,
        _constraints: &Constraints,
    ) -> Result<(), EncodeError> {
        encoder.encode_item(tag, self)
    }
}

impl Decode for NewColour {
    fn decode_with_tag_and_constraints<D: Decoder>(
        _alloc: Global,
        decoder: &mut D,
        tag: Tag,
        _constraints: &Constraints,
    ) -> Result<Self, DecodeError> {
        decoder.decode_item(tag)
    }
}

/// The items of the other version, and the extension addition blue.
impl Extends<OldColour> for NewColour {
    ghost use Rattle.asn1_schema.proofs.Author.{constant_unfolds, gains_items};

    ghost extends = { gains_items (pos 1 ∷ []) };

    ghost old_unfolds = { constant_unfolds };

    ghost unfolds = { constant_unfolds };
}
