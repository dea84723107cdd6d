//! ENUMERATED {red, ...}.
ghost use Rattle.std.specs.Prelude.{◌∷◌, [], refl, pos, true, false, codes};
ghost use Rattle.asn1_schema.specs.Author.{enumerated, item, no_constraint};
ghost use Rattle.asn1_schema.proofs.Author.{one_number_of, type_enumerated, value_enumerated};

use asn1_schema::{
    AsnType, Constraints, Decode, DecodeError, DecodeItems, Decoder, Described, Encode,
    EncodeError, EncodeItems, Encoder, Enumerated, EnumeratedType, Identifier, Tag, TagTree,
};
use std::alloc::Global;

/// A colour.
#[derive(Clone, Copy, Debug, PartialEq, Eq)]
pub enum OldColour {
    /// Red.
    Red,
}

impl Described for OldColour {
    ghost use Rattle.asn1_relay_types.specs.declared.old_colour.OldColour.TheVariants.{Red};

    ghost tags = { record { class = 0; number = 10 } ∷ [] };

    ghost own = { no_constraint };

    ghost under = { λ _ _. enumerated (pos 0 ∷ []) true [] };

    ghost schema = { λ _. enumerated (pos 0 ∷ []) true [] };

    ghost is_own = { λ _. refl };

    ghost meaning = { elim [ Red ↦ item (pos 0) ] };

    ghost typed = { type_enumerated _ _ _ refl refl };

    ghost valued = { elim [ Red ↦ value_enumerated _ _ _ _ ] };

    ghost valued_under = { λ _. elim [ Red ↦ value_enumerated _ _ _ _ ] };
}

impl AsnType for OldColour {
    const TAG: Tag = Tag::ENUMERATED;

    const IDENTIFIER: Identifier = Identifier(Some("OldColour"));

    fn tag_tree() -> TagTree<'static> {
        TagTree::of(Self::TAG)
    }

    fn constraints() -> Constraints<'static> {
        Constraints::NONE
    }
}

impl Enumerated for OldColour {
    ghost use Rattle.asn1_relay_types.specs.declared.old_colour.OldColour.TheVariants.{Red};

    ghost roots = { pos 0 ∷ [] };

    ghost extensible = { true };

    ghost additions = { [] };

    ghost number = { elim [ Red ↦ pos 0 ] };

    ghost names = { codes "red" ∷ [] };

    fn variants<'a>() -> &'a [Self]
    where
        Self: 'a,
    {
        &[OldColour::Red]
    }

    fn extended_variants<'a>() -> Option<&'a [Self]>
    where
        Self: 'a,
    {
        Some(&[])
    }

    fn discriminant(&self) -> isize {
        match self {
            OldColour::Red => 0,
        }
    }

    fn identifier(&self) -> &'static str {
        match self {
            OldColour::Red => "red",
        }
    }

    ghost distinct = { refl };

    ghost named = { (refl, refl) };

    ghost one_number = { one_number_of _ (Red ∷ []) (elim [ Red ↦ (0, refl) ]) refl };

    ghost listed = { elim [ Red ↦ (false, 0, refl) ] };
}

impl EnumeratedType for OldColour {
    ghost use Rattle.asn1_relay_types.specs.declared.old_colour.OldColour.TheVariants.{Red};

    ghost is_of = { λ _. refl };

    ghost means = { elim [ Red ↦ refl ] };
}

impl Encode for OldColour {
    fn encode_with_tag_and_constraints<E: Encoder>(
        &self,
        encoder: &mut E,
        tag: Tag,
        _constraints: &Constraints,
    ) -> Result<(), EncodeError> {
        encoder.encode_item(tag, self)
    }
}

impl Decode for OldColour {
    fn decode_with_tag_and_constraints<D: Decoder>(
        _alloc: Global,
        decoder: &mut D,
        tag: Tag,
        _constraints: &Constraints,
    ) -> Result<Self, DecodeError> {
        decoder.decode_item(tag)
    }
}
