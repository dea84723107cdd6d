//! ENUMERATED {yes (1000), no (-1000)}.
ghost use Rattle.std.specs.Prelude.{◌∷◌, [], refl, pos, negsuc, false, codes};
ghost use Rattle.asn1_schema.specs.Author.{enumerated, item, no_constraint};
ghost use Rattle.asn1_schema.proofs.Author.{one_number_of, type_enumerated, value_enumerated};

use asn1_schema::{
    AsnType, Constraints, Decode, DecodeError, DecodeItems, Decoder, Described, Encode,
    EncodeError, EncodeItems, Encoder, Enumerated, EnumeratedType, Global, Identifier, Tag,
    TagTree,
};

/// An answer.
#[derive(Clone, Copy, Debug, PartialEq, Eq)]
pub enum Answer {
    Yes,
    No,
}

impl Described for Answer {
    ghost use Rattle.asn1_schema_example.specs.declared.answer.Answer.TheVariants.{Yes, No};

    ghost tags = { record { class = 0; number = 10 } ∷ [] };

    ghost own = { no_constraint };

    ghost under = { λ _ _. enumerated (negsuc 999 ∷ pos 1000 ∷ []) false [] };

    ghost schema = { λ _. enumerated (negsuc 999 ∷ pos 1000 ∷ []) false [] };

    ghost is_own = { λ _. refl };

    ghost meaning = { elim [ Yes ↦ item (pos 1000) | No ↦ item (negsuc 999) ] };

    ghost typed = { type_enumerated _ _ _ refl refl };

    ghost valued = { elim [ Yes ↦ value_enumerated _ _ _ _ | No ↦ value_enumerated _ _ _ _ ] };

    ghost valued_under = { λ _. elim [ Yes ↦ value_enumerated _ _ _ _ | No ↦ value_enumerated _ _ _ _ ] };
}

impl AsnType for Answer {
    const TAG: Tag = Tag::ENUMERATED;

    const IDENTIFIER: Identifier = Identifier(Some("Answer"));

    fn tag_tree() -> TagTree<'static> {
        TagTree::of(Self::TAG)
    }

    fn constraints() -> Constraints<'static> {
        Constraints::NONE
    }
}

impl Enumerated for Answer {
    ghost use Rattle.asn1_schema_example.specs.declared.answer.Answer.TheVariants.{Yes, No};

    ghost roots = { negsuc 999 ∷ pos 1000 ∷ [] };

    ghost extensible = { false };

    ghost additions = { [] };

    ghost number = { elim [ Yes ↦ pos 1000 | No ↦ negsuc 999 ] };

    ghost names = { codes "no" ∷ codes "yes" ∷ [] };

    fn variants<'a>() -> &'a [Self]
    where
        Self: 'a,
    {
        &[Answer::No, Answer::Yes]
    }

    fn extended_variants<'a>() -> Option<&'a [Self]>
    where
        Self: 'a,
    {
        None
    }

    fn discriminant(&self) -> isize {
        match self {
            Answer::Yes => 1000,
            Answer::No => -1000,
        }
    }

    fn identifier(&self) -> &'static str {
        match self {
            Answer::Yes => "yes",
            Answer::No => "no",
        }
    }

    ghost distinct = { refl };

    ghost named = { (refl, refl) };

    ghost one_number = { one_number_of _ (No ∷ Yes ∷ []) (elim [ Yes ↦ (1, refl) | No ↦ (0, refl) ]) refl };

    ghost listed = { elim [ Yes ↦ (false, 1, refl) | No ↦ (false, 0, refl) ] };
}

impl EnumeratedType for Answer {
    ghost use Rattle.asn1_schema_example.specs.declared.answer.Answer.TheVariants.{Yes, No};

    ghost is_of = { λ _. refl };

    ghost means = { elim [ Yes ↦ refl | No ↦ refl ] };
}

impl Encode for Answer {
    fn encode_with_tag_and_constraints<E: Encoder>(
        &self,
        encoder: &mut E,
        tag: Tag,
        _constraints: &Constraints,
    ) -> Result<(), EncodeError> {
        encoder.encode_item(tag, self)
    }
}

impl Decode for Answer {
    fn decode_with_tag_and_constraints<D: Decoder>(
        _alloc: Global,
        decoder: &mut D,
        tag: Tag,
        _constraints: &Constraints,
    ) -> Result<Self, DecodeError> {
        decoder.decode_item(tag)
    }
}
