//! Nest ::= CHOICE {leaf [0] NULL, more [1] Nest}, a recursive type.
ghost use Rattle.std.specs.Prelude.{[], ◌∷◌, refl};
ghost use Rattle.asn1_schema.specs.Author.{context, no_constraint};

use asn1_schema::{
    Alternatives, AsnType, Choice, Chosen, Constraints, Decode, DecodeAlternatives, DecodeError,
    Decoder, Described, Encode, EncodeChoice, EncodeError, Encoder, Identifier, Tag, TagPlace,
    TagTree, place, tagged,
};
use std::alloc::Global;

/// A value of the recursive type, of any depth.
#[derive(Drop)]
pub enum Nest {
    /// The innermost level.
    Leaf,
    /// One more level around a value.
    More(Box<Nest>),
}

const LEAF: Tag = tagged!(Context, 0);

const MORE: Tag = tagged!(Context, 1);

impl Described for Nest {
    ghost use Rattle.asn1_relay_types.specs.Nest.{nest_schema, nest_meaning, nest_typed, nest_valued};

    ghost tags = { context 0 ∷ context 1 ∷ [] };

    ghost own = { no_constraint };

    ghost under = { λ _. nest_schema };

    ghost schema = { nest_schema };

    ghost is_own = { λ _. refl };

    ghost meaning = { nest_meaning };

    ghost typed = { nest_typed };

    ghost valued = { nest_valued };

    ghost valued_under = { λ _ x. nest_valued x };
}

impl AsnType for Nest {
    const TAG: Tag = Tag::CHOICE;

    const IDENTIFIER: Identifier = Identifier(Some("Nest"));

    const IS_CHOICE: bool = true;

    fn tag_tree() -> TagTree<'static> {
        const TREES: &'static [TagTree<'static>] = &[TagTree::Leaf(LEAF), TagTree::Leaf(MORE)];
        TagTree::Choice(TREES)
    }

    fn constraints() -> Constraints<'static> {
        Constraints::NONE
    }
}

impl Alternatives for Nest {
    ghost use Rattle.asn1_relay_types.specs.Nest.{nest_table, nest_schema, nest_is};

    ghost table = { nest_table nest_schema };

    fn variants() -> &'static [Tag] {
        &[LEAF, MORE]
    }

    fn extended_variants() -> Option<&'static [Tag]> {
        None
    }

    fn places() -> &'static [TagPlace] {
        &[place!(LEAF, 0), place!(MORE, 1)]
    }

    ghost tagged = { refl };

    ghost is_of = { λ _. nest_is };
}

impl Choice for Nest {
    ghost use Rattle.asn1_relay_types.specs.Nest.{nest_place, nest_inner, nest_means};

    ghost place = { nest_place };

    ghost inner = { nest_inner };

    fn chosen(&self) -> Chosen {
        match self {
            Nest::Leaf => Chosen::root(0),
            Nest::More(_) => Chosen::root(1),
        }
    }

    fn write_chosen<E: Encoder>(&self, encoder: &mut E) -> Result<Tag, EncodeError> {
        match self {
            Nest::Leaf => {
                ().encode_with_tag(encoder, LEAF)?;
                Ok(LEAF)
            }
            Nest::More(inner) => {
                inner.encode_with_tag(encoder, MORE)?;
                Ok(MORE)
            }
        }
    }

    ghost means = { nest_means };
}

impl Encode for Nest {
    fn encode_with_tag_and_constraints<E: Encoder>(
        &self,
        encoder: &mut E,
        tag: Tag,
        _constraints: &Constraints,
    ) -> Result<(), EncodeError> {
        match self {
            Nest::Leaf => {
                encoder.begin_alternative::<Nest>(tag, Chosen::root(0))?;
                ().encode_with_tag(encoder, LEAF)?;
                encoder.end()?;
                Ok(())
            }
            Nest::More(inner) => {
                encoder.begin_alternative::<Nest>(tag, Chosen::root(1))?;
                inner.encode_with_tag(encoder, MORE)?;
                encoder.end()?;
                Ok(())
            }
        }
    }
}

impl Decode for Nest {
    fn decode_with_tag_and_constraints<D: Decoder>(
        alloc: Global,
        decoder: &mut D,
        tag: Tag,
        _constraints: &Constraints,
    ) -> Result<Self, DecodeError> {
        let chosen = decoder.begin_alternatives::<Nest>(tag)?;
        if chosen.place == 0 {
            <()>::decode_with_tag(alloc, decoder, LEAF)?;
            decoder.end()?;
            return Ok(Nest::Leaf);
        }
        let inner = Nest::decode_with_tag_and_constraints(
            alloc,
            decoder,
            MORE,
            &Constraints::NONE,
        )?;
        let Ok(boxed) = Box::new(alloc, inner) else {
            return Err(decoder.refuse(DecodeError::OutOfMemory));
        };
        decoder.end()?;
        Ok(Nest::More(boxed))
    }
}
