//! Choices.
ghost use Rattle.std.specs.Prelude.{refl, true, false};
ghost use Rattle.asn1_schema.specs.Author.{context, no_variant, variant};
ghost use Rattle.asn1_schema.proofs.Author.{choice_of, none, of_addition, of_root, one};
ghost use Rattle.asn1_schema.proofs.Author.{choice_unfolds, constant_unfolds, gains_alternatives, no_variants_unfold};
ghost use Rattle.asn1_schema.proofs.Author.{variant_unfolds};

use asn1_schema::{
    ChoiceAlternatives, ChoiceOf, Chosen, Decode, DecodeError, Decoder, Described, Encode,
    EncodeError, Encoder, ExtendsAlternatives, Tag, TagPlace, TagTree, place, read_alternative,
    tagged, write_alternative,
};
use asn1_values::Integer;
use std::alloc::Global;

const CONTEXT_0: Tag = tagged!(Context, 0);

const CONTEXT_1: Tag = tagged!(Context, 1);

const CONTEXT_2: Tag = tagged!(Context, 2);

/// CHOICE {a [0] INTEGER, b [1] INTEGER, ...}.
pub type OldVersioned = ChoiceOf<OldVersionedAlternative>;

/// Its alternatives.
#[derive(Drop)]
pub enum OldVersionedAlternative {
    A(Integer),
    B(Integer),
}

impl ChoiceAlternatives for OldVersionedAlternative {
    ghost use Rattle.asn1_relay_vectors_types.specs.declared.choices.OldVersionedAlternative.TheVariants.{A, B};

    ghost shape = { choice_of
        (one 0 ⟦<Integer as Described>⟧ (one 1 ⟦<Integer as Described>⟧ none)) true none refl refl
        (elim [
          | A x ↦ of_root 0 ⟦<Integer as Described>⟧ refl x
          | B x ↦ of_root 1 ⟦<Integer as Described>⟧ refl x
        ]) };

    fn tag_tree() -> TagTree<'static> {
        const TREES: &'static [TagTree<'static>] = &[
            TagTree::Leaf(CONTEXT_0),
            TagTree::Leaf(CONTEXT_1),
        ];
        TagTree::Choice(TREES)
    }

    fn variants() -> &'static [Tag] {
        &[CONTEXT_0, CONTEXT_1]
    }

    fn extended_variants() -> Option<&'static [Tag]> {
        Some(&[])
    }

    fn places() -> &'static [TagPlace] {
        &[place!(CONTEXT_0, 0), place!(CONTEXT_1, 1)]
    }

    fn chosen(&self) -> Chosen {
        match self {
            OldVersionedAlternative::A(_) => Chosen::root(0),
            OldVersionedAlternative::B(_) => Chosen::root(1),
        }
    }

    fn write_chosen<E: Encoder>(&self, encoder: &mut E) -> Result<Tag, EncodeError> {
        match self {
            OldVersionedAlternative::A(value) => write_alternative!(encoder, value, CONTEXT_0),
            OldVersionedAlternative::B(value) => write_alternative!(encoder, value, CONTEXT_1),
        }
    }

    fn from_chosen<D: Decoder>(
        alloc: Global,
        decoder: &mut D,
        chosen: Chosen,
    ) -> Result<Self, DecodeError> {
        match (chosen.added, chosen.place) {
            (false, 0) => read_alternative!(
                alloc,
                decoder,
                Integer,
                OldVersionedAlternative::A,
                CONTEXT_0
            ),
            (false, 1) => read_alternative!(
                alloc,
                decoder,
                Integer,
                OldVersionedAlternative::B,
                CONTEXT_1
            ),
            _ => unreachable!(),
        }
    }
}

/// CHOICE {a [0] INTEGER, b [1] INTEGER, ..., c [2] INTEGER}.
pub type Versioned = ChoiceOf<VersionedAlternative>;

/// Its alternatives.
#[derive(Drop)]
pub enum VersionedAlternative {
    A(Integer),
    B(Integer),
    C(Integer),
}

impl ChoiceAlternatives for VersionedAlternative {
    ghost use Rattle.asn1_relay_vectors_types.specs.declared.choices.VersionedAlternative.TheVariants.{A, B, C};

    ghost shape = { choice_of
        (one 0 ⟦<Integer as Described>⟧ (one 1 ⟦<Integer as Described>⟧ none)) true
        (one 2 ⟦<Integer as Described>⟧ none) refl refl
        (elim [
          | A x ↦ of_root 0 ⟦<Integer as Described>⟧ refl x
          | B x ↦ of_root 1 ⟦<Integer as Described>⟧ refl x
          | C x ↦ of_addition 0 ⟦<Integer as Described>⟧ refl x
        ]) };

    fn tag_tree() -> TagTree<'static> {
        const TREES: &'static [TagTree<'static>] = &[
            TagTree::Leaf(CONTEXT_0),
            TagTree::Leaf(CONTEXT_1),
            TagTree::Leaf(CONTEXT_2),
        ];
        TagTree::Choice(TREES)
    }

    fn variants() -> &'static [Tag] {
        &[CONTEXT_0, CONTEXT_1]
    }

    fn extended_variants() -> Option<&'static [Tag]> {
        Some(&[CONTEXT_2])
    }

    fn places() -> &'static [TagPlace] {
        &[
            place!(CONTEXT_0, 0),
            place!(CONTEXT_1, 1),
            place!(CONTEXT_2, 2),
        ]
    }

    fn chosen(&self) -> Chosen {
        match self {
            VersionedAlternative::A(_) => Chosen::root(0),
            VersionedAlternative::B(_) => Chosen::root(1),
            VersionedAlternative::C(_) => Chosen::addition(0),
        }
    }

    fn write_chosen<E: Encoder>(&self, encoder: &mut E) -> Result<Tag, EncodeError> {
        match self {
            VersionedAlternative::A(value) => write_alternative!(encoder, value, CONTEXT_0),
            VersionedAlternative::B(value) => write_alternative!(encoder, value, CONTEXT_1),
            VersionedAlternative::C(value) => write_alternative!(encoder, value, CONTEXT_2),
        }
    }

    fn from_chosen<D: Decoder>(
        alloc: Global,
        decoder: &mut D,
        chosen: Chosen,
    ) -> Result<Self, DecodeError> {
        match (chosen.added, chosen.place) {
            (false, 0) => read_alternative!(
                alloc,
                decoder,
                Integer,
                VersionedAlternative::A,
                CONTEXT_0
            ),
            (false, 1) => read_alternative!(
                alloc,
                decoder,
                Integer,
                VersionedAlternative::B,
                CONTEXT_1
            ),
            (true, 0) => read_alternative!(
                alloc,
                decoder,
                Integer,
                VersionedAlternative::C,
                CONTEXT_2
            ),
            _ => unreachable!(),
        }
    }
}

/// The alternatives of the other version, and the extension addition `c`.
impl ExtendsAlternatives<OldVersionedAlternative> for VersionedAlternative {
    ghost extends = { gains_alternatives ⟦<OldVersionedAlternative as ChoiceAlternatives>⟧.shape.table
        (variant (context 2) ⟦<Integer as Described>⟧.schema no_variant) ⟦<OldVersioned as Described>⟧.typed.lawful
        refl };

    ghost old_unfolds = { choice_unfolds ⟦<OldVersionedAlternative as ChoiceAlternatives>⟧.shape.table
        (variant_unfolds constant_unfolds (variant_unfolds constant_unfolds no_variants_unfold)) no_variants_unfold };

    ghost unfolds = { choice_unfolds ⟦<VersionedAlternative as ChoiceAlternatives>⟧.shape.table
        (variant_unfolds constant_unfolds (variant_unfolds constant_unfolds no_variants_unfold))
        (variant_unfolds constant_unfolds no_variants_unfold) };
}
