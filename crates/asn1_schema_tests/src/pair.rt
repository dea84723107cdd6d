//! SEQUENCE {a [0] INTEGER (0..255), b [1] INTEGER (0..255)}.
ghost use Rattle.std.specs.Prelude.{refl, [], ◌∷◌};
ghost use Rattle.asn1_model.specs.Value.{fields};
ghost use Rattle.asn1_schema_constraints.specs.Terms.{no_constraint};
ghost use Rattle.asn1_schema_laws.specs.Tables.{sequence_type};
ghost use Rattle.asn1_schema_laws.proofs.Values.{type_sequence, value_sequence};

use asn1_schema_constraints::Constraints;
use asn1_schema_decode::{Decode, DecodeSequence, Decoder};
use asn1_schema_encode::{Encode, EncodeSequence, Encoder};
use asn1_schema_errors::{DecodeError, EncodeError};
use asn1_schema_tags::{Identifier, Tag, TagTree};
use asn1_schema_types::{AsnType, ComponentsOf, Described, End, Required, RequiredComponent};
use asn1_schema_wrapped::{Implicit, tag};
use std::alloc::Global;

/// Two numbers.
#[derive(Clone, Copy, Debug, PartialEq, Eq)]
pub struct Pair {
    /// The first.
    pub a: u8,
    /// The second.
    pub b: u8,
}

type A = tag::Context<0>;

type B = tag::Context<1>;

type Form = RequiredComponent<Implicit<A, u8>, RequiredComponent<Implicit<B, u8>, End>>;

impl Described for Pair {
    ghost tags = { record { class = 0; number = 16 } ∷ [] };

    ghost own = { no_constraint };

    ghost under = { λ _. sequence_type ⟦<Form as ComponentsOf>⟧.table };

    ghost schema = { sequence_type ⟦<Form as ComponentsOf>⟧.table };

    ghost is_own = { λ _. refl };

    ghost meaning = { λ x. fields (⟦<Form as ComponentsOf>⟧.root
        (record {
          0 = record { value = x.a; tag = _ };
          1 =
              record { 0 = record { value = x.b; tag = _ }; 1 = record {} };
        }))
        (⟦<Form as ComponentsOf>⟧.added
        (record {
          0 = record { value = x.a; tag = _ };
          1 =
              record { 0 = record { value = x.b; tag = _ }; 1 = record {} };
        })) };

    ghost typed = { type_sequence _ refl (⟦<Form as ComponentsOf>⟧.typed tt) refl };

    ghost valued = { λ x. value_sequence _ (⟦<Form as ComponentsOf>⟧.valued tt
        (record {
          0 = record { value = x.a; tag = _ };
          1 =
              record { 0 = record { value = x.b; tag = _ }; 1 = record {} };
        })) };

    ghost valued_under = { λ _ x. value_sequence _ (⟦<Form as ComponentsOf>⟧.valued tt
        (record {
          0 = record { value = x.a; tag = _ };
          1 =
              record { 0 = record { value = x.b; tag = _ }; 1 = record {} };
        })) };
}

impl AsnType for Pair {
    const TAG: Tag = Tag::SEQUENCE;

    const IDENTIFIER: Identifier = Identifier(Some("Pair"));

    fn tag_tree() -> TagTree<'static> {
        TagTree::of(Self::TAG)
    }

    fn constraints() -> Constraints<'static> {
        Constraints::NONE
    }
}

impl Encode for Pair {
    fn encode_with_tag_and_constraints<E: Encoder>(
        &self,
        encoder: &mut E,
        tag: Tag,
        _constraints: &Constraints,
    ) -> Result<(), EncodeError> {
        encoder.encode_sequence_components(
            tag,
            0,
            &Required(
                &Implicit::<A, _>::new(&self.a),
                Required(&Implicit::<B, _>::new(&self.b), End),
            ),
        )
    }
}

impl Decode for Pair {
    fn decode_with_tag_and_constraints<D: Decoder>(
        alloc: Global,
        decoder: &mut D,
        tag: Tag,
        _constraints: &Constraints,
    ) -> Result<Self, DecodeError> {
        let form = decoder.decode_sequence_components::<Form>(alloc, tag, 0)?;
        let RequiredComponent(a, RequiredComponent(b, End)) = form;
        Ok(Pair {
            a: a.value,
            b: b.value,
        })
    }
}
