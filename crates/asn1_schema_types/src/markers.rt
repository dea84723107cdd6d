//! Marker types.
ghost use Rattle.std.specs.Prelude.{refl, [], ◌∷◌};
ghost use Rattle.asn1_model.specs.Value.{nothing};
ghost use Rattle.asn1_model.specs.Schema.{null};
ghost use Rattle.asn1_schema_constraints.specs.Terms.{no_constraint};
ghost use Rattle.asn1_schema_laws.proofs.TypesByKind.{null_type, null_value};

use crate::described::{AsnType, Described};
use asn1_schema_constraints::Constraints;
use asn1_schema_tags::{Identifier, Tag, TagTree};
use std::marker::PhantomData;

/// NULL (X.680 24): a marker has one value.
impl<T> Described for PhantomData<T> {
    ghost tags = { record { class = 0; number = 5 } ∷ [] };

    ghost own = { no_constraint };

    ghost under = { λ _ _. null };

    ghost schema = { λ _. null };

    ghost is_own = { λ _. refl };

    ghost meaning = { λ _. nothing };

    ghost typed = { null_type refl };

    ghost valued = { λ _. null_value };

    ghost valued_under = { λ _ _. null_value };
}

impl<T> AsnType for PhantomData<T> {
    const TAG: Tag = Tag::NULL;

    const IDENTIFIER: Identifier = Identifier::NULL;

    fn tag_tree() -> TagTree<'static> {
        TagTree::of(Tag::NULL)
    }

    fn constraints() -> Constraints<'static> {
        Constraints::NONE
    }
}
