//! BOOLEAN and NULL (X.680 18 and 24).
ghost use Rattle.std.specs.Prelude.{refl, [], ◌∷◌};
ghost use Rattle.asn1_model.specs.Value.{truth, nothing};
ghost use Rattle.asn1_model.specs.Schema.{boolean, null};
ghost use Rattle.asn1_schema_constraints.specs.Terms.{no_constraint};
ghost use Rattle.asn1_schema_laws.proofs.TypesByKind.{boolean_type, boolean_value, null_type, null_value};

use crate::described::{AsnType, Described};
use asn1_schema_constraints::Constraints;
use asn1_schema_tags::{Identifier, Tag, TagTree};

impl Described for bool {
    ghost tags = { record { class = 0; number = 1 } ∷ [] };

    ghost own = { no_constraint };

    ghost under = { λ _ _. boolean };

    ghost schema = { λ _. boolean };

    ghost is_own = { λ _. refl };

    ghost meaning = { truth };

    ghost typed = { boolean_type refl };

    ghost valued = { boolean_value };

    ghost valued_under = { λ _. boolean_value };
}

impl AsnType for bool {
    const TAG: Tag = Tag::BOOL;

    const IDENTIFIER: Identifier = Identifier::BOOL;

    fn tag_tree() -> TagTree<'static> {
        TagTree::of(Self::TAG)
    }

    fn constraints() -> Constraints<'static> {
        Constraints::NONE
    }
}

impl Described for () {
    ghost tags = { record { class = 0; number = 5 } ∷ [] };

    ghost own = { no_constraint };

    ghost under = { λ _ _. null };

    ghost schema = { λ _. null };

    ghost is_own = { λ _. refl };

    ghost meaning = { λ _. nothing };

    ghost typed = { null_type refl };

    ghost valued = { λ _. null_value };

    ghost valued_under = { λ _ _. null_value };
}

impl AsnType for () {
    const TAG: Tag = Tag::NULL;

    const IDENTIFIER: Identifier = Identifier::NULL;

    fn tag_tree() -> TagTree<'static> {
        TagTree::of(Self::TAG)
    }

    fn constraints() -> Constraints<'static> {
        Constraints::NONE
    }
}
