//! SEQUENCE OF (X.680 26).
ghost use Rattle.std.specs.Prelude.{refl, [], ◌∷◌};
ghost use Rattle.asn1_model.specs.Value.{members};
ghost use Rattle.asn1_schema_constraints.specs.Terms.{no_constraint};
ghost use Rattle.asn1_schema_laws.specs.Parts.{values_of};
ghost use Rattle.asn1_schema_laws.specs.Forms.{sequence_form};
ghost use Rattle.asn1_schema_laws.specs.Tables.{list_type};
ghost use Rattle.asn1_schema_laws.proofs.TypesByKind.{type_list, value_list};
ghost use Rattle.asn1_schema_types.specs.Counts.{any_number_held, exactly, fixed_to, exactly_is_size};

use crate::described::{AsnType, Described};
use asn1_schema_constraints::{Constraints, Extensible, Size};
use asn1_schema_tags::{Identifier, Tag, TagTree};

impl<T: Described> Described for Vec<T> {
    ghost tags = { record { class = 0; number = 16 } ∷ [] };

    ghost own = { no_constraint };

    ghost under = { λ c. list_type c.size any_number_held T.schema };

    ghost schema = { list_type no_constraint.size any_number_held T.schema };

    ghost is_own = { λ _. refl };

    ghost meaning = { λ v. members (values_of T.meaning v.items) };

    ghost typed = { type_list sequence_form _ _ refl refl T.typed };

    ghost valued = { λ v. value_list sequence_form _ _ T.schema T.meaning v.items T.valued };

    ghost valued_under = { λ c v. value_list sequence_form _ _ T.schema T.meaning v.items T.valued };
}

impl<T: AsnType> AsnType for Vec<T> {
    const TAG: Tag = Tag::SEQUENCE;

    const IDENTIFIER: Identifier = Identifier::SEQUENCE_OF;

    fn tag_tree() -> TagTree<'static> {
        TagTree::of(Tag::SEQUENCE)
    }

    fn constraints() -> Constraints<'static> {
        Constraints::NONE
    }
}

impl<T: Described, const N: usize> Described for [T; N] {
    ghost tags = { record { class = 0; number = 16 } ∷ [] };

    ghost own = { fixed_to N };

    ghost under = { λ c. list_type c.size (exactly N) T.schema };

    ghost schema = { list_type ((fixed_to N).size) (exactly N) T.schema };

    ghost is_own = { λ _. refl };

    ghost meaning = { λ xs. members (values_of T.meaning xs) };

    ghost typed = { type_list sequence_form _ _ refl (exactly_is_size N) T.typed };

    ghost valued = { λ xs. value_list sequence_form _ _ T.schema T.meaning xs T.valued };

    ghost valued_under = { λ c xs. value_list sequence_form _ _ T.schema T.meaning xs T.valued };
}

impl<T: AsnType, const N: usize> AsnType for [T; N] {
    const TAG: Tag = Tag::SEQUENCE;

    const IDENTIFIER: Identifier = Identifier::SEQUENCE_OF;

    const IS_CHOICE: bool = false;

    fn tag_tree() -> TagTree<'static> {
        TagTree::of(Tag::SEQUENCE)
    }

    fn constraints() -> Constraints<'static> {
        Constraints {
            size: Some(Extensible::new(Size::fixed(N))),
            ..Constraints::NONE
        }
    }
}

impl<T: Described> Described for &[T] {
    ghost tags = { record { class = 0; number = 16 } ∷ [] };

    ghost own = { no_constraint };

    ghost under = { λ c. list_type c.size any_number_held T.schema };

    ghost schema = { list_type no_constraint.size any_number_held T.schema };

    ghost is_own = { λ _. refl };

    ghost meaning = { λ s. members (values_of T.meaning s.now) };

    ghost typed = { type_list sequence_form _ _ refl refl T.typed };

    ghost valued = { λ s. value_list sequence_form _ _ T.schema T.meaning s.now T.valued };

    ghost valued_under = { λ c s. value_list sequence_form _ _ T.schema T.meaning s.now T.valued };
}

impl<T: AsnType> AsnType for &[T] {
    const TAG: Tag = Tag::SEQUENCE;

    const IDENTIFIER: Identifier = Identifier::SEQUENCE_OF;

    fn tag_tree() -> TagTree<'static> {
        TagTree::of(Tag::SEQUENCE)
    }

    fn constraints() -> Constraints<'static> {
        Constraints::NONE
    }
}
