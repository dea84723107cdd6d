//! INTEGER (X.680 19) in the native types of 128 bits and of the pointer width, each with its own range. A `u128` has
//! a lower bound and no upper bound: bounds are signed 128-bit numbers.
ghost use Rattle.std.specs.Prelude.{refl, [], ◌∷◌, Some, None, false, pos, negsuc, ◌^◌, ◌-◌};
ghost use Rattle.asn1_model.specs.Value.{number};
ghost use Rattle.asn1_schema_constraints.specs.Terms.{from_to, bounded_by, integer_under};
ghost use Rattle.asn1_schema_laws.proofs.TypesByKind.{integer_type, integer_value};
ghost use Rattle.asn1_values_natives.specs.Ranges.{natural_range, whole_range};

use crate::described::{AsnType, Described};
use crate::integers::between;
use asn1_schema_constraints::{Bounded, Constraints, Extensible, Value};
use asn1_schema_tags::{Identifier, Tag, TagTree};

impl Described for i128 {
    ghost tags = { record { class = 0; number = 2 } ∷ [] };

    ghost own = { from_to (negsuc 170141183460469231731687303715884105727)
        (pos 170141183460469231731687303715884105727) };

    ghost under = { λ c _. integer_under c (whole_range (2 ^ 127 - 1)) };

    ghost schema = { λ _. integer_under
        (from_to (negsuc 170141183460469231731687303715884105727) (pos 170141183460469231731687303715884105727))
        (whole_range (2 ^ 127 - 1)) };

    ghost is_own = { λ _. refl };

    ghost meaning = { λ x. number x };

    ghost typed = { integer_type _ _ refl refl refl };

    ghost valued = { λ x. integer_value _ _ _ };

    ghost valued_under = { λ c x. integer_value _ _ _ };
}

impl AsnType for i128 {
    const TAG: Tag = Tag::INTEGER;

    const IDENTIFIER: Identifier = Identifier::INTEGER;

    fn tag_tree() -> TagTree<'static> {
        TagTree::of(Self::TAG)
    }

    fn constraints() -> Constraints<'static> {
        between(i128::MIN, i128::MAX)
    }
}

impl Described for u128 {
    ghost tags = { record { class = 0; number = 2 } ∷ [] };

    ghost own = { bounded_by (Some (pos 0)) None false };

    ghost under = { λ c _. integer_under c (natural_range (2 ^ 128 - 1)) };

    ghost schema = { λ _. integer_under (bounded_by (Some (pos 0)) None false) (natural_range (2 ^ 128 - 1)) };

    ghost is_own = { λ _. refl };

    ghost meaning = { λ x. number (pos x) };

    ghost typed = { integer_type _ _ refl refl refl };

    ghost valued = { λ x. integer_value _ _ _ };

    ghost valued_under = { λ c x. integer_value _ _ _ };
}

impl AsnType for u128 {
    const TAG: Tag = Tag::INTEGER;

    const IDENTIFIER: Identifier = Identifier::INTEGER;

    fn tag_tree() -> TagTree<'static> {
        TagTree::of(Self::TAG)
    }

    fn constraints() -> Constraints<'static> {
        Constraints {
            value: Some(Extensible::new(Value::new(Bounded::start_from(0)))),
            ..Constraints::NONE
        }
    }
}

impl Described for isize {
    ghost tags = { record { class = 0; number = 2 } ∷ [] };

    ghost own = { from_to (negsuc 9223372036854775807) (pos 9223372036854775807) };

    ghost under = { λ c _. integer_under c (whole_range (2 ^ 63 - 1)) };

    ghost schema = { λ _. integer_under (from_to (negsuc 9223372036854775807) (pos 9223372036854775807))
        (whole_range (2 ^ 63 - 1)) };

    ghost is_own = { λ _. refl };

    ghost meaning = { λ x. number x };

    ghost typed = { integer_type _ _ refl refl refl };

    ghost valued = { λ x. integer_value _ _ _ };

    ghost valued_under = { λ c x. integer_value _ _ _ };
}

impl AsnType for isize {
    const TAG: Tag = Tag::INTEGER;

    const IDENTIFIER: Identifier = Identifier::INTEGER;

    fn tag_tree() -> TagTree<'static> {
        TagTree::of(Self::TAG)
    }

    fn constraints() -> Constraints<'static> {
        between(-9223372036854775808, 9223372036854775807)
    }
}

impl Described for usize {
    ghost tags = { record { class = 0; number = 2 } ∷ [] };

    ghost own = { from_to (pos 0) (pos 18446744073709551615) };

    ghost under = { λ c _. integer_under c (natural_range (2 ^ 64 - 1)) };

    ghost schema = { λ _. integer_under (from_to (pos 0) (pos 18446744073709551615)) (natural_range (2 ^ 64 - 1)) };

    ghost is_own = { λ _. refl };

    ghost meaning = { λ x. number (pos x) };

    ghost typed = { integer_type _ _ refl refl refl };

    ghost valued = { λ x. integer_value _ _ _ };

    ghost valued_under = { λ c x. integer_value _ _ _ };
}

impl AsnType for usize {
    const TAG: Tag = Tag::INTEGER;

    const IDENTIFIER: Identifier = Identifier::INTEGER;

    fn tag_tree() -> TagTree<'static> {
        TagTree::of(Self::TAG)
    }

    fn constraints() -> Constraints<'static> {
        between(0, 18446744073709551615)
    }
}
