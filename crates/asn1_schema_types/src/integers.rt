//! INTEGER (X.680 19).
ghost use Rattle.std.specs.Prelude.{◌≡◌, refl, [], ◌∷◌, Some, None, pos, ◌^◌, ◌-◌};
ghost use Rattle.asn1_model.specs.Value.{number};
ghost use Rattle.asn1_schema_constraints.specs.Terms.{no_constraint, meant, from_to, integer_under};
ghost use Rattle.asn1_schema_laws.proofs.TypesByKind.{integer_type, integer_value};
ghost use Rattle.asn1_values_natives.specs.Ranges.{natural_range};

use crate::described::{AsnType, Described};
use asn1_schema_constraints::{Bounded, Constraints, Extensible, Value};
use asn1_schema_tags::{Identifier, Tag, TagTree};
use asn1_values_integers::Integer;

// The constraint to the numbers between two.
pub(crate) fn between(low: i128, high: i128) -> Constraints<'static>
    ensures { meant result ≡ from_to low high }
{
    Constraints {
        value: Some(Extensible::new(Value::new(Bounded::const_new(low, high)))),
        ..Constraints::NONE
    }
}

impl Described for Integer {
    ghost tags = { record { class = 0; number = 2 } ∷ [] };

    ghost own = { no_constraint };

    ghost under = { λ c _. integer_under c (record { low = None; high = None }) };

    ghost schema = { λ _. integer_under no_constraint (record { low = None; high = None }) };

    ghost is_own = { λ _. refl };

    ghost meaning = { number };

    ghost typed = { integer_type _ _ refl refl refl };

    ghost valued = { λ x. integer_value _ _ _ };

    ghost valued_under = { λ c x. integer_value _ _ _ };
}

impl AsnType for Integer {
    const TAG: Tag = Tag::INTEGER;

    const IDENTIFIER: Identifier = Identifier::INTEGER;

    fn tag_tree() -> TagTree<'static> {
        TagTree::of(Self::TAG)
    }

    fn constraints() -> Constraints<'static> {
        Constraints::NONE
    }
}

impl Described for u8 {
    ghost tags = { record { class = 0; number = 2 } ∷ [] };

    ghost own = { from_to (pos 0) (pos 255) };

    ghost under = { λ c _. integer_under c (natural_range (2 ^ 8 - 1)) };

    ghost schema = { λ _. integer_under (from_to (pos 0) (pos 255)) (natural_range (2 ^ 8 - 1)) };

    ghost is_own = { λ _. refl };

    ghost meaning = { λ x. number (pos x) };

    ghost typed = { integer_type _ _ refl refl refl };

    ghost valued = { λ x. integer_value _ _ _ };

    ghost valued_under = { λ c x. integer_value _ _ _ };
}

impl AsnType for u8 {
    const TAG: Tag = Tag::INTEGER;

    const IDENTIFIER: Identifier = Identifier::INTEGER;

    fn tag_tree() -> TagTree<'static> {
        TagTree::of(Self::TAG)
    }

    fn constraints() -> Constraints<'static> {
        between(0, 255)
    }
}
