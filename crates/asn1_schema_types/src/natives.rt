//! INTEGER (X.680 19) in the native types, each with its own range.
ghost use Rattle.std.specs.Prelude.{refl, [], ◌∷◌, pos, negsuc, ◌^◌, ◌-◌};
ghost use Rattle.asn1_model.specs.Value.{number};
ghost use Rattle.asn1_schema_constraints.specs.Terms.{from_to, integer_under};
ghost use Rattle.asn1_schema_laws.proofs.TypesByKind.{integer_type, integer_value};
ghost use Rattle.asn1_values_natives.specs.Ranges.{natural_range, whole_range};

use crate::described::{AsnType, Described};
use crate::integers::between;
use asn1_schema_constraints::Constraints;
use asn1_schema_tags::{Identifier, Tag, TagTree};

impl Described for i8 {
    ghost tags = { record { class = 0; number = 2 } ∷ [] };

    ghost own = { from_to (negsuc 127) (pos 127) };

    ghost under = { λ c _. integer_under c (whole_range (2 ^ 7 - 1)) };

    ghost schema = { λ _. integer_under (from_to (negsuc 127) (pos 127)) (whole_range (2 ^ 7 - 1)) };

    ghost is_own = { λ _. refl };

    ghost meaning = { λ x. number x };

    ghost typed = { integer_type _ _ refl refl refl };

    ghost valued = { λ x. integer_value _ _ _ };

    ghost valued_under = { λ c x. integer_value _ _ _ };
}

impl AsnType for i8 {
    const TAG: Tag = Tag::INTEGER;

    const IDENTIFIER: Identifier = Identifier::INTEGER;

    fn tag_tree() -> TagTree<'static> {
        TagTree::of(Self::TAG)
    }

    fn constraints() -> Constraints<'static> {
        between(-128, 127)
    }
}

impl Described for i16 {
    ghost tags = { record { class = 0; number = 2 } ∷ [] };

    ghost own = { from_to (negsuc 32767) (pos 32767) };

    ghost under = { λ c _. integer_under c (whole_range (2 ^ 15 - 1)) };

    ghost schema = { λ _. integer_under (from_to (negsuc 32767) (pos 32767)) (whole_range (2 ^ 15 - 1)) };

    ghost is_own = { λ _. refl };

    ghost meaning = { λ x. number x };

    ghost typed = { integer_type _ _ refl refl refl };

    ghost valued = { λ x. integer_value _ _ _ };

    ghost valued_under = { λ c x. integer_value _ _ _ };
}

impl AsnType for i16 {
    const TAG: Tag = Tag::INTEGER;

    const IDENTIFIER: Identifier = Identifier::INTEGER;

    fn tag_tree() -> TagTree<'static> {
        TagTree::of(Self::TAG)
    }

    fn constraints() -> Constraints<'static> {
        between(-32768, 32767)
    }
}

impl Described for i32 {
    ghost tags = { record { class = 0; number = 2 } ∷ [] };

    ghost own = { from_to (negsuc 2147483647) (pos 2147483647) };

    ghost under = { λ c _. integer_under c (whole_range (2 ^ 31 - 1)) };

    ghost schema = { λ _. integer_under (from_to (negsuc 2147483647) (pos 2147483647)) (whole_range (2 ^ 31 - 1)) };

    ghost is_own = { λ _. refl };

    ghost meaning = { λ x. number x };

    ghost typed = { integer_type _ _ refl refl refl };

    ghost valued = { λ x. integer_value _ _ _ };

    ghost valued_under = { λ c x. integer_value _ _ _ };
}

impl AsnType for i32 {
    const TAG: Tag = Tag::INTEGER;

    const IDENTIFIER: Identifier = Identifier::INTEGER;

    fn tag_tree() -> TagTree<'static> {
        TagTree::of(Self::TAG)
    }

    fn constraints() -> Constraints<'static> {
        between(-2147483648, 2147483647)
    }
}

impl Described for i64 {
    ghost tags = { record { class = 0; number = 2 } ∷ [] };

    ghost own = { from_to (negsuc 9223372036854775807) (pos 9223372036854775807) };

    ghost under = { λ c _. integer_under c (whole_range (2 ^ 63 - 1)) };

    ghost schema = { λ _. integer_under (from_to (negsuc 9223372036854775807) (pos 9223372036854775807))
        (whole_range (2 ^ 63 - 1)) };

    ghost is_own = { λ _. refl };

    ghost meaning = { λ x. number x };

    ghost typed = { integer_type _ _ refl refl refl };

    ghost valued = { λ x. integer_value _ _ _ };

    ghost valued_under = { λ c x. integer_value _ _ _ };
}

impl AsnType for i64 {
    const TAG: Tag = Tag::INTEGER;

    const IDENTIFIER: Identifier = Identifier::INTEGER;

    fn tag_tree() -> TagTree<'static> {
        TagTree::of(Self::TAG)
    }

    fn constraints() -> Constraints<'static> {
        between(-9223372036854775808, 9223372036854775807)
    }
}

impl Described for u16 {
    ghost tags = { record { class = 0; number = 2 } ∷ [] };

    ghost own = { from_to (pos 0) (pos 65535) };

    ghost under = { λ c _. integer_under c (natural_range (2 ^ 16 - 1)) };

    ghost schema = { λ _. integer_under (from_to (pos 0) (pos 65535)) (natural_range (2 ^ 16 - 1)) };

    ghost is_own = { λ _. refl };

    ghost meaning = { λ x. number (pos x) };

    ghost typed = { integer_type _ _ refl refl refl };

    ghost valued = { λ x. integer_value _ _ _ };

    ghost valued_under = { λ c x. integer_value _ _ _ };
}

impl AsnType for u16 {
    const TAG: Tag = Tag::INTEGER;

    const IDENTIFIER: Identifier = Identifier::INTEGER;

    fn tag_tree() -> TagTree<'static> {
        TagTree::of(Self::TAG)
    }

    fn constraints() -> Constraints<'static> {
        between(0, 65535)
    }
}

impl Described for u32 {
    ghost tags = { record { class = 0; number = 2 } ∷ [] };

    ghost own = { from_to (pos 0) (pos 4294967295) };

    ghost under = { λ c _. integer_under c (natural_range (2 ^ 32 - 1)) };

    ghost schema = { λ _. integer_under (from_to (pos 0) (pos 4294967295)) (natural_range (2 ^ 32 - 1)) };

    ghost is_own = { λ _. refl };

    ghost meaning = { λ x. number (pos x) };

    ghost typed = { integer_type _ _ refl refl refl };

    ghost valued = { λ x. integer_value _ _ _ };

    ghost valued_under = { λ c x. integer_value _ _ _ };
}

impl AsnType for u32 {
    const TAG: Tag = Tag::INTEGER;

    const IDENTIFIER: Identifier = Identifier::INTEGER;

    fn tag_tree() -> TagTree<'static> {
        TagTree::of(Self::TAG)
    }

    fn constraints() -> Constraints<'static> {
        between(0, 4294967295)
    }
}

impl Described for u64 {
    ghost tags = { record { class = 0; number = 2 } ∷ [] };

    ghost own = { from_to (pos 0) (pos 18446744073709551615) };

    ghost under = { λ c _. integer_under c (natural_range (2 ^ 64 - 1)) };

    ghost schema = { λ _. integer_under (from_to (pos 0) (pos 18446744073709551615)) (natural_range (2 ^ 64 - 1)) };

    ghost is_own = { λ _. refl };

    ghost meaning = { λ x. number (pos x) };

    ghost typed = { integer_type _ _ refl refl refl };

    ghost valued = { λ x. integer_value _ _ _ };

    ghost valued_under = { λ c x. integer_value _ _ _ };
}

impl AsnType for u64 {
    const TAG: Tag = Tag::INTEGER;

    const IDENTIFIER: Identifier = Identifier::INTEGER;

    fn tag_tree() -> TagTree<'static> {
        TagTree::of(Self::TAG)
    }

    fn constraints() -> Constraints<'static> {
        between(0, 18446744073709551615)
    }
}
