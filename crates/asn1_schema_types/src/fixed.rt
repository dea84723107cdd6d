//! BIT STRING and OCTET STRING of a fixed size (X.680 22 and 23).
ghost use Rattle.std.specs.Prelude.{refl, [], ◌∷◌, Some};
ghost use Rattle.std.proofs.Math.Nat.{le_refl};
ghost use Rattle.std.proofs.lemmas.Bool.{le-leb};
ghost use Rattle.asn1_model.specs.Value.{bit_list, octet_list};
ghost use Rattle.asn1_schema_constraints.specs.Terms.{no_constraint, bit_string_under, octet_string_under};
ghost use Rattle.asn1_schema_laws.proofs.TypesByKind.{bit_string_type, bit_string_value, octet_string_type};
ghost use Rattle.asn1_schema_laws.proofs.TypesByKind.{octet_string_value};

use crate::described::{AsnType, Described};
use asn1_schema_constraints::Constraints;
use asn1_schema_tags::{Identifier, Tag, TagTree};
use asn1_values_bit_strings::FixedBitString;
use asn1_values_octets::FixedOctetString;

impl<const N: usize> Described for FixedBitString<N> {
    ghost tags = { record { class = 0; number = 3 } ∷ [] };

    ghost own = { no_constraint };

    ghost under = { λ c _. bit_string_under c (record { low = N; high = Some N }) };

    ghost schema = { λ _. bit_string_under no_constraint (record { low = N; high = Some N }) };

    ghost is_own = { λ _. refl };

    ghost meaning = { λ s. bit_list s };

    ghost typed = { bit_string_type _ _ refl (le-leb N N (le_refl N)) };

    ghost valued = { λ s. bit_string_value _ _ _ };

    ghost valued_under = { λ c s. bit_string_value _ _ _ };
}

impl<const N: usize> AsnType for FixedBitString<N> {
    const TAG: Tag = Tag::BIT_STRING;

    const IDENTIFIER: Identifier = Identifier::BIT_STRING;

    const IS_CHOICE: bool = false;

    fn tag_tree() -> TagTree<'static> {
        TagTree::of(Tag::BIT_STRING)
    }

    fn constraints() -> Constraints<'static> {
        Constraints::NONE
    }
}

impl<const N: usize> Described for FixedOctetString<N> {
    ghost tags = { record { class = 0; number = 4 } ∷ [] };

    ghost own = { no_constraint };

    ghost under = { λ c _. octet_string_under c (record { low = N; high = Some N }) };

    ghost schema = { λ _. octet_string_under no_constraint (record { low = N; high = Some N }) };

    ghost is_own = { λ _. refl };

    ghost meaning = { λ s. octet_list s };

    ghost typed = { octet_string_type _ _ refl (le-leb N N (le_refl N)) };

    ghost valued = { λ s. octet_string_value _ _ _ };

    ghost valued_under = { λ c s. octet_string_value _ _ _ };
}

impl<const N: usize> AsnType for FixedOctetString<N> {
    const TAG: Tag = Tag::OCTET_STRING;

    const IDENTIFIER: Identifier = Identifier::OCTET_STRING;

    const IS_CHOICE: bool = false;

    fn tag_tree() -> TagTree<'static> {
        TagTree::of(Tag::OCTET_STRING)
    }

    fn constraints() -> Constraints<'static> {
        Constraints::NONE
    }
}
