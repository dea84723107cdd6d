//! BIT STRING, OCTET STRING, UTF8String and OBJECT IDENTIFIER (X.680 22, 23, 41 and 32).
ghost use Rattle.std.specs.Prelude.{refl, [], ◌∷◌, None, string_bytes};
ghost use Rattle.asn1_model.specs.Value.{bit_list, octet_list, text, arcs};
ghost use Rattle.asn1_model.specs.Schema.{object_identifier, utf8};
ghost use Rattle.asn1_schema_constraints.specs.Terms.{no_constraint, bit_string_under, octet_string_under};
ghost use Rattle.asn1_schema_constraints.specs.Terms.{character_string_under};
ghost use Rattle.asn1_schema_laws.proofs.TypesByKind.{bit_string_type, bit_string_value, octet_string_type};
ghost use Rattle.asn1_schema_laws.proofs.TypesByKind.{octet_string_value, character_string_type};
ghost use Rattle.asn1_schema_laws.proofs.TypesByKind.{character_string_value, identifier_type, identifier_value};

use crate::described::{AsnType, Described};
use asn1_schema_constraints::Constraints;
use asn1_schema_tags::{Identifier, Tag, TagTree};
use asn1_values_bit_strings::BitString;
use asn1_values_identifiers::ObjectIdentifier;
use asn1_values_octets::OctetString;

impl Described for BitString {
    ghost tags = { record { class = 0; number = 3 } ∷ [] };

    ghost own = { no_constraint };

    ghost under = { λ c _. bit_string_under c (record { low = 0; high = None }) };

    ghost schema = { λ _. bit_string_under no_constraint (record { low = 0; high = None }) };

    ghost is_own = { λ _. refl };

    ghost meaning = { λ s. bit_list s };

    ghost typed = { bit_string_type _ _ refl refl };

    ghost valued = { λ s. bit_string_value _ _ _ };

    ghost valued_under = { λ c s. bit_string_value _ _ _ };
}

impl AsnType for BitString {
    const TAG: Tag = Tag::BIT_STRING;

    const IDENTIFIER: Identifier = Identifier::BIT_STRING;

    fn tag_tree() -> TagTree<'static> {
        TagTree::of(Self::TAG)
    }

    fn constraints() -> Constraints<'static> {
        Constraints::NONE
    }
}

impl Described for OctetString {
    ghost tags = { record { class = 0; number = 4 } ∷ [] };

    ghost own = { no_constraint };

    ghost under = { λ c _. octet_string_under c (record { low = 0; high = None }) };

    ghost schema = { λ _. octet_string_under no_constraint (record { low = 0; high = None }) };

    ghost is_own = { λ _. refl };

    ghost meaning = { λ s. octet_list s };

    ghost typed = { octet_string_type _ _ refl refl };

    ghost valued = { λ s. octet_string_value _ _ _ };

    ghost valued_under = { λ c s. octet_string_value _ _ _ };
}

impl AsnType for OctetString {
    const TAG: Tag = Tag::OCTET_STRING;

    const IDENTIFIER: Identifier = Identifier::OCTET_STRING;

    fn tag_tree() -> TagTree<'static> {
        TagTree::of(Self::TAG)
    }

    fn constraints() -> Constraints<'static> {
        Constraints::NONE
    }
}

impl Described for String {
    ghost tags = { record { class = 0; number = 12 } ∷ [] };

    ghost own = { no_constraint };

    ghost under = { λ c _. character_string_under utf8 c (record { low = 0; high = None }) };

    ghost schema = { λ _. character_string_under utf8 no_constraint (record { low = 0; high = None }) };

    ghost is_own = { λ _. refl };

    ghost meaning = { λ s. text (string_bytes s) };

    ghost typed = { character_string_type _ _ _ _ refl refl };

    ghost valued = { λ s. character_string_value _ _ _ _ _ };

    ghost valued_under = { λ c s. character_string_value _ _ _ _ _ };
}

impl AsnType for String {
    const TAG: Tag = Tag::UTF8_STRING;

    const IDENTIFIER: Identifier = Identifier::UTF8_STRING;

    fn tag_tree() -> TagTree<'static> {
        TagTree::of(Self::TAG)
    }

    fn constraints() -> Constraints<'static> {
        Constraints::NONE
    }
}

impl Described for ObjectIdentifier {
    ghost tags = { record { class = 0; number = 6 } ∷ [] };

    ghost own = { no_constraint };

    ghost under = { λ _ _. object_identifier };

    ghost schema = { λ _. object_identifier };

    ghost is_own = { λ _. refl };

    ghost meaning = { λ s. arcs s };

    ghost typed = { identifier_type refl };

    ghost valued = { λ s. identifier_value s };

    ghost valued_under = { λ c s. identifier_value s };
}

impl AsnType for ObjectIdentifier {
    const TAG: Tag = Tag::OBJECT_IDENTIFIER;

    const IDENTIFIER: Identifier = Identifier::OBJECT_IDENTIFIER;

    fn tag_tree() -> TagTree<'static> {
        TagTree::of(Self::TAG)
    }

    fn constraints() -> Constraints<'static> {
        Constraints::NONE
    }
}
