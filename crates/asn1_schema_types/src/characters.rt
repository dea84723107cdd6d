//! The restricted character strings with one octet per character (X.680 41).
ghost use Rattle.std.specs.Prelude.{refl, [], ◌∷◌, None};
ghost use Rattle.asn1_model.specs.Value.{text};
ghost use Rattle.asn1_schema_constraints.specs.Terms.{no_constraint, character_string_under};
ghost use Rattle.asn1_schema_laws.proofs.TypesByKind.{character_string_type, character_string_value};

use crate::TaggedKind;
use crate::described::{AsnType, Described};
use asn1_schema_constraints::Constraints;
use asn1_schema_tags::{Identifier, Tag, TagTree};
use asn1_values_strings::RestrictedString;

impl<K: TaggedKind> Described for RestrictedString<K> {
    ghost tags = { record { class = 0; number = K.number } ∷ [] };

    ghost own = { no_constraint };

    ghost under = { λ c _. character_string_under K.kind c (record { low = 0; high = None }) };

    ghost schema = { λ _. character_string_under K.kind no_constraint (record { low = 0; high = None }) };

    ghost is_own = { λ _. refl };

    ghost meaning = { λ s. text s };

    ghost typed = { character_string_type _ _ _ _ refl refl };

    ghost valued = { λ s. character_string_value _ _ _ _ _ };

    ghost valued_under = { λ c s. character_string_value _ _ _ _ _ };
}

impl<K: TaggedKind> AsnType for RestrictedString<K> {
    const TAG: Tag = K::TAG;

    const IDENTIFIER: Identifier = K::IDENTIFIER;

    fn tag_tree() -> TagTree<'static> {
        TagTree::of(K::TAG)
    }

    fn constraints() -> Constraints<'static> {
        Constraints::NONE
    }
}
