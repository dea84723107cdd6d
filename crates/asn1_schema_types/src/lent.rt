//! Borrowed values, and values borrowed until they have to be owned.
ghost use Rattle.std.specs.Prelude.{◌≡◌, refl, [], ◌∷◌, None};
ghost use Rattle.std.specs.Cow.{cow_value, cow_slice_items, cow_str_bytes};
ghost use Rattle.asn1_model.specs.Value.{members, text, bit_list, arcs};
ghost use Rattle.asn1_model.specs.Schema.{utf8, object_identifier};
ghost use Rattle.asn1_schema_constraints.specs.Terms.{no_constraint, meant, character_string_under, bit_string_under};
ghost use Rattle.asn1_schema_laws.specs.Parts.{values_of};
ghost use Rattle.asn1_schema_laws.specs.Forms.{sequence_form};
ghost use Rattle.asn1_schema_laws.specs.Tables.{list_type};
ghost use Rattle.asn1_schema_laws.proofs.TypesByKind.{type_list, value_list, character_string_type};
ghost use Rattle.asn1_schema_laws.proofs.TypesByKind.{character_string_value, bit_string_type, bit_string_value};
ghost use Rattle.asn1_schema_laws.proofs.TypesByKind.{identifier_type, identifier_value};
ghost use Rattle.asn1_schema_tags.specs.Trees.{leaves};
ghost use Rattle.asn1_schema_types.specs.Counts.{any_number_held};
ghost use Rattle.asn1_values_bits.specs.BitStr.{bits_of};

use crate::described::{AsnType, Described};
use asn1_schema_constraints::Constraints;
use asn1_schema_tags::{Identifier, Tag, TagTree};
use asn1_values_bits::BitStr;
use asn1_values_identifiers::Oid;
use std::alloc::Global;
use std::borrow::{Cow, CowSlice, CowStr};

impl<T: Described> Described for &T {
    ghost tags = { T.tags };

    ghost own = { T.own };

    ghost under = { T.under };

    ghost schema = { T.schema };

    ghost is_own = { T.is_own };

    ghost meaning = { λ r. T.meaning r.now };

    ghost typed = { T.typed };

    ghost valued = { λ r. T.valued r.now };

    ghost valued_under = { λ c r. T.valued_under c r.now };
}

impl<T: AsnType> AsnType for &T {
    const TAG: Tag = T::TAG;

    const IDENTIFIER: Identifier = T::IDENTIFIER;

    const IS_CHOICE: bool = T::IS_CHOICE;

    fn tag_tree() -> TagTree<'static> {
        T::tag_tree()
    }

    fn constraints() -> Constraints<'static> {
        T::constraints()
    }
}

impl Described for &str {
    ghost tags = { record { class = 0; number = 12 } ∷ [] };

    ghost own = { no_constraint };

    ghost under = { λ c _. character_string_under utf8 c (record { low = 0; high = None }) };

    ghost schema = { λ _. character_string_under utf8 no_constraint (record { low = 0; high = None }) };

    ghost is_own = { λ _. refl };

    ghost meaning = { λ s. text s.now };

    ghost typed = { character_string_type _ _ _ _ refl refl };

    ghost valued = { λ s. character_string_value _ _ _ _ _ };

    ghost valued_under = { λ c s. character_string_value _ _ _ _ _ };
}

impl AsnType for &str {
    const TAG: Tag = Tag::UTF8_STRING;

    const IDENTIFIER: Identifier = Identifier::UTF8_STRING;

    fn tag_tree() -> TagTree<'static>
        ensures { leaves result ≡ record { class = 0; number = 12 } ∷ [] }
    {
        TagTree::of(Self::TAG)
    }

    fn constraints() -> Constraints<'static>
        ensures { meant result ≡ no_constraint }
    {
        Constraints::NONE
    }
}

impl<'a, T: Described> Described for Cow<'a, T> {
    ghost tags = { T.tags };

    ghost own = { T.own };

    ghost under = { T.under };

    ghost schema = { T.schema };

    ghost is_own = { T.is_own };

    ghost meaning = { λ c. T.meaning (cow_value c) };

    ghost typed = { T.typed };

    ghost valued = { λ c. T.valued (cow_value c) };

    ghost valued_under = { λ k c. T.valued_under k (cow_value c) };
}

impl<'a, T: AsnType> AsnType for Cow<'a, T> {
    const TAG: Tag = T::TAG;

    const IDENTIFIER: Identifier = T::IDENTIFIER;

    const IS_CHOICE: bool = T::IS_CHOICE;

    fn tag_tree() -> TagTree<'static> {
        T::tag_tree()
    }

    fn constraints() -> Constraints<'static> {
        T::constraints()
    }
}

impl<'a, T: Described> Described for CowSlice<'a, T, Global> {
    ghost tags = { record { class = 0; number = 16 } ∷ [] };

    ghost own = { no_constraint };

    ghost under = { λ c. list_type c.size any_number_held T.schema };

    ghost schema = { list_type no_constraint.size any_number_held T.schema };

    ghost is_own = { λ _. refl };

    ghost meaning = { λ s. members (values_of T.meaning (cow_slice_items s)) };

    ghost typed = { type_list sequence_form _ _ refl refl T.typed };

    ghost valued = { λ s. value_list sequence_form _ _ T.schema T.meaning (cow_slice_items s) T.valued };

    ghost valued_under = { λ c s. value_list sequence_form _ _ T.schema T.meaning (cow_slice_items s) T.valued };
}

impl<'a, T: AsnType> AsnType for CowSlice<'a, T, Global> {
    const TAG: Tag = Tag::SEQUENCE;

    const IDENTIFIER: Identifier = Identifier::SEQUENCE_OF;

    fn tag_tree() -> TagTree<'static> {
        TagTree::of(Tag::SEQUENCE)
    }

    fn constraints() -> Constraints<'static> {
        Constraints::NONE
    }
}

impl<'a> Described for CowStr<'a, Global> {
    ghost tags = { record { class = 0; number = 12 } ∷ [] };

    ghost own = { no_constraint };

    ghost under = { λ c _. character_string_under utf8 c (record { low = 0; high = None }) };

    ghost schema = { λ _. character_string_under utf8 no_constraint (record { low = 0; high = None }) };

    ghost is_own = { λ _. refl };

    ghost meaning = { λ s. text (cow_str_bytes s) };

    ghost typed = { character_string_type _ _ _ _ refl refl };

    ghost valued = { λ s. character_string_value _ _ _ _ _ };

    ghost valued_under = { λ c s. character_string_value _ _ _ _ _ };
}

impl<'a> AsnType for CowStr<'a, Global> {
    const TAG: Tag = Tag::UTF8_STRING;

    const IDENTIFIER: Identifier = Identifier::UTF8_STRING;

    fn tag_tree() -> TagTree<'static>
        ensures { leaves result ≡ record { class = 0; number = 12 } ∷ [] }
    {
        TagTree::of(Self::TAG)
    }

    fn constraints() -> Constraints<'static>
        ensures { meant result ≡ no_constraint }
    {
        Constraints::NONE
    }
}

impl<'a> Described for BitStr<'a> {
    ghost tags = { record { class = 0; number = 3 } ∷ [] };

    ghost own = { no_constraint };

    ghost under = { λ c _. bit_string_under c (record { low = 0; high = None }) };

    ghost schema = { λ _. bit_string_under no_constraint (record { low = 0; high = None }) };

    ghost is_own = { λ _. refl };

    ghost meaning = { λ s. bit_list (bits_of s) };

    ghost typed = { bit_string_type _ _ refl refl };

    ghost valued = { λ s. bit_string_value _ _ _ };

    ghost valued_under = { λ c s. bit_string_value _ _ _ };
}

impl<'a> AsnType for BitStr<'a> {
    const TAG: Tag = Tag::BIT_STRING;

    const IDENTIFIER: Identifier = Identifier::BIT_STRING;

    fn tag_tree() -> TagTree<'static>
        ensures { leaves result ≡ record { class = 0; number = 3 } ∷ [] }
    {
        TagTree::of(Self::TAG)
    }

    fn constraints() -> Constraints<'static>
        ensures { meant result ≡ no_constraint }
    {
        Constraints::NONE
    }
}

impl<'a> Described for Oid<'a> {
    ghost tags = { record { class = 0; number = 6 } ∷ [] };

    ghost own = { no_constraint };

    ghost under = { λ _ _. object_identifier };

    ghost schema = { λ _. object_identifier };

    ghost is_own = { λ _. refl };

    ghost meaning = { λ s. arcs s };

    ghost typed = { identifier_type refl };

    ghost valued = { λ s. identifier_value s };

    ghost valued_under = { λ c s. identifier_value s };
}

impl<'a> AsnType for Oid<'a> {
    const TAG: Tag = Tag::OBJECT_IDENTIFIER;

    const IDENTIFIER: Identifier = Identifier::OBJECT_IDENTIFIER;

    fn tag_tree() -> TagTree<'static>
        ensures { leaves result ≡ record { class = 0; number = 6 } ∷ [] }
    {
        TagTree::of(Self::TAG)
    }

    fn constraints() -> Constraints<'static>
        ensures { meant result ≡ no_constraint }
    {
        Constraints::NONE
    }
}
