//! Values whose type is known elsewhere.
ghost use Rattle.std.specs.Prelude.{◌≡◌, nat_eq, refl, [], ◌∷◌, None};
ghost use Rattle.std.specs.Cmp.Lexicographic.{pointwise, nat_list_eq_equiv};
ghost use Rattle.std.specs.Cmp.{partial_equiv_from_equiv};
ghost use Rattle.asn1_model.specs.Value.{octet_list};
ghost use Rattle.asn1_schema_constraints.specs.Terms.{no_constraint, octet_string_under};
ghost use Rattle.asn1_schema_laws.proofs.Same.{octets_agree};
ghost use Rattle.asn1_schema_laws.proofs.TypesByKind.{octet_string_type, octet_string_value};

use asn1_schema_constraints::{Bounded, Constraints};
use asn1_schema_decode::{Decode, Decoder, ReadOctets};
use asn1_schema_encode::{Encode, Encoder};
use asn1_schema_errors::{DecodeError, EncodeError};
use asn1_schema_tags::{Identifier, Tag, TagTree};
use asn1_schema_types::{AsnType, Described, EqualByMeaning};
use std::alloc::{AllocError, Global};
use std::marker::Model;

/// A value of any type, held as the octets of its encoding in the rules of one codec.
#[derive(Debug, Drop)]
pub struct Any {
    contents: Vec<u8>,
}

impl Model for Any {
    ghost use Rattle.std.specs.Prelude.{List, ℕ};

    ghost Value = { List ℕ };

    ghost view = { λ a. a.contents.items };
}

impl Any {
    /// A value with these octets, which are moved, not copied.
    pub fn new(contents: Vec<u8>) -> Self
        ensures { result ≡ contents.items }
    {
        Any { contents }
    }

    /// The octets of the value.
    pub fn as_bytes(&self) -> &[u8]
        ensures { result.now ≡ self.now }
    {
        &self.contents
    }

    /// The octets of the value, which are moved, not copied.
    pub fn into_bytes(self) -> Vec<u8>
        ensures { result.items ≡ self }
    {
        self.contents
    }
}

impl From<Vec<u8>> for Any {
    ghost from_gives = { λ octets a. a ≡ octets.items };

    fn from(contents: Vec<u8>) -> Self {
        Any::new(contents)
    }
}

impl Clone for Any {
    ghost is_clone = { λ a copy. copy ≡ a };

    fn clone(&self) -> Result<Any, AllocError> {
        Ok(Any::new(self.contents.clone()?))
    }
}

/// Values of any type are equal exactly if their octets are equal.
impl PartialEq for Any {
    ghost eq = { pointwise nat_eq };

    ghost laws = { partial_equiv_from_equiv nat_list_eq_equiv };

    fn eq(&self, other: &Self) -> bool {
        self.as_bytes() == other.as_bytes()
    }
}

impl Eq for Any {
    ghost laws = { nat_list_eq_equiv };
}

/// OCTET STRING without constraints; given constraints are ignored.
impl Described for Any {
    ghost tags = { record { class = 0; number = 4 } ∷ [] };

    ghost own = { no_constraint };

    ghost under = { λ _ _. octet_string_under no_constraint (record { low = 0; high = None }) };

    ghost schema = { λ _. octet_string_under no_constraint (record { low = 0; high = None }) };

    ghost is_own = { λ _. refl };

    ghost meaning = { λ a. octet_list a };

    ghost typed = { octet_string_type _ _ refl refl };

    ghost valued = { λ a. octet_string_value _ _ _ };

    ghost valued_under = { λ _ a. octet_string_value _ _ _ };
}

impl EqualByMeaning for Any {
    ghost agrees = { octets_agree };
}

impl AsnType for Any {
    const TAG: Tag = Tag::OCTET_STRING;

    const IDENTIFIER: Identifier = Identifier::OCTET_STRING;

    fn tag_tree() -> TagTree<'static> {
        TagTree::of(Self::TAG)
    }

    fn constraints() -> Constraints<'static> {
        Constraints::NONE
    }
}

impl Encode for Any {
    fn encode_with_tag_and_constraints<E: Encoder>(
        &self,
        encoder: &mut E,
        tag: Tag,
        _constraints: &Constraints,
    ) -> Result<(), EncodeError> {
        encoder.encode_octet_string(
            tag,
            &Constraints::NONE,
            Bounded::None,
            self.as_bytes(),
            Identifier::OCTET_STRING,
        )?;
        Ok(())
    }
}

impl Decode for Any {
    fn decode_with_tag_and_constraints<D: Decoder>(
        alloc: Global,
        decoder: &mut D,
        tag: Tag,
        _constraints: &Constraints,
    ) -> Result<Self, DecodeError> {
        let octets = decoder.decode_octet_string(alloc, tag, &Constraints::NONE, Bounded::None)?;
        let Ok(owned) = octets.into_vec(alloc) else {
            return Err(decoder.refuse(DecodeError::OutOfMemory));
        };
        Ok(Any::new(owned))
    }
}
