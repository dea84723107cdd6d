//! SET OF (X.680 28) as a type, and how it is encoded and decoded.
ghost use Rattle.std.specs.Prelude.{refl, [], ◌∷◌};
ghost use Rattle.asn1_model.specs.Value.{bag};
ghost use Rattle.asn1_schema_constraints.specs.Terms.{no_constraint};
ghost use Rattle.asn1_schema_laws.specs.Parts.{values_of};
ghost use Rattle.asn1_schema_laws.specs.Forms.{set_form};
ghost use Rattle.asn1_schema_laws.specs.Tables.{bag_type};
ghost use Rattle.asn1_schema_laws.proofs.TypesByKind.{type_list, value_list};
ghost use Rattle.asn1_schema_types.specs.Counts.{any_number_held};

use crate::set_of::SetOf;
use asn1_schema_constraints::{Bounded, Constraints};
use asn1_schema_constructed::{DecodeBag, EncodeBag};
use asn1_schema_decode::{Decode, Decoder};
use asn1_schema_encode::{Encode, Encoder};
use asn1_schema_errors::{DecodeError, EncodeError};
use asn1_schema_tags::{Identifier, Tag, TagTree};
use asn1_schema_types::{AsnType, Described};
use std::alloc::Global;

impl<T: Described> Described for SetOf<T> {
    ghost tags = { record { class = 0; number = 17 } ∷ [] };

    ghost own = { no_constraint };

    ghost under = { λ c. bag_type c.size any_number_held T.schema };

    ghost schema = { bag_type no_constraint.size any_number_held T.schema };

    ghost is_own = { λ _. refl };

    ghost meaning = { λ s. bag (values_of T.meaning s.items.items) };

    ghost typed = { type_list set_form _ _ refl refl T.typed };

    ghost valued = { λ s. value_list set_form _ _ T.schema T.meaning s.items.items T.valued };

    ghost valued_under = { λ c s. value_list set_form _ _ T.schema T.meaning s.items.items T.valued };
}

impl<T: AsnType> AsnType for SetOf<T> {
    const TAG: Tag = Tag::SET;

    const IDENTIFIER: Identifier = Identifier::SET_OF;

    fn tag_tree() -> TagTree<'static> {
        TagTree::of(Tag::SET)
    }

    fn constraints() -> Constraints<'static> {
        Constraints::NONE
    }
}

/// The elements are given in their current order; the encoder writes them in the order of its rules.
impl<T: Encode> Encode for SetOf<T> {
    fn encode_with_tag_and_constraints<E: Encoder>(
        &self,
        encoder: &mut E,
        tag: Tag,
        constraints: &Constraints,
    ) -> Result<(), EncodeError> {
        encoder.encode_set_of(tag, self.as_slice(), constraints, Bounded::None)
    }
}

impl<T: Decode> Decode for SetOf<T> {
    fn decode_with_tag_and_constraints<D: Decoder>(
        alloc: Global,
        decoder: &mut D,
        tag: Tag,
        constraints: &Constraints,
    ) -> Result<Self, DecodeError> {
        let items = decoder.decode_set_of(alloc, tag, constraints, Bounded::None)?;
        Ok(SetOf::from_vec(items))
    }
}
