//! Values with another tag (X.680 31).
ghost use Rattle.asn1_model.specs.Lawful.{smallest};
ghost use Rattle.asn1_schema_laws.proofs.TypesByKind.{under_smallest};
ghost use Rattle.asn1_schema_tags.specs.Trees.{greatest_tag};
ghost use Rattle.std.specs.Prelude.{◌≡◌, [], ◌∷◌, refl};
ghost use Rattle.std.proofs.Common.{◌∙◌};
ghost use Rattle.std.proofs.Math.Bool.{and-true};
ghost use Rattle.std.specs.Borrow.{Lends, sem};

use asn1_schema_constraints::Constraints;
use asn1_schema_decode::{Decode, Decoder};
use asn1_schema_encode::{Encode, Encoder};
use asn1_schema_errors::{DecodeError, EncodeError};
use asn1_schema_tags::{Identifier, Tag, TagTree};
use asn1_schema_types::{AsnType, Described, EqualByMeaning};
use std::alloc::Global;
use std::marker::PhantomData;
use std::ops::{Deref, DerefMut};

/// A value whose tag is replaced by that of `T` (X.680 31.2.7), which is the smallest one if `T` is a choice.
#[derive(Drop)]
#[derive_where(Clone, Debug, PartialEq, Eq; V)]
pub struct Implicit<T, V> {
    /// The value.
    pub value: V,
    tag: PhantomData<T>,
}

impl<T, V> Implicit<T, V> {
    /// This value with the tag.
    pub fn new(value: V) -> Self
        ensures { result.value ≡ value }
    {
        Implicit {
            value,
            tag: PhantomData,
        }
    }
}

impl<T, V> From<V> for Implicit<T, V> {
    ghost from_gives = { λ v t. t.value ≡ v };

    fn from(value: V) -> Self {
        Implicit::new(value)
    }
}

impl<T, V> Deref for Implicit<T, V> {
    type Target = V;

    ghost deref_gives = { λ t v. v ≡ t.value };

    fn deref(&self) -> &V {
        &self.value
    }
}

/// When the borrow ends, the value is what was left in it.
impl<T, V> DerefMut for Implicit<T, V> {
    ghost use Rattle.asn1_schema_wrapped.specs.contracts.tagged.Implicit.{the_row};

    ghost deref_mut_gives = { λ t v. v ≡ t.value };

    fn deref_mut(&mut self) -> &mut V
        ensures* writes_back { sem 𝓛 (Lends (the_row T.row V.row) V.row self.entry result
            (λ v. record self.old { value = v })) }
        ensures shows { result.now ≡ self.old.value }
    {
        &mut self.value
    }
}

impl<T: Described, V: Described> Described for Implicit<T, V> {
    ghost tags = { smallest greatest_tag T.tags ∷ [] };

    ghost own = { V.own };

    ghost under = { V.under };

    ghost schema = { V.schema };

    ghost is_own = { V.is_own };

    ghost meaning = { λ t. V.meaning t.value };

    ghost typed = { under_smallest greatest_tag refl T.typed V.typed };

    ghost valued = { λ t. V.valued t.value };

    ghost valued_under = { λ c t. V.valued_under c t.value };
}

/// Values with a tag are equal exactly if what they mean is equal.
impl<T: Described, V: EqualByMeaning> EqualByMeaning for Implicit<T, V> {
    ghost agrees = { λ x y. and-true _ ∙ V.agrees x.value y.value };
}

impl<T: AsnType, V: AsnType> AsnType for Implicit<T, V> {
    const TAG: Tag = T::TAG;

    const IDENTIFIER: Identifier = V::IDENTIFIER;

    fn tag_tree() -> TagTree<'static> {
        TagTree::of(T::tag_tree().smallest_tag())
    }

    fn constraints() -> Constraints<'static> {
        V::constraints()
    }
}

impl<T: AsnType, V: Encode> Encode for Implicit<T, V> {
    fn encode_with_tag_and_constraints<E: Encoder>(
        &self,
        encoder: &mut E,
        tag: Tag,
        constraints: &Constraints,
    ) -> Result<(), EncodeError> {
        V::encode_with_tag_and_constraints(&self.value, encoder, tag, constraints)
    }
}

impl<T: AsnType + Drop, V: Decode> Decode for Implicit<T, V> {
    #[inline(always)]
    fn decode_with_tag_and_constraints<D: Decoder>(
        alloc: Global,
        decoder: &mut D,
        tag: Tag,
        constraints: &Constraints,
    ) -> Result<Self, DecodeError> {
        let value = V::decode_with_tag_and_constraints(alloc, decoder, tag, constraints)?;
        Ok(Implicit::new(value))
    }
}

/// A value with a further, explicit tag: that of `T` (X.680 31.2.8).
#[derive(Drop)]
#[derive_where(Clone, Debug, PartialEq, Eq; V)]
pub struct Explicit<T, V> {
    /// The value.
    pub value: V,
    tag: PhantomData<T>,
}

impl<T, V> Explicit<T, V> {
    /// This value with the tag.
    pub fn new(value: V) -> Self
        ensures { result.value ≡ value }
    {
        Explicit {
            value,
            tag: PhantomData,
        }
    }
}

impl<T, V> From<V> for Explicit<T, V> {
    ghost from_gives = { λ v t. t.value ≡ v };

    fn from(value: V) -> Self {
        Explicit::new(value)
    }
}

impl<T, V> Deref for Explicit<T, V> {
    type Target = V;

    ghost deref_gives = { λ t v. v ≡ t.value };

    fn deref(&self) -> &V {
        &self.value
    }
}

/// When the borrow ends, the value is what was left in it.
impl<T, V> DerefMut for Explicit<T, V> {
    ghost use Rattle.asn1_schema_wrapped.specs.contracts.tagged.Explicit.{the_row};

    ghost deref_mut_gives = { λ t v. v ≡ t.value };

    fn deref_mut(&mut self) -> &mut V
        ensures* writes_back { sem 𝓛 (Lends (the_row T.row V.row) V.row self.entry result
            (λ v. record self.old { value = v })) }
        ensures shows { result.now ≡ self.old.value }
    {
        &mut self.value
    }
}

impl<T: Described, V: Described> Described for Explicit<T, V> {
    ghost tags = { smallest greatest_tag T.tags ∷ [] };

    ghost own = { V.own };

    ghost under = { V.under };

    ghost schema = { V.schema };

    ghost is_own = { V.is_own };

    ghost meaning = { λ t. V.meaning t.value };

    ghost typed = { under_smallest greatest_tag refl T.typed V.typed };

    ghost valued = { λ t. V.valued t.value };

    ghost valued_under = { λ c t. V.valued_under c t.value };
}

/// Values with a tag are equal exactly if what they mean is equal.
impl<T: Described, V: EqualByMeaning> EqualByMeaning for Explicit<T, V> {
    ghost agrees = { λ x y. and-true _ ∙ V.agrees x.value y.value };
}

impl<T: AsnType, V: AsnType> AsnType for Explicit<T, V> {
    const TAG: Tag = T::TAG;

    const IDENTIFIER: Identifier = V::IDENTIFIER;

    fn tag_tree() -> TagTree<'static> {
        TagTree::of(T::tag_tree().smallest_tag())
    }

    fn constraints() -> Constraints<'static> {
        V::constraints()
    }
}

/// PER and OER do not encode the outer tag.
impl<T: AsnType, V: Encode> Encode for Explicit<T, V> {
    fn encode_with_tag_and_constraints<E: Encoder>(
        &self,
        encoder: &mut E,
        _tag: Tag,
        constraints: &Constraints,
    ) -> Result<(), EncodeError> {
        V::encode_with_tag_and_constraints(&self.value, encoder, V::TAG, constraints)
    }
}

impl<T: AsnType + Drop, V: Decode> Decode for Explicit<T, V> {
    #[inline(always)]
    fn decode_with_tag_and_constraints<D: Decoder>(
        alloc: Global,
        decoder: &mut D,
        _tag: Tag,
        constraints: &Constraints,
    ) -> Result<Self, DecodeError> {
        let value = V::decode_with_tag_and_constraints(alloc, decoder, V::TAG, constraints)?;
        Ok(Explicit::new(value))
    }
}
