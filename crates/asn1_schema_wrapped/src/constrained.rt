//! Values under the constraints of a component (X.680 49.1).
ghost use Rattle.std.specs.Prelude.{◌≡◌, ℕ, List, refl};
ghost use Rattle.std.specs.Borrow.{Lends, sem};
ghost use Rattle.std.proofs.Common.{ap, ◌∙◌};
ghost use Rattle.std.proofs.Math.Bool.{and-true};
ghost use Rattle.asn1_schema_constraints.specs.Terms.{Meant, meant};
ghost use Rattle.asn1_model.specs.Schema.{Schema, Tag as ModelTag};
ghost use Rattle.asn1_model.specs.Value.{Value, same};
ghost use Rattle.asn1_schema_laws.specs.Tables.{IsType, IsValue};

use asn1_schema_constraints::Constraints;
use asn1_schema_decode::{Decode, Decoder};
use asn1_schema_encode::{Encode, Encoder};
use asn1_schema_errors::{DecodeError, EncodeError};
use asn1_schema_tags::{Identifier, Tag, TagTree};
use asn1_schema_types::{AsnType, Described, EqualByMeaning};
use std::alloc::Global;
use std::marker::PhantomData;
use std::ops::{Deref, DerefMut};

/// Constraints that replace those of the type `T`. What `T` is under constraints is repeated here as its `Described`
/// says it.
pub trait ConstraintsOf<T: Described> {
    /// The tags with which an encoding may begin.
    ghost tags: { List ModelTag };

    /// What the constraints mean.
    ghost terms: { Meant };

    /// The type under constraints, unfolded to this many nested levels.
    ghost under: { Meant → ℕ → Schema };

    /// The abstract value that a Rust value means.
    ghost meaning: { T → Value };

    /// The type under the constraints is well-formed.
    ghost lawful: { IsType tags (under terms) };

    /// Each value is one of the type, whatever constraints it has.
    ghost valued: { (c : Meant) (x : T) → IsValue (under c) (meaning x) };

    /// The constraints.
    fn constraints() -> Constraints<'static>
        ensures { meant result ≡ terms };

    /// They are the tags of `T`.
    ghost same_tags: { T.tags ≡ tags };

    ghost same_under: { (c : Meant) → T.under c ≡ under c };

    ghost same_meaning: { (x : T) → T.meaning x ≡ meaning x };
}

/// A value under the constraints of `C`, which replace those of its type: for example, INTEGER (0..10) held in a `u8`.
#[derive(Drop)]
#[derive_where(Clone, Debug, PartialEq, Eq; V)]
pub struct Constrained<C, V> {
    /// The value.
    pub value: V,
    constraints: PhantomData<C>,
}

impl<C, V> Constrained<C, V> {
    /// This value under the constraints. Whether it satisfies them is checked when it is encoded.
    pub fn new(value: V) -> Self
        ensures { result.value ≡ value }
    {
        Constrained {
            value,
            constraints: PhantomData,
        }
    }
}

impl<C, V> From<V> for Constrained<C, V> {
    ghost from_gives = { λ v t. t.value ≡ v };

    fn from(value: V) -> Self {
        Constrained::new(value)
    }
}

impl<C, V> Deref for Constrained<C, V> {
    type Target = V;

    ghost deref_gives = { λ t v. v ≡ t.value };

    fn deref(&self) -> &V {
        &self.value
    }
}

/// When the borrow ends, the value is what was left in it.
impl<C, V> DerefMut for Constrained<C, V> {
    ghost use Rattle.asn1_schema_wrapped.specs.contracts.constrained.Constrained.{the_row};

    ghost deref_mut_gives = { λ t v. v ≡ t.value };

    fn deref_mut(&mut self) -> &mut V
        ensures* writes_back { sem 𝓛 (Lends (the_row C.row V.row) V.row self.entry result
            (λ v. record self.old { value = v })) }
        ensures shows { result.now ≡ self.old.value }
    {
        &mut self.value
    }
}

impl<C: ConstraintsOf<V>, V: Described> Described for Constrained<C, V> {
    ghost tags = { C.tags };

    ghost own = { C.terms };

    ghost under = { C.under };

    ghost schema = { C.under C.terms };

    ghost is_own = { λ _. refl };

    ghost meaning = { λ t. C.meaning t.value };

    ghost typed = { C.lawful };

    ghost valued = { λ t. C.valued C.terms t.value };

    ghost valued_under = { λ c t. C.valued c t.value };
}

/// Values under constraints are equal exactly if what they mean is equal.
impl<C: ConstraintsOf<V>, V: EqualByMeaning> EqualByMeaning for Constrained<C, V> {
    ghost agrees = { λ x y. and-true _ ∙ V.agrees x.value y.value ∙ ap (λ m. same m (V.Described.meaning y.value))
        (C.same_meaning x.value) ∙ ap (λ m. same (C.meaning x.value) m) (C.same_meaning y.value) };
}

impl<C: ConstraintsOf<V>, V: AsnType> AsnType for Constrained<C, V> {
    const TAG: Tag = V::TAG;

    const IDENTIFIER: Identifier = V::IDENTIFIER;

    const IS_CHOICE: bool = V::IS_CHOICE;

    fn tag_tree() -> TagTree<'static> {
        V::tag_tree()
    }

    fn constraints() -> Constraints<'static> {
        C::constraints()
    }
}

impl<C: ConstraintsOf<V>, V: Encode> Encode for Constrained<C, V> {
    fn encode_with_tag_and_constraints<E: Encoder>(
        &self,
        encoder: &mut E,
        tag: Tag,
        constraints: &Constraints,
    ) -> Result<(), EncodeError> {
        V::encode_with_tag_and_constraints(&self.value, encoder, tag, constraints)?;
        Ok(())
    }
}

impl<C: ConstraintsOf<V> + Drop, V: Decode> Decode for Constrained<C, V> {
    fn decode_with_tag_and_constraints<D: Decoder>(
        alloc: Global,
        decoder: &mut D,
        tag: Tag,
        constraints: &Constraints,
    ) -> Result<Self, DecodeError> {
        let value = V::decode_with_tag_and_constraints(alloc, decoder, tag, constraints)?;
        Ok(Constrained::new(value))
    }
}
