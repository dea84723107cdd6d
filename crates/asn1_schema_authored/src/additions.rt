//! The extension additions of a SEQUENCE or SET, one nested in another, as they are decoded.
ghost use Rattle.std.specs.Prelude.{◌≡◌, ◌≤◌, refl, min};
ghost use Rattle.asn1_model.specs.Value.{Parts, end, same};
ghost use Rattle.asn1_model.specs.Schema.{required, optional, by_default};
ghost use Rattle.asn1_schema_laws.specs.Presents.{there, with_part};
ghost use Rattle.asn1_schema_laws.specs.Tables.{Fields, no_field, field, field_tags};
ghost use Rattle.asn1_schema_laws.specs.Parts.{part_of, part_unless};
ghost use Rattle.asn1_schema_laws.proofs.Values.{part_required, part_optional, part_default};
ghost use Rattle.asn1_schema_laws.proofs.Defaults.{has_default};
ghost use Rattle.asn1_schema_laws.specs.Additions.{HaveDefaults, AreAdditionTypes, AreAdditionValues};
ghost use Rattle.asn1_schema_laws.specs.Additions.{addition_count, extensible_table, group_type, group_part};
ghost use Rattle.asn1_schema_laws.proofs.Additions.{as_addition, no_addition_types, more_addition_types};
ghost use Rattle.asn1_schema_laws.proofs.Additions.{extensible_types, no_addition_values, more_addition_values};
ghost use Rattle.asn1_schema_laws.proofs.Additions.{extensible_values};
ghost use Rattle.asn1_schema_laws.proofs.Groups.{group_addition, group_valued};

use crate::group::Group;
use asn1_schema_types::{ComponentsOf, DefaultOf, Described};
use std::marker::PhantomData;

/// Extension additions: their definition, and what they mean.
pub trait AdditionsOf {
    /// The additions, in their order.
    ghost additions: { Fields };

    /// The value of each addition, or that it is absent.
    ghost parts: { Self → Parts };

    /// The number of additions; `usize::MAX` if there are more.
    fn count() -> usize
        ensures { result ≡ min (addition_count additions) 18446744073709551615 };

    /// The additions may have these types, if each default is allowed for its addition.
    ghost typed: { HaveDefaults additions → AreAdditionTypes additions };

    /// The parts are of these types.
    ghost valued: { HaveDefaults additions → (x : Self) → AreAdditionValues additions (parts x) };

    /// Does nothing: the items before it are data, those after it are laws (see `Described::described`).
    fn described(&self) {}
}

/// No further addition: the end of a SEQUENCE or SET with an extension marker.
#[derive(Drop)]
pub struct NoMore;

impl AdditionsOf for NoMore {
    ghost additions = { no_field };

    ghost parts = { λ _. end };

    fn count() -> usize {
        0
    }

    ghost typed = { λ _. no_addition_types };

    ghost valued = { λ _ _. no_addition_values };
}

/// Says that `usize` can count the additions. A user-defined marker type implements it for the additions of a type.
pub trait CountOf<A: AdditionsOf> {
    /// Does nothing: the items after it are laws (see `Described::described`).
    fn described(&self) {}

    /// There are at most `usize::MAX` additions.
    ghost countable: { addition_count A.additions ≤ 18446744073709551615 };
}

/// The extension additions, which follow the root components of a type with an extension marker, as they are decoded.
/// The marker `M` says that they can be counted.
#[derive(Drop)]
pub struct ExtensibleComponents<M, A>(pub A, pub PhantomData<M>);

impl<M, A: AdditionsOf> ComponentsOf for ExtensibleComponents<M, A> {
    ghost table = { extensible_table A.additions };

    ghost root = { λ _. end };

    ghost added = { λ x. A.parts x.0 };

    ghost typed = { λ d. extensible_types (A.typed d) };

    ghost valued = { λ d x. extensible_values (A.valued d x.0) };
}

/// An addition that is present in every value that this version of the type, or a newer one, encoded; and the additions
/// after it, as they are decoded.
#[derive(Drop)]
pub struct AddedRequiredComponent<T, R>(pub T, pub R);

impl<T: Described, R: AdditionsOf> AdditionsOf for AddedRequiredComponent<T, R> {
    ghost additions = { field T.tags required T.schema R.additions };

    ghost parts = { λ x. with_part (there (T.meaning x.0)) (R.parts x.1) };

    fn count() -> usize {
        R::count().saturating_add(1)
    }

    ghost typed = { λ d. more_addition_types T.tags required (λ _. refl) (as_addition required T.typed) (R.typed d) };

    ghost valued = { λ d x. more_addition_values T.tags (part_required T.typed (T.valued x.0)) (R.valued d x.1) };
}

/// An addition that may be absent, and the additions after it, as they are decoded.
#[derive(Drop)]
pub struct AddedOptionalComponent<T, R>(pub Option<T>, pub R);

impl<T: Described, R: AdditionsOf> AdditionsOf for AddedOptionalComponent<T, R> {
    ghost additions = { field T.tags optional T.schema R.additions };

    ghost parts = { λ x. with_part (part_of T.meaning x.0) (R.parts x.1) };

    fn count() -> usize {
        R::count().saturating_add(1)
    }

    ghost typed = { λ d. more_addition_types T.tags optional (λ _. refl) (as_addition optional T.typed) (R.typed d) };

    ghost valued = { λ d x. more_addition_values T.tags (part_optional T.meaning x.0 T.typed T.valued)
        (R.valued d x.1) };
}

/// An addition with a default, given by the marker `V`, and the additions after it, as they are decoded.
#[derive(Drop)]
pub struct AddedDefaultedComponent<V, T, R>(pub T, pub PhantomData<V>, pub R);

impl<V: DefaultOf<T>, T: Described, R: AdditionsOf> AdditionsOf
    for AddedDefaultedComponent<V, T, R> {
    ghost additions = { field T.tags (by_default V.value) T.schema R.additions };

    ghost parts = { λ x. with_part (part_unless (same (T.meaning x.0) V.value) (T.meaning x.0)) (R.parts x.2) };

    fn count() -> usize {
        R::count().saturating_add(1)
    }

    ghost typed = { λ d. more_addition_types T.tags (by_default V.value) (has_default d.0)
        (as_addition (by_default V.value) T.typed) (R.typed d.1) };

    ghost valued = { λ d x. more_addition_values T.tags
        (part_default (same (T.meaning x.0) V.value) T.typed (T.valued x.0) d.0.is_value refl) (R.valued d.1 x.2) };
}

/// An extension addition group, and the additions after it, as they are decoded.
#[derive(Drop)]
pub struct AddedGroupComponent<G, R>(pub Option<G>, pub R);

impl<G: Group, R: AdditionsOf> AdditionsOf for AddedGroupComponent<G, R> {
    ghost additions = { field (field_tags G.components.root) optional (group_type G.components) R.additions };

    ghost parts = { λ x. with_part (group_part G.parts x.0) (R.parts x.1) };

    fn count() -> usize {
        R::count().saturating_add(1)
    }

    ghost typed = { λ d. more_addition_types (field_tags G.components.root) optional (λ _. refl)
        (group_addition G.plain G.lawful G.tidy) (R.typed d) };

    ghost valued = { λ d x. more_addition_values (field_tags G.components.root)
        (group_valued G.parts x.0 G.plain G.each) (R.valued d x.1) };
}
