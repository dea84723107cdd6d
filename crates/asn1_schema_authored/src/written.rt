//! The extension additions of a SEQUENCE or SET, one nested in another, as they are encoded.
ghost use Rattle.std.specs.Prelude.{refl, min, ◌≤◌};
ghost use Rattle.asn1_model.specs.Value.{end, same};
ghost use Rattle.asn1_model.specs.Schema.{required, optional, by_default};
ghost use Rattle.asn1_schema_laws.specs.Presents.{there, with_part};
ghost use Rattle.asn1_schema_laws.specs.Tables.{field, field_tags};
ghost use Rattle.asn1_schema_laws.specs.Parts.{part_of, part_unless};
ghost use Rattle.asn1_schema_laws.proofs.Values.{part_required, part_optional, part_default};
ghost use Rattle.asn1_schema_laws.proofs.Defaults.{has_default};
ghost use Rattle.asn1_schema_laws.specs.Additions.{addition_count, extensible_table, group_type, group_part};
ghost use Rattle.asn1_schema_laws.proofs.Additions.{as_addition, more_addition_types, extensible_types};
ghost use Rattle.asn1_schema_laws.proofs.Additions.{more_addition_values, extensible_values};
ghost use Rattle.asn1_schema_laws.proofs.Groups.{group_addition, group_valued};

use crate::additions::AdditionsOf;
use crate::group::Group;
use asn1_schema_types::{ComponentsOf, DefaultOf, Described};
use std::marker::PhantomData;

/// The extension additions, which follow the root components of a type with an extension marker, as they are encoded.
#[derive(Drop)]
pub struct ExtensionMarker<A: AdditionsOf> {
    /// The additions.
    pub additions: A,
    ghost counted: { addition_count A.additions ≤ 18446744073709551615 },
}

impl<A: AdditionsOf> ComponentsOf for ExtensionMarker<A> {
    ghost table = { extensible_table A.additions };

    ghost root = { λ _. end };

    ghost added = { λ x. A.parts x.additions };

    ghost typed = { λ d. extensible_types (A.typed d) };

    ghost valued = { λ d x. extensible_values (A.valued d x.additions) };
}

/// An addition that is present, and the additions after it.
#[derive(Drop)]
pub struct AddedRequired<'a, T, R>(pub &'a T, pub R);

impl<'a, T: Described, R: AdditionsOf> AdditionsOf for AddedRequired<'a, T, R> {
    ghost additions = { field T.tags required T.schema R.additions };

    ghost parts = { λ x. with_part (there (T.meaning x.0.now)) (R.parts x.1) };

    fn count() -> usize {
        R::count().saturating_add(1)
    }

    ghost typed = { λ d. more_addition_types T.tags required (λ _. refl) (as_addition required T.typed) (R.typed d) };

    ghost valued = { λ d x. more_addition_values T.tags (part_required T.typed (T.valued x.0.now)) (R.valued d x.1) };
}

/// An addition that may be absent, and the additions after it.
#[derive(Drop)]
pub struct AddedOptional<'a, T, R>(pub &'a Option<T>, pub R);

impl<'a, T: Described, R: AdditionsOf> AdditionsOf for AddedOptional<'a, T, R> {
    ghost additions = { field T.tags optional T.schema R.additions };

    ghost parts = { λ x. with_part (part_of T.meaning x.0.now) (R.parts x.1) };

    fn count() -> usize {
        R::count().saturating_add(1)
    }

    ghost typed = { λ d. more_addition_types T.tags optional (λ _. refl) (as_addition optional T.typed) (R.typed d) };

    ghost valued = { λ d x. more_addition_values T.tags (part_optional T.meaning x.0.now T.typed T.valued)
        (R.valued d x.1) };
}

/// An addition with a default, given by the marker `V`, and the additions after it.
#[derive(Drop)]
pub struct AddedDefaulted<'a, V, T, R>(pub &'a T, pub PhantomData<V>, pub R);

impl<'a, V: DefaultOf<T>, T: Described, R: AdditionsOf> AdditionsOf
    for AddedDefaulted<'a, V, T, R> {
    ghost additions = { field T.tags (by_default V.value) T.schema R.additions };

    ghost parts = { λ x. with_part (part_unless (same (T.meaning x.0.now) V.value) (T.meaning x.0.now)) (R.parts x.2) };

    fn count() -> usize {
        R::count().saturating_add(1)
    }

    ghost typed = { λ d. more_addition_types T.tags (by_default V.value) (has_default d.0)
        (as_addition (by_default V.value) T.typed) (R.typed d.1) };

    ghost valued = { λ d x. more_addition_values T.tags
        (part_default (same (T.meaning x.0.now) V.value) T.typed (T.valued x.0.now) d.0.is_value refl)
        (R.valued d.1 x.2) };
}

/// An extension addition group, and the additions after it.
#[derive(Drop)]
pub struct AddedGroup<'a, G, R>(pub &'a Option<G>, pub R);

impl<'a, G: Group, R: AdditionsOf> AdditionsOf for AddedGroup<'a, G, R> {
    ghost additions = { field (field_tags G.components.root) optional (group_type G.components) R.additions };

    ghost parts = { λ x. with_part (group_part G.parts x.0.now) (R.parts x.1) };

    fn count() -> usize {
        R::count().saturating_add(1)
    }

    ghost typed = { λ d. more_addition_types (field_tags G.components.root) optional (λ _. refl)
        (group_addition G.plain G.lawful G.tidy) (R.typed d) };

    ghost valued = { λ d x. more_addition_values (field_tags G.components.root)
        (group_valued G.parts x.0.now G.plain G.each) (R.valued d x.1) };
}
