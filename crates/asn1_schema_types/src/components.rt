//! The components of a SEQUENCE, nested one in another, so that a type encodes them in one call.
ghost use Rattle.std.specs.Prelude.{refl};
ghost use Rattle.asn1_model.specs.Value.{Parts, end, same};
ghost use Rattle.asn1_model.specs.Schema.{required, optional, by_default};
ghost use Rattle.asn1_schema_laws.specs.Presents.{there, with_part};
ghost use Rattle.asn1_schema_laws.specs.Tables.{Table, no_table, with_field};
ghost use Rattle.asn1_schema_laws.specs.Parts.{part_of, part_unless};
ghost use Rattle.asn1_schema_laws.specs.Typed.{AreDefaults, AreTypes, AreValues};
ghost use Rattle.asn1_schema_laws.proofs.Values.{no_types, more_types, no_values, more_values, part_required};
ghost use Rattle.asn1_schema_laws.proofs.Values.{part_optional, part_default};
ghost use Rattle.asn1_schema_laws.proofs.Defaults.{has_default};

use crate::Described;
use crate::defaults::DefaultOf;
use std::marker::PhantomData;

/// Components of a SEQUENCE: their ASN.1 types, and the values they represent.
pub trait ComponentsOf {
    /// The table of the components.
    ghost table: { Table };

    /// The root components.
    ghost root: { Self → Parts };

    /// The additions.
    ghost added: { Self → Parts };

    /// The types of the components are well-formed, if each default is allowed for its component.
    ghost typed: { AreDefaults table → AreTypes table };

    /// The parts are of these types.
    ghost valued: { AreDefaults table → (x : Self) → AreValues table (root x) (added x) };

    /// Does nothing: the items before it are data, those after it are laws (see `Described::described`).
    fn described(&self) {}
}

/// The end of a SEQUENCE without an extension marker.
#[derive(Drop)]
pub struct End;

/// A mandatory component, and the components after it.
#[derive(Drop)]
pub struct Required<'a, T, R>(pub &'a T, pub R);

impl ComponentsOf for End {
    ghost table = { no_table };

    ghost root = { λ _. end };

    ghost added = { λ _. end };

    ghost typed = { λ _. no_types };

    ghost valued = { λ _ _. no_values };
}

impl<'a, T: Described, R: ComponentsOf> ComponentsOf for Required<'a, T, R> {
    ghost table = { with_field T.tags required T.schema R.table };

    ghost root = { λ x. with_part (there (T.meaning x.0.now)) (R.root x.1) };

    ghost added = { λ x. R.added x.1 };

    ghost typed = { λ d. more_types T.tags required (λ _. refl) T.typed (R.typed d) };

    ghost valued = { λ d x. more_values T.tags (part_required T.typed (T.valued x.0.now)) (R.valued d x.1) };
}

/// An OPTIONAL component, and the components after it.
#[derive(Drop)]
pub struct Optional<'a, T, R>(pub &'a Option<T>, pub R);

impl<'a, T: Described, R: ComponentsOf> ComponentsOf for Optional<'a, T, R> {
    ghost table = { with_field T.tags optional T.schema R.table };

    ghost root = { λ x. with_part (part_of T.meaning x.0.now) (R.root x.1) };

    ghost added = { λ x. R.added x.1 };

    ghost typed = { λ d. more_types T.tags optional (λ _. refl) T.typed (R.typed d) };

    ghost valued = { λ d x. more_values T.tags (part_optional T.meaning x.0.now T.typed T.valued) (R.valued d x.1) };
}

/// A mandatory component, and the components after it, as they are decoded.
#[derive(Drop)]
pub struct RequiredComponent<T, R>(pub T, pub R);

impl<T: Described, R: ComponentsOf> ComponentsOf for RequiredComponent<T, R> {
    ghost table = { with_field T.tags required T.schema R.table };

    ghost root = { λ x. with_part (there (T.meaning x.0)) (R.root x.1) };

    ghost added = { λ x. R.added x.1 };

    ghost typed = { λ d. more_types T.tags required (λ _. refl) T.typed (R.typed d) };

    ghost valued = { λ d x. more_values T.tags (part_required T.typed (T.valued x.0)) (R.valued d x.1) };
}

/// An OPTIONAL component, and the components after it, as they are decoded.
#[derive(Drop)]
pub struct OptionalComponent<T, R>(pub Option<T>, pub R);

impl<T: Described, R: ComponentsOf> ComponentsOf for OptionalComponent<T, R> {
    ghost table = { with_field T.tags optional T.schema R.table };

    ghost root = { λ x. with_part (part_of T.meaning x.0) (R.root x.1) };

    ghost added = { λ x. R.added x.1 };

    ghost typed = { λ d. more_types T.tags optional (λ _. refl) T.typed (R.typed d) };

    ghost valued = { λ d x. more_values T.tags (part_optional T.meaning x.0 T.typed T.valued) (R.valued d x.1) };
}

/// A component with the DEFAULT that the marker type names, and the components after it.
#[derive(Drop)]
pub struct Defaulted<'a, V, T, R>(pub &'a T, pub PhantomData<V>, pub R);

impl<'a, V: DefaultOf<T>, T: Described, R: ComponentsOf> ComponentsOf for Defaulted<'a, V, T, R> {
    ghost table = { with_field T.tags (by_default V.value) T.schema R.table };

    ghost root = { λ x. with_part (part_unless (same (T.meaning x.0.now) V.value) (T.meaning x.0.now)) (R.root x.2) };

    ghost added = { λ x. R.added x.2 };

    ghost typed = { λ d. more_types T.tags (by_default V.value) (has_default d.0) T.typed (R.typed d.1) };

    ghost valued = { λ d x. more_values T.tags (part_default (same (T.meaning x.0.now) V.value) T.typed
        (T.valued x.0.now) d.0.is_value refl) (R.valued d.1 x.2) };
}

/// A component with the DEFAULT that the marker type names, and the components after it, as they are decoded.
#[derive(Drop)]
pub struct DefaultedComponent<V, T, R>(pub T, pub PhantomData<V>, pub R);

impl<V: DefaultOf<T>, T: Described, R: ComponentsOf> ComponentsOf for DefaultedComponent<V, T, R> {
    ghost table = { with_field T.tags (by_default V.value) T.schema R.table };

    ghost root = { λ x. with_part (part_unless (same (T.meaning x.0) V.value) (T.meaning x.0)) (R.root x.2) };

    ghost added = { λ x. R.added x.2 };

    ghost typed = { λ d. more_types T.tags (by_default V.value) (has_default d.0) T.typed (R.typed d.1) };

    ghost valued = { λ d x. more_values T.tags (part_default (same (T.meaning x.0) V.value) T.typed (T.valued x.0)
        d.0.is_value refl) (R.valued d.1 x.2) };
}
