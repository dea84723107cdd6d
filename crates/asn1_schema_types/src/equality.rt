//! Equality of Rust values, and equality of the values they represent.
ghost use Rattle.std.specs.Prelude.{◌≡◌, refl};
ghost use Rattle.std.specs.Cow.{cow_value, cow_slice_items, cow_str_bytes};
ghost use Rattle.asn1_model.specs.Value.{same};
ghost use Rattle.asn1_schema_laws.proofs.Same.{truths_agree, naturals_agree, numbers_agree, bits_agree};
ghost use Rattle.asn1_schema_laws.proofs.Same.{octets_agree, texts_agree, arcs_agree};
ghost use Rattle.asn1_values_integers.specs.Constrained.{constrained_number};
ghost use Rattle.asn1_schema_types.specs.Lists.{nothing_agrees, lists_agree};

use crate::{Described, TaggedKind};
use asn1_values_bit_strings::{BitString, FixedBitString};
use asn1_values_identifiers::ObjectIdentifier;
use asn1_values_integers::{Ends, Integer, RangedInteger};
use asn1_values_octets::{FixedOctetString, OctetString};
use asn1_values_strings::{BmpString, RestrictedString};
use std::alloc::Global;
use std::borrow::{Cow, CowSlice, CowStr};
use std::marker::PhantomData;

/// A type whose `PartialEq` is equality of the ASN.1 values represented.
pub trait EqualByMeaning: Described + PartialEq {
    ghost agrees: { (x y : Self) → Self.PartialEq.eq x y ≡ same (Self.Described.meaning x) (Self.Described.meaning y) };

    /// Whether two values represent the same value.
    final fn means_same(&self, other: &Self) -> bool
    where
        Self: Sized,
        ensures { result ≡ same (Self.Described.meaning self.now) (Self.Described.meaning other.now) }
    {
        self == other
    }
}

impl EqualByMeaning for bool {
    ghost agrees = { truths_agree };
}

impl EqualByMeaning for () {
    ghost agrees = { λ _ _. nothing_agrees };
}

impl EqualByMeaning for u8 {
    ghost agrees = { naturals_agree };
}

impl EqualByMeaning for u16 {
    ghost agrees = { naturals_agree };
}

impl EqualByMeaning for u32 {
    ghost agrees = { naturals_agree };
}

impl EqualByMeaning for u64 {
    ghost agrees = { naturals_agree };
}

impl EqualByMeaning for u128 {
    ghost agrees = { naturals_agree };
}

impl EqualByMeaning for usize {
    ghost agrees = { naturals_agree };
}

impl EqualByMeaning for i8 {
    ghost agrees = { numbers_agree };
}

impl EqualByMeaning for i16 {
    ghost agrees = { numbers_agree };
}

impl EqualByMeaning for i32 {
    ghost agrees = { numbers_agree };
}

impl EqualByMeaning for i64 {
    ghost agrees = { numbers_agree };
}

impl EqualByMeaning for i128 {
    ghost agrees = { numbers_agree };
}

impl EqualByMeaning for isize {
    ghost agrees = { numbers_agree };
}

impl EqualByMeaning for Integer {
    ghost agrees = { numbers_agree };
}

impl<R: Ends> EqualByMeaning for RangedInteger<R> {
    ghost agrees = { λ x y. numbers_agree (constrained_number x) (constrained_number y) };
}

impl EqualByMeaning for BitString {
    ghost agrees = { bits_agree };
}

impl<const N: usize> EqualByMeaning for FixedBitString<N> {
    ghost agrees = { bits_agree };
}

impl EqualByMeaning for OctetString {
    ghost agrees = { octets_agree };
}

impl<const N: usize> EqualByMeaning for FixedOctetString<N> {
    ghost agrees = { octets_agree };
}

impl EqualByMeaning for String {
    ghost agrees = { λ x y. texts_agree _ _ };
}

impl EqualByMeaning for ObjectIdentifier {
    ghost agrees = { arcs_agree };
}

impl<K: TaggedKind> EqualByMeaning for RestrictedString<K> {
    ghost agrees = { texts_agree };
}

impl EqualByMeaning for BmpString {
    ghost agrees = { texts_agree };
}

impl<T: EqualByMeaning> EqualByMeaning for Box<T> {
    ghost agrees = { λ x y. T.agrees x.value y.value };
}

impl<T: EqualByMeaning> EqualByMeaning for Vec<T> {
    ghost agrees = { λ x y. lists_agree T.PartialEq.eq T.Described.meaning T.agrees x.items y.items };
}

impl<T: EqualByMeaning, const N: usize> EqualByMeaning for [T; N] {
    ghost agrees = { lists_agree T.PartialEq.eq T.Described.meaning T.agrees };
}

impl<T> EqualByMeaning for PhantomData<T> {
    ghost agrees = { λ _ _. nothing_agrees };
}

impl<T: EqualByMeaning> EqualByMeaning for &T {
    ghost agrees = { λ x y. T.agrees x.now y.now };
}

impl<T: EqualByMeaning> EqualByMeaning for &[T] {
    ghost agrees = { λ x y. lists_agree T.PartialEq.eq T.Described.meaning T.agrees x.now y.now };
}

impl EqualByMeaning for &str {
    ghost agrees = { λ x y. texts_agree x.now y.now };
}

impl<'a, T: EqualByMeaning> EqualByMeaning for Cow<'a, T> {
    ghost agrees = { λ x y. T.agrees (cow_value x) (cow_value y) };
}

impl<'a, T: EqualByMeaning> EqualByMeaning for CowSlice<'a, T, Global> {
    ghost agrees = { λ x y. lists_agree T.PartialEq.eq T.Described.meaning T.agrees (cow_slice_items x)
        (cow_slice_items y) };
}

impl<'a> EqualByMeaning for CowStr<'a, Global> {
    ghost agrees = { λ x y. texts_agree (cow_str_bytes x) (cow_str_bytes y) };
}
