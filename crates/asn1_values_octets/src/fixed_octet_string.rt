//! A string of a fixed number of octets.
ghost use Rattle.std.specs.Prelude.{⊤, ◌≡◌, ◌≢◌, ◌<◌, length, nat_eq, refl, replicate, Some, IfOk, MatchResult};
ghost use Rattle.std.specs.Prelude.{slice_set};
ghost use Rattle.std.specs.Borrow.{Lends, Array, sem, u8 as octet};
ghost use Rattle.std.specs.Ordering.{nat_cmp};
ghost use Rattle.std.specs.Hash as fed;
ghost use Rattle.std.specs.Cmp.Lexicographic.{pointwise, slice_cmp, nat_list_eq_equiv, nat_list_cmp_total};
ghost use Rattle.std.specs.Cmp.Lexicographic.{texts_ties, texts_po};
ghost use Rattle.std.specs.Cmp.{partial_equiv_from_equiv};
ghost use Rattle.std.specs.Cmp.Rules.{hashing};
ghost use Rattle.std.proofs.Common.{rules};
ghost use Rattle.asn1_values_octets.specs.contracts.fixed_octet_string.FixedOctetString.{the_row};

use crate::OctetString;
use std::alloc::{AllocError, Global};
use std::cmp::Ordering;
use std::convert::AsSlice;
use std::hash::{Hash, Hasher};
use std::marker::Model;
use std::ops::{DerefSlice, DerefSliceMut};
use thiserror::Error;

/// An OCTET STRING of exactly `N` octets (X.680 clause 23, with a fixed size), stored inline.
#[derive(Debug, Drop)]
pub struct FixedOctetString<const N: usize> {
    octets: [u8; N],
}

impl<const N: usize> Model for FixedOctetString<N> {
    ghost use Rattle.std.specs.Prelude.{List, ℕ};

    ghost Value = { List ℕ };

    ghost view = { λ s. s.octets };

    ghost inverse = { λ octets. record { octets = octets } };
}

/// An error: the number of octets is not `N`.
#[derive(Debug, Clone, Copy, PartialEq, Eq, Error)]
#[error("{actual} octets in place of {expected}")]
pub struct WrongLength {
    /// The number of octets that were given.
    pub actual: usize,
    /// The number of octets that the type holds.
    pub expected: usize,
}

impl<const N: usize> FixedOctetString<N> {
    /// The string of these octets.
    pub fn new(value: [u8; N]) -> FixedOctetString<N>
        ensures { result ≡ value.entry }
    {
        FixedOctetString { octets: value }
    }

    /// The number of octets, which is `N`.
    pub fn len(&self) -> usize
        ensures count { result ≡ N }
        ensures value { result ≡ length self.now }
    {
        self.octets[..].len()
    }

    /// The octets, borrowed.
    pub fn as_slice(&self) -> &[u8]
        ensures { result.now ≡ self.now }
    {
        self.octets.as_slice()
    }

    /// The octets.
    pub fn into_array(self) -> [u8; N]
        ensures { result ≡ self.entry }
    {
        self.octets
    }

    /// Sets the octet at `index`, counted from 0.
    pub fn set(&mut self, index: usize, octet: u8)
        requires { index < N }
        ensures { self.new ≡ slice_set self.old index octet }
    {
        self.octets[index] = octet;
    }

    /// Replaces all octets.
    pub fn copy_from_slice(&mut self, octets: &[u8])
        requires { length octets.now ≡ N }
        ensures { self.new ≡ octets.now }
    {
        self.octets.copy_from_slice(octets);
    }

    /// A copy of the octets.
    ///
    /// # Errors
    ///
    /// Out of memory.
    pub fn to_vec(&self, alloc: Global) -> Result<Vec<u8>, AllocError>
        ensures { IfOk result (λ v. v.items ≡ self.now) }
    {
        Vec::from_slice(alloc, self.octets.as_slice())
    }
}

/// Allocates nothing and cannot fail.
impl<const N: usize> Clone for FixedOctetString<N> {
    ghost is_clone = { λ s copy. copy ≡ s };

    ghost is_infallible = { λ _. ⊤ };

    fn clone(&self) -> Result<FixedOctetString<N>, AllocError> {
        Ok(FixedOctetString {
            octets: self.octets,
        })
    }
}

impl<const N: usize> Default for FixedOctetString<N> {
    ghost is_default = { λ s. s ≡ replicate N 0 };

    fn default() -> FixedOctetString<N> {
        FixedOctetString { octets: [0; N] }
    }
}

impl<const N: usize> From<[u8; N]> for FixedOctetString<N> {
    ghost from_gives = { λ octets s. s ≡ octets };

    fn from(octets: [u8; N]) -> FixedOctetString<N> {
        FixedOctetString { octets }
    }
}

impl<const N: usize> From<FixedOctetString<N>> for [u8; N] {
    ghost from_gives = { λ s octets. octets ≡ s };

    fn from(value: FixedOctetString<N>) -> [u8; N] {
        value.octets
    }
}

impl<const N: usize> TryFrom<&[u8]> for FixedOctetString<N> {
    type Error = WrongLength;

    ghost try_from_gives = { λ octets r. MatchResult r (λ s. (s ≡ octets.now) × (length octets.now ≡ N))
        (λ e. (length octets.now ≢ N) × (e.actual ≡ length octets.now) × (e.expected ≡ N)) };

    fn try_from(octets: &[u8]) -> Result<FixedOctetString<N>, WrongLength> {
        match <[u8; N]>::try_from(octets) {
            Ok(octets) => Ok(FixedOctetString { octets }),
            Err(_) => Err(WrongLength {
                actual: octets.len(),
                expected: N,
            }),
        }
    }
}

/// If the length is wrong, the error is the vector, unchanged.
impl<const N: usize> TryFrom<Vec<u8>> for FixedOctetString<N> {
    type Error = Vec<u8>;

    ghost try_from_gives = { λ v r. MatchResult r (λ s. (s ≡ v.items) × (length v.items ≡ N))
        (λ w. (w.items ≡ v.items) × (length v.items ≢ N)) };

    fn try_from(value: Vec<u8>) -> Result<FixedOctetString<N>, Vec<u8>> {
        match FixedOctetString::try_from(value.as_slice()) {
            Ok(octets) => Ok(octets),
            Err(_) => Err(value),
        }
    }
}

impl<const N: usize> TryFrom<OctetString> for FixedOctetString<N> {
    type Error = WrongLength;

    ghost try_from_gives = { λ octets r. MatchResult r (λ s. (s ≡ octets) × (length octets ≡ N))
        (λ e. (length octets ≢ N) × (e.actual ≡ length octets) × (e.expected ≡ N)) };

    fn try_from(value: OctetString) -> Result<FixedOctetString<N>, WrongLength> {
        FixedOctetString::try_from(value.as_slice())
    }
}

impl<const N: usize> DerefSlice for FixedOctetString<N> {
    type Elem = u8;

    ghost deref_gives = { λ s octets. octets ≡ s };

    fn deref(&self) -> &[u8] {
        self.as_slice()
    }
}

impl<const N: usize> AsSlice<u8> for FixedOctetString<N> {
    ghost items = { λ s. s };

    fn as_slice(&self) -> &[u8] {
        FixedOctetString::as_slice(self)
    }
}

impl<const N: usize> PartialEq for FixedOctetString<N> {
    ghost eq = { pointwise nat_eq };

    ghost laws = { partial_equiv_from_equiv nat_list_eq_equiv };

    fn eq(&self, other: &Self) -> bool {
        self.as_slice() == other.as_slice()
    }
}

impl<const N: usize> Eq for FixedOctetString<N> {
    ghost laws = { nat_list_eq_equiv };
}

impl<const N: usize> PartialOrd for FixedOctetString<N> {
    ghost partial_cmp = { λ x y. Some (slice_cmp nat_cmp x y) };

    ghost laws = { texts_po };

    fn partial_cmp(&self, other: &Self) -> Option<Ordering> {
        Some(self.cmp(other))
    }
}

impl<const N: usize> Ord for FixedOctetString<N> {
    ghost cmp = { slice_cmp nat_cmp };

    ghost total = { nat_list_cmp_total };

    ghost matches_partial_cmp = { λ x y. refl };

    ghost matches_eq = { texts_ties };

    fn cmp(&self, other: &Self) -> Ordering {
        self.as_slice().cmp(other.as_slice())
    }
}

impl<const N: usize> Hash for FixedOctetString<N> {
    ghost hash_input = { fed.slice fed.u8 };

    ghost respects_eq = { Prim.search (hashing, rules) };

    fn hash<H: Hasher>(&self, state: &mut H) {
        self.as_slice().hash(state);
    }
}

/// When the mutable borrow ends, the string is what the slice then holds.
impl<const N: usize> DerefSliceMut for FixedOctetString<N> {
    fn deref_mut(&mut self) -> &mut [u8]
        ensures* writes_back { sem 𝓛 (Lends (the_row N.row) (Array octet 0) self.entry result (λ octets. octets)) }
        ensures value { result.now ≡ self.old }
        ensures len { length result.now ≡ N }
    {
        let octets = &mut self.octets;
        octets.as_mut_slice()
    }
}
