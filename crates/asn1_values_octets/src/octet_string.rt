//! A string of any number of octets.
ghost use Rattle.std.specs.Prelude.{◌≡◌, ◌==◌, ◌^◌, ◌<◌, ◌≤◌, [], nat_eq, length, refl, Some, IsOk};
ghost use Rattle.std.specs.Prelude.{IsSome, IfSome, IfOk, IfErr, MatchResult, ◌↔◌};
ghost use Rattle.std.specs.Ordering.{nat_cmp};
ghost use Rattle.std.specs.Hash as fed;
ghost use Rattle.std.specs.Cmp.Lexicographic.{pointwise, slice_cmp, nat_list_eq_equiv, nat_list_cmp_total};
ghost use Rattle.std.specs.Cmp.Lexicographic.{texts_ties, texts_po};
ghost use Rattle.std.specs.Cmp.{partial_equiv_from_equiv};
ghost use Rattle.std.specs.Cmp.Rules.{hashing};
ghost use Rattle.std.proofs.Common.{rules};

use arrayvec::ArrayVec;
use bytes::Bytes;
use std::alloc::{AllocError, AllocFailed, Global};
use std::cmp::Ordering;
use std::convert::AsSlice;
use std::fmt;
use std::hash::{Hash, Hasher};
use std::marker::Model;
use std::ops::DerefSlice;

/// An OCTET STRING (X.680 clause 23). A copy of at most 32 octets is kept in the value itself and allocates nothing;
/// clones share more octets.
#[derive(Drop)]
pub struct OctetString {
    octets: Octets,
}

// The octets of a string: in the value itself, or shared with its clones.
#[derive(Drop)]
enum Octets {
    Few(ArrayVec<u8, 32>),
    Shared(Bytes),
}

impl Model for OctetString {
    ghost use Rattle.std.specs.Prelude.{List, ℕ};
    ghost use Rattle.asn1_values_octets.specs.Kept.{kept_octets};

    ghost Value = { List ℕ };

    ghost view = { λ s. kept_octets s.octets };
}

impl OctetString {
    /// The empty string. Allocates nothing.
    pub fn new() -> OctetString
        ensures { result ≡ [] }
    {
        OctetString::shared(Bytes::new())
    }

    /// A string of static octets. Allocates nothing.
    pub fn from_static(value: &'static [u8]) -> OctetString
        ensures { result ≡ value.now }
    {
        OctetString::shared(Bytes::from_static(value))
    }

    // The string of octets that may be shared.
    fn shared(octets: Bytes) -> OctetString
        ensures { result ≡ octets }
    {
        OctetString {
            octets: Octets::Shared(octets),
        }
    }

    /// A copy of at most 32 octets, which allocates nothing, or `None` if there are more.
    pub fn from_few(value: &[u8]) -> Option<OctetString>
        ensures value { IfSome result (λ s. s ≡ value.now) }
        ensures few { IsSome result ↔ (length value.now ≤ 32) }
    {
        let octets = ArrayVec::try_from(value).ok()?;
        Some(OctetString {
            octets: Octets::Few(octets),
        })
    }

    /// A copy of the octets.
    ///
    /// # Errors
    ///
    /// Out of memory, if there are more than 32.
    pub fn from_slice(alloc: Global, value: &[u8]) -> Result<OctetString, AllocError>
        ensures ok { IfOk result (λ s. s ≡ value.now) }
        ensures few { length value.now ≤ 32 → IsOk result }
    {
        match OctetString::from_few(value) {
            Some(string) => Ok(string),
            None => Ok(OctetString::shared(Bytes::copy_from_slice(alloc, value)?)),
        }
    }

    /// The string of an array's octets.
    pub fn from_array<const N: usize>(
        alloc: Global,
        value: [u8; N],
    ) -> Result<OctetString, AllocError>
        ensures { IfOk result (λ s. s ≡ value.entry) }
    {
        OctetString::from_slice(alloc, &value)
    }

    /// The string of the vector's octets, which are not copied.
    ///
    /// # Errors
    ///
    /// Out of memory, with the vector in the error.
    pub fn from_vec(value: Vec<u8>) -> Result<OctetString, AllocFailed<Vec<u8>>>
        ensures ok { IfOk result (λ s. s ≡ value.items) }
        ensures value_returned { IfErr result (λ e. e.value.items ≡ value.items) }
    {
        Ok(OctetString::shared(Bytes::from_vec(value)?))
    }

    /// The number of octets.
    pub fn len(&self) -> usize
        ensures value { result ≡ length self.now }
        ensures bound { result < 2 ^ 63 }
    {
        self.as_slice().len()
    }

    /// Whether it has no octets.
    pub fn is_empty(&self) -> bool
        ensures { result ≡ (length self.now == 0) }
    {
        self.as_slice().is_empty()
    }

    /// The octets, borrowed.
    pub fn as_slice(&self) -> &[u8]
        ensures { result.now ≡ self.now }
    {
        match &self.octets {
            Octets::Few(octets) => octets.as_slice(),
            Octets::Shared(octets) => octets.as_slice(),
        }
    }

    /// A copy of the octets.
    ///
    /// # Errors
    ///
    /// Out of memory.
    pub fn to_vec(&self, alloc: Global) -> Result<Vec<u8>, AllocError>
        ensures { IfOk result (λ v. v.items ≡ self.now) }
    {
        Vec::from_slice(alloc, self.as_slice())
    }

    /// The octets as a vector. They are copied only if they are in the value itself, or a clone shares them.
    ///
    /// # Errors
    ///
    /// Out of memory.
    pub fn into_vec(self, alloc: Global) -> Result<Vec<u8>, AllocError>
        ensures { IfOk result (λ v. v.items ≡ self) }
    {
        match self.octets {
            Octets::Few(octets) => Vec::from_slice(alloc, octets.as_slice()),
            Octets::Shared(octets) => owned(alloc, octets),
        }
    }

    /// The octets as `Bytes`. They are copied only if they are in the value itself.
    ///
    /// # Errors
    ///
    /// Out of memory.
    pub fn into_bytes(self, alloc: Global) -> Result<Bytes, AllocError>
        ensures { IfOk result (λ octets. octets ≡ self) }
    {
        match self.octets {
            Octets::Few(octets) => Bytes::copy_from_slice(alloc, octets.as_slice()),
            Octets::Shared(octets) => Ok(octets),
        }
    }
}

// The octets as a vector. They are copied only if a clone shares them.
fn owned(alloc: Global, octets: Bytes) -> Result<Vec<u8>, AllocError>
    ensures { IfOk result (λ v. v.items ≡ octets) }
{
    match octets.try_into_mut() {
        Ok(unique) => Ok(unique.into_vec()?),
        Err(shared) => Vec::from_slice(alloc, shared.as_slice()),
    }
}

impl Clone for OctetString {
    ghost is_clone = { λ s copy. copy ≡ s };

    fn clone(&self) -> Result<OctetString, AllocError> {
        let octets = match &self.octets {
            Octets::Few(octets) => Octets::Few(octets.clone()?),
            Octets::Shared(octets) => Octets::Shared(octets.clone()?),
        };
        Ok(OctetString { octets })
    }
}

impl Default for OctetString {
    ghost is_default = { λ s. s ≡ [] };

    fn default() -> OctetString {
        OctetString::new()
    }
}

impl From<Bytes> for OctetString {
    ghost from_gives = { λ octets s. s ≡ octets };

    fn from(octets: Bytes) -> OctetString {
        OctetString::shared(octets)
    }
}

impl TryFrom<&Bytes> for OctetString {
    type Error = AllocError;

    ghost try_from_gives = { λ octets r. IfOk r (λ s. s ≡ octets.now) };

    fn try_from(octets: &Bytes) -> Result<OctetString, AllocError> {
        Ok(OctetString::shared(octets.clone()?))
    }
}

impl fmt::Debug for OctetString {
    fn fmt<W: fmt::Write>(&self, f: &mut fmt::Formatter<W>) -> fmt::Result {
        f.debug_tuple("OctetString")
            .field(&self.as_slice())
            .finish()
    }
}

impl TryFrom<Vec<u8>> for OctetString {
    type Error = AllocFailed<Vec<u8>>;

    ghost try_from_gives = { λ v r. MatchResult r (λ s. s ≡ v.items) (λ e. e.value.items ≡ v.items) };

    fn try_from(value: Vec<u8>) -> Result<OctetString, AllocFailed<Vec<u8>>> {
        OctetString::from_vec(value)
    }
}

impl DerefSlice for OctetString {
    type Elem = u8;

    ghost deref_gives = { λ s octets. octets ≡ s };

    fn deref(&self) -> &[u8] {
        self.as_slice()
    }
}

impl AsSlice<u8> for OctetString {
    ghost items = { λ s. s };

    fn as_slice(&self) -> &[u8] {
        OctetString::as_slice(self)
    }
}

impl PartialEq for OctetString {
    ghost eq = { pointwise nat_eq };

    ghost laws = { partial_equiv_from_equiv nat_list_eq_equiv };

    fn eq(&self, other: &Self) -> bool {
        self.as_slice() == other.as_slice()
    }
}

impl Eq for OctetString {
    ghost laws = { nat_list_eq_equiv };
}

impl PartialOrd for OctetString {
    ghost partial_cmp = { λ x y. Some (slice_cmp nat_cmp x y) };

    ghost laws = { texts_po };

    fn partial_cmp(&self, other: &Self) -> Option<Ordering> {
        Some(self.cmp(other))
    }
}

impl Ord for OctetString {
    ghost cmp = { slice_cmp nat_cmp };

    ghost total = { nat_list_cmp_total };

    ghost matches_partial_cmp = { λ x y. refl };

    ghost matches_eq = { texts_ties };

    fn cmp(&self, other: &Self) -> Ordering {
        self.as_slice().cmp(other.as_slice())
    }
}

impl Hash for OctetString {
    ghost hash_input = { fed.slice fed.u8 };

    ghost respects_eq = { Prim.search (hashing, rules) };

    fn hash<H: Hasher>(&self, state: &mut H) {
        self.as_slice().hash(state);
    }
}
