//! An object identifier that owns its arcs.
ghost use Rattle.std.specs.Prelude.{◌≡◌, ◌↔◌, nat_eq, refl, Some, IsTrue, IsSome, IfSome, IfOk};
ghost use Rattle.std.specs.Cow.{cow_slice_items};
ghost use Rattle.std.specs.Ordering.{nat_cmp};
ghost use Rattle.std.specs.Hash as fed;
ghost use Rattle.std.specs.Cmp.Lexicographic.{pointwise, slice_cmp, nat_list_eq_equiv, nat_list_cmp_total};
ghost use Rattle.std.specs.Cmp.Lexicographic.{texts_ties, texts_po};
ghost use Rattle.std.specs.Cmp.{partial_equiv_from_equiv};
ghost use Rattle.std.specs.Cmp.Rules.{hashing};
ghost use Rattle.std.proofs.Common.{rules};
ghost use Rattle.asn1_values_identifiers.specs.Identifiers.{is_valid};
ghost use Rattle.asn1_values_identifiers.specs.Texts.{dotted_text};

use crate::Oid;
use crate::oid::are_valid;
use std::alloc::{AllocError, Global};
use std::borrow::CowSlice;
use std::cmp::Ordering;
use std::convert::AsSlice;
use std::fmt;
use std::hash::{Hash, Hasher};
use std::marker::Model;
use std::ops::DerefSlice;

/// An object identifier (X.680 clause 32) that owns its arcs, or borrows static ones. The first arc is at most 2; if
/// it is below 2, the second is at most 39 (X.660 A.2).
#[derive(Debug, Drop)]
pub struct ObjectIdentifier {
    arcs: CowSlice<'static, u32>,
}

impl Model for ObjectIdentifier {
    ghost use Rattle.std.specs.Prelude.{◌≡◌, List, ℕ, true};
    ghost use Rattle.std.specs.Cow.{cow_slice_items};
    ghost use Rattle.asn1_values_identifiers.specs.Identifiers.{is_valid};

    ghost Value = { List ℕ };

    ghost view = { λ o. cow_slice_items o.arcs };

    ghost invariant = { λ o. is_valid (cow_slice_items o.arcs) ≡ true };
}

impl ObjectIdentifier {
    /// The identifier of these arcs, if they are valid: there is at least one, the first is at most 2, and if it is
    /// below 2, the second is at most 39.
    pub fn new(arcs: CowSlice<'static, u32>) -> Option<ObjectIdentifier>
        ensures valid { IsSome result ↔ IsTrue (is_valid (cow_slice_items arcs.entry)) }
        ensures value { IfSome result (λ o. o ≡ cow_slice_items arcs.entry) }
    {
        if are_valid(arcs.as_slice()) {
            Some(ObjectIdentifier { arcs })
        } else {
            None
        }
    }

    /// The identifier of these arcs, which have to be valid.
    pub fn new_unchecked(arcs: CowSlice<'static, u32>) -> ObjectIdentifier
        requires { IsTrue (is_valid (cow_slice_items arcs)) }
        ensures { result ≡ cow_slice_items arcs.entry }
    {
        ObjectIdentifier { arcs }
    }

    /// A copy of a borrowed identifier.
    ///
    /// # Errors
    ///
    /// Out of memory.
    pub fn from_oid(alloc: Global, oid: &Oid<'_>) -> Result<ObjectIdentifier, AllocError>
        ensures { IfOk result (λ o. o ≡ oid.now) }
    {
        let arcs = Vec::from_slice(alloc, oid.as_slice())?;
        Ok(ObjectIdentifier {
            arcs: CowSlice::Owned(arcs),
        })
    }

    /// The identifier, borrowed.
    pub fn as_oid(&self) -> Oid<'_>
        ensures { result ≡ self.now }
    {
        Oid::new_unchecked(self.as_slice())
    }

    /// The arcs.
    pub fn as_slice(&self) -> &[u32]
        ensures value { result.now ≡ self.now }
        ensures valid { IsTrue (is_valid result.now) }
    {
        self.arcs.as_slice()
    }
}

impl Clone for ObjectIdentifier {
    ghost is_clone = { λ o copy. copy ≡ o };

    fn clone(&self) -> Result<ObjectIdentifier, AllocError> {
        let arcs = match &self.arcs {
            CowSlice::Borrowed(arcs) => CowSlice::Borrowed(*arcs),
            CowSlice::Owned(arcs) => CowSlice::Owned(Vec::from_slice(
                *arcs.allocator(),
                arcs.as_slice(),
            )?),
        };
        Ok(ObjectIdentifier { arcs })
    }
}

impl DerefSlice for ObjectIdentifier {
    type Elem = u32;

    ghost deref_gives = { λ o arcs. arcs ≡ o };

    fn deref(&self) -> &[u32] {
        self.as_slice()
    }
}

impl AsSlice<u32> for ObjectIdentifier {
    ghost items = { λ o. o };

    fn as_slice(&self) -> &[u32] {
        ObjectIdentifier::as_slice(self)
    }
}

impl PartialEq for ObjectIdentifier {
    ghost eq = { pointwise nat_eq };

    ghost laws = { partial_equiv_from_equiv nat_list_eq_equiv };

    fn eq(&self, other: &Self) -> bool {
        self.as_slice() == other.as_slice()
    }
}

impl Eq for ObjectIdentifier {
    ghost laws = { nat_list_eq_equiv };
}

impl PartialOrd for ObjectIdentifier {
    ghost partial_cmp = { λ x y. Some (slice_cmp nat_cmp x y) };

    ghost laws = { texts_po };

    fn partial_cmp(&self, other: &Self) -> Option<Ordering> {
        Some(self.cmp(other))
    }
}

impl Ord for ObjectIdentifier {
    ghost cmp = { slice_cmp nat_cmp };

    ghost total = { nat_list_cmp_total };

    ghost matches_partial_cmp = { λ x y. refl };

    ghost matches_eq = { texts_ties };

    fn cmp(&self, other: &Self) -> Ordering {
        self.as_slice().cmp(other.as_slice())
    }
}

impl Hash for ObjectIdentifier {
    ghost hash_input = { fed.slice fed.u32 };

    ghost respects_eq = { Prim.search (hashing, rules) };

    fn hash<H: Hasher>(&self, state: &mut H) {
        self.as_slice().hash(state);
    }
}

/// The arcs in decimal, separated by dots.
impl fmt::Display for ObjectIdentifier {
    ghost output = { λ arcs. Some (dotted_text arcs) };

    fn fmt<W: fmt::Write>(&self, f: &mut fmt::Formatter<W>) -> fmt::Result {
        self.as_oid().fmt(f)
    }
}
