//! The arcs of an object identifier, borrowed.
ghost use Rattle.std.specs.Prelude.{⊤, ◌≡◌, ◌↔◌, length, nat_eq, refl, Some, IsTrue, IsSome, IfSome, IfOk};
ghost use Rattle.std.specs.Ordering.{nat_cmp};
ghost use Rattle.std.specs.Hash as fed;
ghost use Rattle.std.specs.Cmp.Lexicographic.{pointwise, slice_cmp, nat_list_eq_equiv, nat_list_cmp_total};
ghost use Rattle.std.specs.Cmp.Lexicographic.{texts_ties, texts_po};
ghost use Rattle.std.specs.Cmp.{partial_equiv_from_equiv};
ghost use Rattle.std.specs.Cmp.Rules.{hashing};
ghost use Rattle.std.proofs.Common.{rules};
ghost use Rattle.asn1_values_identifiers.specs.Identifiers.{is_valid};
ghost use Rattle.asn1_values_identifiers.specs.Texts.{dotted_text};

use std::alloc::AllocError;
use std::cmp::Ordering;
use std::convert::AsSlice;
use std::fmt;
use std::hash::{Hash, Hasher};
use std::marker::Model;
use std::ops::DerefSlice;

/// An object identifier (X.680 clause 32) that borrows its arcs. The first arc is at most 2; if it is below 2, the
/// second is at most 39 (X.660 A.2).
#[derive(Debug, Drop)]
pub struct Oid<'a> {
    arcs: &'a [u32],
}

impl<'a> Model for Oid<'a> {
    ghost use Rattle.std.specs.Prelude.{◌≡◌, List, ℕ, true};
    ghost use Rattle.asn1_values_identifiers.specs.Identifiers.{is_valid};

    ghost Value = { List ℕ };

    ghost view = { λ o. o.arcs.now };

    ghost invariant = { λ o. is_valid o.arcs.now ≡ true };
}

/// Whether arcs form a valid object identifier (X.660 A.2).
pub fn are_valid(arcs: &[u32]) -> bool
    ensures { result ≡ is_valid arcs.now }
{
    match arcs {
        [] => false,
        [first] => *first <= 2,
        [first, second, ..] => *first <= 2 && (*first == 2 || *second < 40),
    }
}

impl<'a> Oid<'a> {
    /// The identifier of these arcs, if they are valid: there is at least one, the first is at most 2, and if it is
    /// below 2, the second is at most 39.
    pub fn new(arcs: &'a [u32]) -> Option<Oid<'a>>
        ensures valid { IsSome result ↔ IsTrue (is_valid arcs.now) }
        ensures value { IfSome result (λ o. o ≡ arcs.now) }
    {
        if are_valid(arcs) {
            Some(Oid { arcs })
        } else {
            None
        }
    }

    /// The identifier of these arcs, which have to be valid.
    pub fn new_unchecked(arcs: &'a [u32]) -> Oid<'a>
        requires { IsTrue (is_valid arcs.now) }
        ensures { result ≡ arcs.now }
    {
        Oid { arcs }
    }

    /// The arcs.
    pub fn as_slice(&self) -> &'a [u32]
        ensures value { result.now ≡ self.now }
        ensures valid { IsTrue (is_valid result.now) }
    {
        self.arcs
    }

    /// The number of arcs, at least one.
    pub fn len(&self) -> usize
        ensures { result ≡ length self.now }
    {
        self.arcs.len()
    }
}

impl<'a> Clone for Oid<'a> {
    ghost is_clone = { λ o copy. copy ≡ o };

    ghost is_infallible = { λ _. ⊤ };

    fn clone(&self) -> Result<Oid<'a>, AllocError> {
        Ok(Oid { arcs: self.arcs })
    }
}

impl DerefSlice for Oid<'_> {
    type Elem = u32;

    ghost deref_gives = { λ o arcs. arcs ≡ o };

    fn deref(&self) -> &[u32] {
        self.as_slice()
    }
}

impl AsSlice<u32> for Oid<'_> {
    ghost items = { λ o. o };

    fn as_slice(&self) -> &[u32] {
        Oid::as_slice(self)
    }
}

impl PartialEq for Oid<'_> {
    ghost eq = { pointwise nat_eq };

    ghost laws = { partial_equiv_from_equiv nat_list_eq_equiv };

    fn eq(&self, other: &Self) -> bool {
        self.as_slice() == other.as_slice()
    }
}

impl Eq for Oid<'_> {
    ghost laws = { nat_list_eq_equiv };
}

impl PartialOrd for Oid<'_> {
    ghost partial_cmp = { λ x y. Some (slice_cmp nat_cmp x y) };

    ghost laws = { texts_po };

    fn partial_cmp(&self, other: &Self) -> Option<Ordering> {
        Some(self.cmp(other))
    }
}

impl Ord for Oid<'_> {
    ghost cmp = { slice_cmp nat_cmp };

    ghost total = { nat_list_cmp_total };

    ghost matches_partial_cmp = { λ x y. refl };

    ghost matches_eq = { texts_ties };

    fn cmp(&self, other: &Self) -> Ordering {
        self.as_slice().cmp(other.as_slice())
    }
}

impl Hash for Oid<'_> {
    ghost hash_input = { fed.slice fed.u32 };

    ghost respects_eq = { Prim.search (hashing, rules) };

    fn hash<H: Hasher>(&self, state: &mut H) {
        self.as_slice().hash(state);
    }
}

/// The arcs in decimal, separated by dots.
impl fmt::Display for Oid<'_> {
    ghost output = { λ arcs. Some (dotted_text arcs) };

    fn fmt<W: fmt::Write>(&self, f: &mut fmt::Formatter<W>) -> fmt::Result {
        if let [first, further @ ..] = self.arcs {
            write!(f, "{first}")?;
            for arc in further {
                write!(f, ".{arc}")?;
            }
        }
        Ok(())
    }
}
