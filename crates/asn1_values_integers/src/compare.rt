//! Equality, order and hash of integers.
ghost use Rattle.std.specs.Prelude.{◌≡◌, Some, pos};
ghost use Rattle.std.proofs.Common.{rules};
ghost use Rattle.std.specs.Cmp.{partial_order_from_own_ties};
ghost use Rattle.std.specs.Cmp.Rules.{comparing};
ghost use Rattle.std.specs.Ordering.{int_cmp, int_eq};
ghost use Rattle.asn1_values_natives.specs.Octets.{signed_number, signed_octets_of};
ghost use Rattle.std.specs.Hash as fed;
ghost use Rattle.asn1_values_integers.specs.Hashes.{same_writes};

use crate::integer::Integer;
use asn1_values_natives::octets::has_sign;
use std::cmp::Ordering;
use std::hash::{Hash, Hasher};

// The order of two numbers, each in its fewest octets.
fn compare_octets(left: &[u8], right: &[u8]) -> Ordering
    requires left { signed_octets_of (signed_number left.now) ≡ left.now }
    requires right { signed_octets_of (signed_number right.now) ≡ right.now }
    ensures { result ≡ int_cmp (signed_number left.now) (signed_number right.now) }
{
    match (has_sign(left), has_sign(right)) {
        (false, true) => Ordering::Greater,
        (true, false) => Ordering::Less,
        (false, false) => left.len().cmp(&right.len()).then(left.cmp(&right)),
        (true, true) => right.len().cmp(&left.len()).then(left.cmp(&right)),
    }
}

impl PartialEq for Integer {
    ghost eq = { int_eq };

    ghost laws = { Prim.search (comparing, rules) };

    fn eq(&self, other: &Integer) -> bool {
        self.cmp(other) == Ordering::Equal
    }
}

impl Eq for Integer {
    ghost laws = { Prim.search (comparing, rules) };
}

impl PartialOrd for Integer {
    ghost partial_cmp = { λ x y. Some (int_cmp x y) };

    ghost laws = { Prim.search (comparing, rules) };

    fn partial_cmp(&self, other: &Integer) -> Option<Ordering> {
        Some(self.cmp(other))
    }
}

impl Ord for Integer {
    ghost cmp = { int_cmp };

    ghost total = { Prim.search (comparing, rules) };

    ghost matches_partial_cmp = { Prim.search (comparing, rules) };

    ghost matches_eq = { Prim.search (comparing, rules) };

    fn cmp(&self, other: &Integer) -> Ordering {
        match (self.to_i128(), other.to_i128()) {
            (Some(left), Some(right)) => left.cmp(&right),
            _ => {
                let left = self.to_signed_bytes_be();
                let right = other.to_signed_bytes_be();
                compare_octets(left.as_slice(), right.as_slice())
            }
        }
    }
}

impl Hash for Integer {
    ghost hash_input = { λ z. fed.slice fed.u8 (signed_octets_of z) };

    ghost respects_eq = { same_writes };

    fn hash<H: Hasher>(&self, state: &mut H) {
        let octets = self.to_signed_bytes_be();
        octets.as_slice().hash(state);
    }
}

impl Default for Integer {
    ghost is_default = { λ z. z ≡ pos 0 };

    fn default() -> Integer {
        Integer::ZERO
    }
}
