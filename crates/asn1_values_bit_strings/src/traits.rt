//! The traits of `std`, which compare and hash the bits.
ghost use Rattle.std.specs.Prelude.{◌≡◌, refl, Some, replicate, take, false};
ghost use mathlib.Core.Bool.{beq};
ghost use Rattle.std.specs.Ordering.{bool_cmp};
ghost use Rattle.std.specs.Cmp.{partial_equiv_from_equiv};
ghost use Rattle.std.specs.Cmp.Lexicographic.{pointwise, slice_cmp};
ghost use Rattle.asn1_model.specs.Numbers.{octet_bits};
ghost use Rattle.asn1_values_bits.specs.BitOrder.{bits_equiv, bits_po, bits_total, bits_ties, bits_fed, bits_fed_alike};

use crate::bit_string::BitString;
use crate::fixed_bit_string::FixedBitString;
use std::cmp::Ordering;
use std::fmt;
use std::hash::{Hash, Hasher};

impl PartialEq for BitString {
    ghost eq = { pointwise beq };

    ghost laws = { partial_equiv_from_equiv bits_equiv };

    fn eq(&self, other: &Self) -> bool {
        self.as_bitslice() == other.as_bitslice()
    }
}

impl Eq for BitString {
    ghost laws = { bits_equiv };
}

impl PartialOrd for BitString {
    ghost partial_cmp = { λ x y. Some (slice_cmp bool_cmp x y) };

    ghost laws = { bits_po };

    fn partial_cmp(&self, other: &Self) -> Option<Ordering> {
        Some(self.cmp(other))
    }
}

impl Ord for BitString {
    ghost cmp = { slice_cmp bool_cmp };

    ghost total = { bits_total };

    ghost matches_partial_cmp = { λ x y. refl };

    ghost matches_eq = { bits_ties };

    fn cmp(&self, other: &Self) -> Ordering {
        self.as_bitslice().cmp(&other.as_bitslice())
    }
}

impl Hash for BitString {
    ghost hash_input = { bits_fed };

    ghost respects_eq = { bits_fed_alike };

    fn hash<H: Hasher>(&self, state: &mut H) {
        self.as_bitslice().hash(state);
    }
}

impl fmt::Debug for BitString {
    fn fmt<W: fmt::Write>(&self, f: &mut fmt::Formatter<W>) -> fmt::Result {
        let bits = self.as_bitslice();
        write!(f, "{bits:?}")
    }
}

impl<const N: usize> Default for FixedBitString<N> {
    ghost is_default = { λ s. s ≡ replicate N false };

    fn default() -> Self {
        FixedBitString::new([0; N])
    }
}

impl<const N: usize> From<[u8; N]> for FixedBitString<N> {
    ghost from_gives = { λ octets s. s ≡ take N (octet_bits octets) };

    fn from(octets: [u8; N]) -> Self {
        FixedBitString::new(octets)
    }
}

impl<const N: usize> PartialEq for FixedBitString<N> {
    ghost eq = { pointwise beq };

    ghost laws = { partial_equiv_from_equiv bits_equiv };

    fn eq(&self, other: &Self) -> bool {
        self.as_bitslice() == other.as_bitslice()
    }
}

impl<const N: usize> Eq for FixedBitString<N> {
    ghost laws = { bits_equiv };
}

impl<const N: usize> PartialOrd for FixedBitString<N> {
    ghost partial_cmp = { λ x y. Some (slice_cmp bool_cmp x y) };

    ghost laws = { bits_po };

    fn partial_cmp(&self, other: &Self) -> Option<Ordering> {
        Some(self.cmp(other))
    }
}

impl<const N: usize> Ord for FixedBitString<N> {
    ghost cmp = { slice_cmp bool_cmp };

    ghost total = { bits_total };

    ghost matches_partial_cmp = { λ x y. refl };

    ghost matches_eq = { bits_ties };

    fn cmp(&self, other: &Self) -> Ordering {
        self.as_bitslice().cmp(&other.as_bitslice())
    }
}

impl<const N: usize> Hash for FixedBitString<N> {
    ghost hash_input = { bits_fed };

    ghost respects_eq = { bits_fed_alike };

    fn hash<H: Hasher>(&self, state: &mut H) {
        self.as_bitslice().hash(state);
    }
}

impl<const N: usize> fmt::Debug for FixedBitString<N> {
    fn fmt<W: fmt::Write>(&self, f: &mut fmt::Formatter<W>) -> fmt::Result {
        let bits = self.as_bitslice();
        write!(f, "{bits:?}")
    }
}
