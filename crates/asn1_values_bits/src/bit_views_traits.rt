//! The traits of `std` for views of bits, which compare and hash the bits.
ghost use Rattle.std.specs.Prelude.{◌≡◌, [], refl, Some, fold, flat_map};
ghost use mathlib.Core.Bool.{beq};
ghost use Rattle.std.specs.Ordering.{bool_cmp, on};
ghost use Rattle.std.specs.Cmp.{partial_equiv_from_equiv, on_equiv, on_po, on_total};
ghost use Rattle.std.specs.Cmp.Lexicographic.{pointwise, slice_cmp};
ghost use Rattle.asn1_values_bits.specs.BitStr.{bits_of};
ghost use Rattle.asn1_values_bits.specs.BitOrder.{bits_equiv, bits_po, bits_total, bits_ties, bits_fed, bits_fed_alike};

use crate::bit_str::BitStr;
use crate::order::compare;
use std::cmp::Ordering;
use std::fmt;
use std::hash::{Hash, Hasher};

impl Default for BitStr<'_> {
    ghost is_default = { λ s. bits_of s ≡ [] };

    fn default() -> Self {
        BitStr::new()
    }
}

impl PartialEq for BitStr<'_> {
    ghost eq = { on bits_of (pointwise beq) };

    ghost laws = { partial_equiv_from_equiv (on_equiv bits_of bits_equiv) };

    fn eq(&self, other: &Self) -> bool {
        compare(*self, *other).is_eq()
    }
}

impl Eq for BitStr<'_> {
    ghost laws = { on_equiv bits_of bits_equiv };
}

impl PartialOrd for BitStr<'_> {
    ghost partial_cmp = { λ x y. Some (slice_cmp bool_cmp (bits_of x) (bits_of y)) };

    ghost laws = { on_po bits_of bits_po };

    fn partial_cmp(&self, other: &Self) -> Option<Ordering> {
        Some(compare(*self, *other))
    }
}

impl Ord for BitStr<'_> {
    ghost cmp = { on bits_of (slice_cmp bool_cmp) };

    ghost total = { on_total bits_of bits_total };

    ghost matches_partial_cmp = { λ x y. refl };

    ghost matches_eq = { λ x y. bits_ties (bits_of x) (bits_of y) };

    fn cmp(&self, other: &Self) -> Ordering {
        compare(*self, *other)
    }
}

impl Hash for BitStr<'_> {
    ghost hash_input = { λ s. bits_fed (bits_of s) };

    ghost respects_eq = { λ x y. bits_fed_alike (bits_of x) (bits_of y) };

    fn hash<H: Hasher>(&self, state: &mut H) {
        state.write_usize(self.len());
        let mut rest = *self;
        while rest.len() > 0 {
            let (octet, behind) = rest.split_octet();
            state.write_u8(octet);
            rest = behind;
        }
    }
}

impl fmt::Debug for BitStr<'_> {
    fn fmt<W: fmt::Write>(&self, f: &mut fmt::Formatter<W>) -> fmt::Result {
        for index in 0..self.len() {
            let bit = self.get(index) == Some(true);
            f.write_str(if bit { "1" } else { "0" })?;
        }
        Ok(())
    }
}
