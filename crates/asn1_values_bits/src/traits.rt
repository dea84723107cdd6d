//! The traits of `std` for buffers of bits, which compare and hash the bits.
ghost use Rattle.std.specs.Prelude.{◌≡◌, [], refl, Some, fold, flat_map};
ghost use mathlib.Core.Bool.{beq};
ghost use Rattle.std.specs.Ordering.{bool_cmp, on};
ghost use Rattle.std.specs.Cmp.{partial_equiv_from_equiv, on_equiv, on_po, on_total};
ghost use Rattle.std.specs.Cmp.Lexicographic.{pointwise, slice_cmp};
ghost use Rattle.asn1_values_bits.specs.BitOrder.{bits_equiv, bits_po, bits_total, bits_ties, bits_fed, bits_fed_alike};

use crate::bit_buffer::BitBuffer;
use std::cmp::Ordering;
use std::fmt;
use std::hash::{Hash, Hasher};

impl PartialEq for BitBuffer {
    ghost eq = { pointwise beq };

    ghost laws = { partial_equiv_from_equiv bits_equiv };

    fn eq(&self, other: &Self) -> bool {
        self.as_bitslice() == other.as_bitslice()
    }
}

impl Eq for BitBuffer {
    ghost laws = { bits_equiv };
}

impl PartialOrd for BitBuffer {
    ghost partial_cmp = { λ x y. Some (slice_cmp bool_cmp x y) };

    ghost laws = { bits_po };

    fn partial_cmp(&self, other: &Self) -> Option<Ordering> {
        Some(self.cmp(other))
    }
}

impl Ord for BitBuffer {
    ghost cmp = { slice_cmp bool_cmp };

    ghost total = { bits_total };

    ghost matches_partial_cmp = { λ x y. refl };

    ghost matches_eq = { bits_ties };

    fn cmp(&self, other: &Self) -> Ordering {
        self.as_bitslice().cmp(&other.as_bitslice())
    }
}

impl Hash for BitBuffer {
    ghost hash_input = { bits_fed };

    ghost respects_eq = { bits_fed_alike };

    fn hash<H: Hasher>(&self, state: &mut H) {
        self.as_bitslice().hash(state);
    }
}

impl fmt::Debug for BitBuffer {
    fn fmt<W: fmt::Write>(&self, f: &mut fmt::Formatter<W>) -> fmt::Result {
        let bits = self.as_bitslice();
        write!(f, "{bits:?}")
    }
}
