//! Lexicographic order of lists of bits: the first bit in which they differ decides, and a prefix is less than the
//! whole.
ghost use Rattle.std.specs.Prelude.{◌≡◌};
ghost use Rattle.std.specs.Ordering.{bool_cmp};
ghost use Rattle.std.specs.Cmp.Lexicographic.{slice_cmp};
ghost use Rattle.asn1_values_bits.specs.BitStr.{bits_of};

use crate::bit_str::BitStr;
use std::cmp::Ordering;

pub(crate) fn compare(a: BitStr<'_>, b: BitStr<'_>) -> Ordering
    ensures { result ≡ slice_cmp bool_cmp (bits_of a.entry) (bits_of b.entry) }
{
    let mut left = a;
    let mut right = b;
    while left.len() > 0 && right.len() > 0 {
        let few = left.len().min(right.len()).min(64);
        let x = left.first_bits(few as u32);
        let y = right.first_bits(few as u32);
        if x < y {
            return Ordering::Less;
        }
        if y < x {
            return Ordering::Greater;
        }
        left = left.split_at(few).1;
        right = right.split_at(few).1;
    }
    if right.len() > 0 {
        return Ordering::Less;
    }
    if left.len() > 0 {
        return Ordering::Greater;
    }
    Ordering::Equal
}
