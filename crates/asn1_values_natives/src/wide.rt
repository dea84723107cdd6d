//! A common representation of the native integer types.
ghost use Rattle.std.specs.Prelude.{◌≡◌, ℕ, ◌+◌, ◌^◌, ◌<◌, ◌≤◌, ℤ, pos, nat_lt, is_some, IfSome, length, ◌≤ℤ◌, true};
ghost use Rattle.asn1_model.specs.Numbers.{is_within};
ghost use Rattle.asn1_values_natives.specs.Ranges.{natural_range, whole_range};
ghost use Rattle.asn1_values_natives.specs.Octets.{signed_number, unsigned_number, signed_by, plain};
ghost use Rattle.asn1_values_natives.specs.Octets.{signed_octets_of, unsigned_octets_of};

use crate::octets::{has_sign, magnitude, without_leading};

/// An integer from -2^128 to 2^128 - 1: `magnitude`, or -1 - `magnitude` if it is negative.
#[derive(Clone, Copy, Debug, PartialEq, Eq)]
pub struct Wide {
    /// Whether the number is negative.
    pub negative: bool,
    /// The number, or -1 minus the number if it is negative.
    pub magnitude: u128,
}

impl Wide {
    /// The number of an `i128`.
    pub fn from_i128(value: i128) -> Wide
        ensures { signed_by result.negative result.magnitude ≡ value }
    {
        if value < 0 {
            Wide {
                negative: true,
                magnitude: (-1 - value) as u128,
            }
        } else {
            Wide {
                negative: false,
                magnitude: value as u128,
            }
        }
    }

    /// The number that octets encode in two's complement (X.690 8.3.3), if it is within the range; zero for no octets.
    pub fn from_signed_octets(octets: &[u8]) -> Option<Wide>
        ensures value { IfSome result (λ w. signed_by w.negative w.magnitude ≡ signed_number octets.now) }
        ensures fits { is_some result ≡ nat_lt (plain (signed_number octets.now)) (2 ^ 128) }
    {
        let negative = has_sign(octets);
        let digits = without_leading(negative, octets);
        if digits.len() > 16 {
            return None;
        }
        Some(Wide {
            negative,
            magnitude: magnitude(negative, digits),
        })
    }

    /// The number that unsigned octets encode, the most significant first, if it is within the range.
    pub fn from_unsigned_octets(octets: &[u8]) -> Option<Wide>
        ensures value { IfSome result (λ w. signed_by w.negative w.magnitude ≡ pos (unsigned_number octets.now)) }
        ensures fits { is_some result ≡ nat_lt (unsigned_number octets.now) (2 ^ 128) }
    {
        let digits = without_leading(false, octets);
        if digits.len() > 16 {
            return None;
        }
        Some(Wide {
            negative: false,
            magnitude: magnitude(false, digits),
        })
    }

    /// The number `value`, which is at most `greatest`.
    pub fn from_natural(value: u128, greatest: u128) -> Wide
        requires { value ≤ greatest }
        ensures value { signed_by result.negative result.magnitude ≡ pos value }
        ensures held { is_within (natural_range greatest) (pos value) ≡ true }
    {
        Wide {
            negative: false,
            magnitude: value,
        }
    }

    /// The number `value`, which is from -`greatest` - 1 to `greatest`.
    pub fn from_whole(value: i128, greatest: i128) -> Wide
        requires { plain value ≤ plain greatest }
        ensures value { signed_by result.negative result.magnitude ≡ value }
        ensures held { is_within (whole_range (plain greatest)) value ≡ true }
    {
        Wide::from_i128(value)
    }

    /// The number, if it is from 0 to `greatest`.
    pub fn to_natural(self, greatest: u128) -> Option<u128>
        ensures value { IfSome result (λ n. pos n ≡ signed_by self.negative self.magnitude) }
        ensures bound { IfSome result (λ n. n ≤ greatest) }
        ensures fits { is_some result ≡ is_within (natural_range greatest) (signed_by self.negative self.magnitude) }
    {
        if self.negative || self.magnitude > greatest {
            return None;
        }
        Some(self.magnitude)
    }

    /// The number, if it is from -`greatest` - 1 to `greatest`.
    pub fn to_whole(self, greatest: i128) -> Option<i128>
        requires { pos 0 ≤ℤ greatest }
        ensures value { IfSome result (λ z. z ≡ signed_by self.negative self.magnitude) }
        ensures bound { IfSome result (λ z. plain z ≤ plain greatest) }
        ensures fits { is_some result ≡ is_within (whole_range (plain greatest))
            (signed_by self.negative self.magnitude) }
    {
        if self.magnitude > greatest as u128 {
            return None;
        }
        let magnitude = self.magnitude as i128;
        Some(if self.negative {
            -1 - magnitude
        } else {
            magnitude
        })
    }
}
