//! Numbers between two bounds.
ghost use Rattle.std.specs.Prelude.{◌≡◌, ◌-ℤ◌, pos, Some, None, IfSome};
ghost use Rattle.asn1_model.specs.Numbers.{width};
ghost use Rattle.asn1_schema_constraints.specs.Bounds.{lower, upper};
ghost use Rattle.asn1_schema_constraints.specs.Widths.{has_sign, fixed_width};

use asn1_schema_constraints::Bounded;
use asn1_values_natives::octets::bit_count;

/// The form of an INTEGER between two bounds, without an extension marker, where 64 bits hold their difference and at
/// most eight octets hold each number.
#[derive(Clone, Copy, Debug)]
pub struct NumberForm {
    low: i128,
    high: i128,
    span: u64,
    bits: u8,
    octets: u8,
    is_signed: bool,
    pub ghost between: { pos span ≡ high -ℤ low },
    pub ghost packed: { bits ≡ width span },
    pub ghost fixed: { fixed_width (Some low) (Some high) ≡ Some octets },
    pub ghost signed: { has_sign (Some low) ≡ is_signed },
}

impl NumberForm {
    /// The form under these bounds, if they have one.
    pub fn of(bounds: Bounded<i128>) -> Option<NumberForm>
        ensures low { IfSome result (λ form. lower bounds ≡ Some form.low) }
        ensures high { IfSome result (λ form. upper bounds ≡ Some form.high) }
    {
        let (Some(low), Some(high)) = (bounds.as_start().copied(), bounds.as_end().copied()) else {
            return None;
        };
        let span = high.abs_diff(low);
        if high < low || span >= 1 << 64 {
            return None;
        }
        let (is_signed, octets) = bounds.range_in_bytes();
        Some(NumberForm {
            low,
            high,
            span: span as u64,
            bits: bit_count(span) as u8,
            octets: octets?,
            is_signed,
        })
    }

    /// The least number.
    #[inline(always)]
    pub fn low(&self) -> i128
        ensures { result ≡ self.now.low }
    {
        self.low
    }

    /// The greatest number.
    #[inline(always)]
    pub fn high(&self) -> i128
        ensures { result ≡ self.now.high }
    {
        self.high
    }

    /// The greatest number minus the least.
    #[inline(always)]
    pub fn span(&self) -> u64
        ensures { pos result ≡ self.now.high -ℤ self.now.low }
    {
        self.span
    }

    /// The number of bits of an offset from the least number (X.691 11.5.7.1).
    #[inline(always)]
    pub fn bits(&self) -> u8
        ensures { result ≡ width self.now.span }
    {
        self.bits
    }

    /// The fixed number of octets: 1, 2, 4 or 8 (X.696 10).
    #[inline(always)]
    pub fn octets(&self) -> u8
        ensures { Some result ≡ fixed_width (Some self.now.low) (Some self.now.high) }
    {
        self.octets
    }

    /// Whether these octets are of two's complement (X.696 10).
    #[inline(always)]
    pub fn is_signed(&self) -> bool
        ensures { result ≡ has_sign (Some self.now.low) }
    {
        self.is_signed
    }
}
