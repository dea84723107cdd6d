//! How many octets hold the numbers within bounds (X.696 10).
ghost use Rattle.std.specs.Prelude.{◌≡◌, ℤ, Some, cond, pos};
ghost use Rattle.asn1_model.specs.Numbers.{octet_width, signed_octets};
ghost use Rattle.asn1_model.specs.Oer.{fixed_octets, bounded, natural_form, signed_form};
ghost use Rattle.asn1_values_natives.specs.Octets.{plain};
ghost use Rattle.asn1_schema_constraints.specs.Bounds.{lower, upper};
ghost use Rattle.asn1_schema_constraints.specs.Widths.{has_sign, fixed_width};

use crate::Bounded;

impl Bounded<i128> {
    /// The form of an INTEGER under these bounds (X.696 10): whether it is signed, as the lower bound is negative or
    /// missing, and its fixed number of octets, 1, 2, 4 or 8. The latter is `None` if a bound is missing, if 8 octets
    /// do not hold both bounds, or if the lower bound is not negative but the upper one is.
    #[inline(always)]
    pub fn range_in_bytes(&self) -> (bool, Option<u8>)
        ensures sign { result.0 ≡ has_sign (lower self.now) }
        ensures width { result.1 ≡ fixed_width (lower self.now) (upper self.now) }
        ensures form { (v : ℤ) → bounded (lower self.now) (upper self.now) v
            ≡ cond result.0 (signed_form result.1 v) (natural_form result.1 v) }
    {
        let (start, end) = (self.as_start().copied(), self.as_end().copied());
        (may_be_negative(start), octets_of_range(start, end))
    }
}

// Whether numbers from a lower bound on may be negative.
#[inline(always)]
fn may_be_negative(start: Option<i128>) -> bool
    ensures { result ≡ has_sign start }
{
    match start {
        Some(start) => start < 0,
        None => true,
    }
}

// The fixed number of octets for the numbers between two bounds.
#[inline(always)]
fn octets_of_range(start: Option<i128>, end: Option<i128>) -> Option<u8>
    ensures { result ≡ fixed_width start end }
{
    match (start, end) {
        (Some(low), Some(high)) => octets_between(low, high),
        _ => None,
    }
}

// The fixed number of octets for the numbers between two bounds.
#[inline(always)]
fn octets_between(low: i128, high: i128) -> Option<u8>
    ensures { result ≡ fixed_width (Some low) (Some high) }
{
    if low < 0 {
        return signed_width(plain_number(low).max(plain_number(high)));
    }
    if high < 0 {
        return None;
    }
    natural_width(high as u128)
}

// A number that is not negative, or -1 minus a negative number.
#[inline(always)]
fn plain_number(number: i128) -> u128
    ensures { result ≡ plain number }
{
    if number < 0 {
        (-1 - number) as u128
    } else {
        number as u128
    }
}

// The least of 1, 2, 4 and 8 octets that hold an unsigned number.
#[inline(always)]
fn natural_width(number: u128) -> Option<u8>
    ensures { result ≡ fixed_octets (octet_width number) }
{
    if number < 1 << 8 {
        return Some(1);
    }
    if number < 1 << 16 {
        return Some(2);
    }
    if number < 1 << 32 {
        return Some(4);
    }
    if number < 1 << 64 {
        return Some(8);
    }
    None
}

// The least of 1, 2, 4 and 8 octets that hold a number and -1 minus that number in two's complement.
#[inline(always)]
fn signed_width(number: u128) -> Option<u8>
    ensures { result ≡ fixed_octets (signed_octets (pos number)) }
{
    if number < 1 << 7 {
        return Some(1);
    }
    if number < 1 << 15 {
        return Some(2);
    }
    if number < 1 << 31 {
        return Some(4);
    }
    if number < 1 << 63 {
        return Some(8);
    }
    None
}
