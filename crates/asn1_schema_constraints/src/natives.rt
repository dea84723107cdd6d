//! Bounds of every native integer type.
#![tactic(auto, using(crate::proofs::Orders::tests_of_order, std::proofs::lemmas::Grind::common_steps))]

ghost use Rattle.std.specs.Prelude.{◌≡◌, pos, ◌+ℤ◌, ◌-ℤ◌, ◌-◌, ◌^◌, ◌&&◌, true, Some, unwrap_or, IfSome, is_some};
ghost use Rattle.std.specs.Option.{option_map};
ghost use Rattle.asn1_model.specs.Numbers.{is_at_most, is_within};
ghost use Rattle.asn1_values_natives.specs.Octets.{signed_by};
ghost use Rattle.asn1_values_natives.specs.Ranges.{range_of, whole_range};
ghost use Rattle.asn1_schema_constraints.specs.Bounds.{lower, upper, later, earlier, between, common, are_admitting};
ghost use Rattle.asn1_schema_constraints.specs.Bounds.{at_most_by, range_by, admits_by, counted_within};
ghost use Rattle.asn1_schema_constraints.specs.Bounds.{CanOffsetBy, IsEffectiveBy};

use crate::{Bounded, Effective};
use asn1_values_natives::{NativeInteger, Wide};

/// Operations on the bounds of a native integer type. Those of `i128` and of `usize` have inherent methods of these
/// names.
pub trait NativeBounds<T: NativeInteger> {
    ghost use Rattle.asn1_schema_constraints.specs.declared.bounds.Bounded.{Bounded};

    // The bounds.
    ghost bounds: { Self → Bounded T };

    /// The lower bound, or 0 if there is none.
    fn minimum(&self) -> T
        ensures { result ≡ unwrap_or (lower (bounds self.now)) T.ZERO };

    /// The upper bound minus the lower bound, plus one; `None` exactly if one is missing or the type does not hold the
    /// result.
    fn range(&self) -> Option<T>
        ensures { option_map T.number result ≡ counted_within (range_of T.SIGNED T.greatest)
            (option_map T.number (lower (bounds self.now))) (option_map T.number (upper (bounds self.now))) };

    /// Whether a number is within the bounds (X.680 51.4).
    fn contains(&self, element: &T) -> bool
        ensures { result ≡ admits_by T.number (bounds self.now) element.now };

    /// How a number is encoded under the bounds: minus the start of a range that has one, else unchanged. The number
    /// must not be below that start, and the type has to hold the difference.
    fn effective_value(&self, value: T) -> Effective<T>
        requires { CanOffsetBy (range_of T.SIGNED T.greatest) T.number (bounds self.now) value }
        ensures { IsEffectiveBy T.number (bounds self.now) value result };

    /// The bounds of what both admit, or `None` exactly if no number is within both.
    fn intersect(&self, other: Bounded<T>) -> Option<Bounded<T>>
        ensures bounds { result ≡ common (at_most_by T.number) (bounds self.now) other }
        ensures admits { (v : T) → are_admitting (admits_by T.number) result v
            ≡ (admits_by T.number (bounds self.now) v && admits_by T.number other v) }
        ensures some { IfSome result (λ r. (v : T) × (admits_by T.number r v ≡ true)) };
}

// Whether a number is at most another.
fn is_in_order(one: Wide, other: Wide) -> bool
    ensures { result ≡ is_at_most (signed_by one.negative one.magnitude) (signed_by other.negative other.magnitude) }
{
    match (one.negative, other.negative) {
        (true, false) => true,
        (false, true) => false,
        (false, false) => one.magnitude <= other.magnitude,
        (true, true) => other.magnitude <= one.magnitude,
    }
}

// A natural number minus another.
fn apart(one: u128, other: u128) -> Wide
    ensures { signed_by result.negative result.magnitude ≡ pos one -ℤ pos other }
{
    if one < other {
        Wide {
            negative: true,
            magnitude: other - one - 1,
        }
    } else {
        Wide {
            negative: false,
            magnitude: one - other,
        }
    }
}

// A number minus another, if it is within the range of `Wide`.
fn difference(one: Wide, other: Wide) -> Option<Wide>
    ensures value { IfSome result (λ d. signed_by d.negative d.magnitude
        ≡ signed_by one.negative one.magnitude -ℤ signed_by other.negative other.magnitude) }
    ensures fits { is_some result ≡ is_within (whole_range (2 ^ 128 - 1))
        (signed_by one.negative one.magnitude -ℤ signed_by other.negative other.magnitude) }
{
    match (one.negative, other.negative) {
        (false, false) => Some(apart(one.magnitude, other.magnitude)),
        (true, true) => Some(apart(other.magnitude, one.magnitude)),
        (negative, _) => {
            let sum = one.magnitude.checked_add(other.magnitude)?;
            let magnitude = if negative { sum } else { sum.checked_add(1)? };
            Some(Wide {
                negative,
                magnitude,
            })
        }
    }
}

// A number minus another, if the type holds the result.
fn offset<T: NativeInteger>(one: T, other: T) -> Option<T>
    ensures value { IfSome result (λ d. T.number d ≡ T.number one -ℤ T.number other) }
    ensures fits { is_some result ≡ is_within (range_of T.SIGNED T.greatest) (T.number one -ℤ T.number other) }
{
    T::from_wide(difference(one.to_wide(), other.to_wide())?)
}

// How many numbers there are from `low` to `high`, if the type holds that count.
fn count_of<T: NativeInteger>(low: T, high: T) -> Option<T>
    ensures value { IfSome result (λ n. T.number n ≡ (T.number high -ℤ T.number low) +ℤ pos 1) }
    ensures fits { is_some result
        ≡ is_within (range_of T.SIGNED T.greatest) ((T.number high -ℤ T.number low) +ℤ pos 1) }
{
    let below_zero = Wide {
        negative: true,
        magnitude: 0,
    };
    let apart = difference(high.to_wide(), low.to_wide())?;
    T::from_wide(difference(apart, below_zero)?)
}

// Whether a value is at most another.
fn is_at_most<T: NativeInteger>(one: T, other: T) -> bool
    ensures { result ≡ at_most_by T.number one other }
{
    is_in_order(one.to_wide(), other.to_wide())
}

// The greater of two lower bounds, if there are any.
fn later<T: NativeInteger>(one: Option<T>, other: Option<T>) -> Option<T>
    ensures { result ≡ later (at_most_by T.number) one other }
{
    match (one, other) {
        (Some(a), Some(b)) => Some(if is_at_most(a, b) { b } else { a }),
        (Some(a), None) => Some(a),
        (None, o) => o,
    }
}

// The lesser of two upper bounds, if there are any.
fn earlier<T: NativeInteger>(one: Option<T>, other: Option<T>) -> Option<T>
    ensures { result ≡ earlier (at_most_by T.number) one other }
{
    match (one, other) {
        (Some(a), Some(b)) => Some(if is_at_most(a, b) { a } else { b }),
        (Some(a), None) => Some(a),
        (None, o) => o,
    }
}

// The bounds with these ends.
fn between<T: NativeInteger>(low: Option<T>, high: Option<T>) -> Bounded<T>
    ensures { result ≡ between (at_most_by T.number) low high }
{
    match (low, high) {
        (Some(a), Some(b)) => {
            if is_at_most(a, b) && is_at_most(b, a) {
                Bounded::Single(a)
            } else {
                Bounded::const_new(a, b)
            }
        }
        (Some(a), None) => Bounded::start_from(a),
        (None, Some(b)) => Bounded::up_to(b),
        (None, None) => Bounded::None,
    }
}

// The bounds of what both admit, or `None` if the greater lower bound is above the lesser upper bound.
fn common<T: NativeInteger>(one: &Bounded<T>, other: &Bounded<T>) -> Option<Bounded<T>>
    ensures { result ≡ common (at_most_by T.number) one.now other.now }
{
    let low = later(one.as_start().copied(), other.as_start().copied());
    let high = earlier(one.as_end().copied(), other.as_end().copied());
    match (low, high) {
        (Some(a), Some(b)) if !is_at_most(a, b) => None,
        _ => Some(between(low, high)),
    }
}

impl<T: NativeInteger> NativeBounds<T> for Bounded<T> {
    ghost bounds = { λ b. b };

    fn minimum(&self) -> T {
        self.as_start().copied().unwrap_or(T::ZERO)
    }

    fn range(&self) -> Option<T> {
        let low = *self.as_start()?;
        let high = *self.as_end()?;
        count_of(low, high)
    }

    fn contains(&self, element: &T) -> bool {
        match self.start_and_end() {
            (Some(low), Some(high)) => is_at_most(*low, *element) && is_at_most(*element, *high),
            (Some(low), None) => is_at_most(*low, *element),
            (None, Some(high)) => is_at_most(*element, *high),
            (None, None) => true,
        }
    }

    fn effective_value(&self, value: T) -> Effective<T> {
        match self {
            Bounded::Range {
                start: Some(start),
                ..
            } => match offset(value, *start) {
                Some(offset) => Effective::Offset(offset),
                None => Effective::Plain(value),
            },
            _ => Effective::Plain(value),
        }
    }

    fn intersect(&self, other: Bounded<T>) -> Option<Bounded<T>>
        ensures bounds { result ≡ common (at_most_by T.number) self.now other }
        ensures admits { (v : T) → are_admitting (admits_by T.number) result v
            ≡ (admits_by T.number self.now v && admits_by T.number other v) }
        ensures some { IfSome result (λ r. (v : T) × (admits_by T.number r v ≡ true)) }
    {
        common(self, &other)
    }
}
