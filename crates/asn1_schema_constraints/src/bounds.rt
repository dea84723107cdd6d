//! Bounds of numbers: none, one value, or a range (X.680 51.4).
#![tactic(auto, using(crate::proofs::Orders::tests_of_order, std::proofs::lemmas::Grind::common_steps))]

ghost use Rattle.std.specs.Prelude.{◌≡◌, ℕ, leb, ℤ, pos, ◌+ℤ◌, ◌-ℤ◌, ◌≤ℤ◌, ◌-◌, ◌≤◌, Some, None, unwrap_or};
ghost use Rattle.std.specs.Prelude.{FitsSigned, IfSome, is_some, false, true, ◌&&◌, ◌^◌};
ghost use Rattle.asn1_values_natives.specs.Octets.{is_below_zero};
ghost use Rattle.asn1_values_natives.specs.Ranges.{whole_range};
ghost use Rattle.std.specs.Int.{w128};
ghost use Rattle.std.specs.Option.{option_copied, ForSome};
ghost use Rattle.asn1_model.specs.Numbers.{is_at_most, is_within, is_count_within};
ghost use Rattle.asn1_schema_constraints.specs.Bounds.{lower, upper, range_of, counts_of, members_of, IsSpan};
ghost use Rattle.asn1_schema_constraints.specs.Bounds.{counted, later, earlier, between, meet, common, CanOffset};
ghost use Rattle.asn1_schema_constraints.specs.Bounds.{CanOffsetCount, effective, effective_count, admits_number};
ghost use Rattle.asn1_schema_constraints.specs.Bounds.{admits_count, are_admitting};
ghost use Rattle.asn1_schema_constraints.specs.Texts.{bounds_text};

use asn1_values_integers::IntegerType;
use std::fmt;

/// Bounds of a number (X.680 51.4): none, a single value, or a range with one end or both.
#[derive(Clone, Copy, Debug, PartialEq, Eq)]
pub enum Bounded<T> {
    /// No bounds.
    None,
    /// A single value.
    Single(T),
    /// The values from the start to the end, both included.
    Range {
        /// The least value, if there is one.
        start: Option<T>,
        /// The greatest value, if there is one.
        end: Option<T>,
    },
}

/// A number as it is encoded under bounds.
#[derive(Clone, Copy, Debug, PartialEq, Eq)]
pub enum Effective<T> {
    /// The number minus the lower bound.
    Offset(T),
    /// The number itself.
    Plain(T),
}

impl<T> Bounded<T> {
    /// The values from `value` on.
    pub fn start_from(value: T) -> Self
        ensures { result ≡ Bounded.Range (Some value) None }
    {
        Bounded::Range {
            start: Some(value),
            end: None,
        }
    }

    /// The values up to `value`.
    pub fn up_to(value: T) -> Self
        ensures { result ≡ Bounded.Range None (Some value) }
    {
        Bounded::Range {
            start: None,
            end: Some(value),
        }
    }

    /// A single value.
    pub fn single_value(value: T) -> Self
        ensures { result ≡ Bounded.Single value }
    {
        Self::Single(value)
    }

    /// The values from `start` to `end`.
    pub fn const_new(start: T, end: T) -> Self
        ensures { result ≡ Bounded.Range (Some start) (Some end) }
    {
        Bounded::Range {
            start: Some(start),
            end: Some(end),
        }
    }

    /// The least value, if there is one.
    pub fn as_start(&self) -> Option<&T>
        ensures { option_copied result ≡ lower self.now }
    {
        match self {
            Bounded::None => None,
            Bounded::Single(value) => Some(value),
            Bounded::Range { start, .. } => start.as_ref(),
        }
    }

    /// The greatest value, if there is one.
    pub fn as_end(&self) -> Option<&T>
        ensures { option_copied result ≡ upper self.now }
    {
        match self {
            Bounded::None => None,
            Bounded::Single(value) => Some(value),
            Bounded::Range { end, .. } => end.as_ref(),
        }
    }

    /// The least and the greatest value, if there are any.
    #[inline(always)]
    pub fn start_and_end(&self) -> (Option<&T>, Option<&T>)
        ensures low { option_copied result.0 ≡ lower self.now }
        ensures high { option_copied result.1 ≡ upper self.now }
    {
        (self.as_start(), self.as_end())
    }
}

// The greater of two lower bounds, if there are any.
fn later_number(one: Option<i128>, other: Option<i128>) -> Option<i128>
    ensures { result ≡ later is_at_most one other }
{
    match (one, other) {
        (Some(a), Some(b)) => Some(if a <= b { b } else { a }),
        (Some(a), None) => Some(a),
        (None, o) => o,
    }
}

// The lesser of two upper bounds, if there are any.
fn earlier_number(one: Option<i128>, other: Option<i128>) -> Option<i128>
    ensures { result ≡ earlier is_at_most one other }
{
    match (one, other) {
        (Some(a), Some(b)) => Some(if a <= b { a } else { b }),
        (Some(a), None) => Some(a),
        (None, o) => o,
    }
}

// The greater of two lower bounds, if there are any.
fn later_count(one: Option<usize>, other: Option<usize>) -> Option<usize>
    ensures { result ≡ later leb one other }
{
    match (one, other) {
        (Some(a), Some(b)) => Some(if a <= b { b } else { a }),
        (Some(a), None) => Some(a),
        (None, o) => o,
    }
}

// The lesser of two upper bounds, if there are any.
fn earlier_count(one: Option<usize>, other: Option<usize>) -> Option<usize>
    ensures { result ≡ earlier leb one other }
{
    match (one, other) {
        (Some(a), Some(b)) => Some(if a <= b { a } else { b }),
        (Some(a), None) => Some(a),
        (None, o) => o,
    }
}

// The bounds with these ends.
fn numbers_between(low: Option<i128>, high: Option<i128>) -> Bounded<i128>
    ensures { result ≡ between is_at_most low high }
{
    match (low, high) {
        (Some(a), Some(b)) => {
            if a == b {
                Bounded::Single(a)
            } else {
                Bounded::const_new(a, b)
            }
        }
        (Some(a), None) => Bounded::start_from(a),
        (None, Some(b)) => Bounded::up_to(b),
        (None, None) => Bounded::None,
    }
}

// The bounds with these ends.
fn counts_between(low: Option<usize>, high: Option<usize>) -> Bounded<usize>
    ensures { result ≡ between leb low high }
{
    match (low, high) {
        (Some(a), Some(b)) => {
            if a == b {
                Bounded::Single(a)
            } else {
                Bounded::const_new(a, b)
            }
        }
        (Some(a), None) => Bounded::start_from(a),
        (None, Some(b)) => Bounded::up_to(b),
        (None, None) => Bounded::None,
    }
}

// Whether the numbers outside `i128`, below it or above it, are at least a bound.
fn reaches_up(_low: i128, below: bool) -> bool
    ensures { (z : ℤ) → is_within (whole_range (2 ^ 127 - 1)) z ≡ false → is_below_zero z ≡ below → result
        ≡ is_at_most _low z }
{
    !below
}

// Whether the numbers outside `i128`, below it or above it, are at most a bound.
fn reaches_down(_high: i128, below: bool) -> bool
    ensures { (z : ℤ) → is_within (whole_range (2 ^ 127 - 1)) z ≡ false → is_below_zero z ≡ below → result
        ≡ is_at_most z _high }
{
    below
}

impl Bounded<i128> {
    // From the greater lower bound to the lesser upper bound.
    pub fn joined(&self, other: Self) -> Self
        ensures { result ≡ meet is_at_most self.now other }
    {
        let low = later_number(self.as_start().copied(), other.as_start().copied());
        let high = earlier_number(self.as_end().copied(), other.as_end().copied());
        numbers_between(low, high)
    }

    /// The upper bound minus the lower bound, plus one; `None` exactly if one is missing or the result does not fit.
    pub fn range(&self) -> Option<i128>
        ensures { IsSpan (lower self.now) (upper self.now) result }
    {
        let start = *self.as_start()?;
        let end = *self.as_end()?;
        if end < start {
            (end + 1).checked_sub(start)
        } else {
            end.checked_sub(start)?.checked_add(1)
        }
    }

    /// The lower bound, or 0 if there is none.
    pub fn minimum(&self) -> i128
        ensures { result ≡ unwrap_or (lower self.now) (pos 0) }
    {
        self.as_start().copied().unwrap_or(0)
    }

    /// Whether a number is within the bounds (X.680 51.4).
    #[inline(always)]
    pub fn contains(&self, element: &i128) -> bool
        ensures { result ≡ admits_number self.now element.now }
    {
        self.admits(*element)
    }

    /// How a number is encoded under the bounds: minus the start of a range that has one, else unchanged. The number
    /// must not be below that start, and the difference has to fit.
    pub fn effective_value(&self, value: i128) -> Effective<i128>
        requires { CanOffset self.now value }
        ensures { result ≡ effective self.now value }
    {
        match self {
            Bounded::Range {
                start: Some(start),
                ..
            } => Effective::Offset(value - *start),
            _ => Effective::Plain(value),
        }
    }

    // Whether a number is within the bounds.
    #[inline(always)]
    fn admits(&self, element: i128) -> bool
        ensures { result ≡ admits_number self.now element }
    {
        match self.start_and_end() {
            (Some(low), Some(high)) => *low <= element && element <= *high,
            (Some(low), None) => *low <= element,
            (None, Some(high)) => element <= *high,
            (None, None) => true,
        }
    }

    // Whether the numbers outside `i128`, below it or above it, are within the bounds.
    fn admits_past(&self, below: bool) -> bool
        ensures { (z : ℤ) → is_within (whole_range (2 ^ 127 - 1)) z ≡ false → is_below_zero z ≡ below → result
            ≡ admits_number self.now z }
    {
        match self.start_and_end() {
            (Some(low), Some(high)) => reaches_up(*low, below) && reaches_down(*high, below),
            (Some(low), None) => reaches_up(*low, below),
            (None, Some(high)) => reaches_down(*high, below),
            (None, None) => true,
        }
    }

    /// Whether a number of any integer type is within the bounds (X.680 51.4).
    pub fn in_bound<I: IntegerType>(&self, element: &I) -> bool
        ensures { result ≡ admits_number self.now (I.value element.now) }
    {
        match element.to_i128() {
            Some(value) => self.admits(value),
            None => self.admits_past(element.is_negative()),
        }
    }

    /// The bounds of what both admit, or `None` exactly if no number is within both.
    pub fn intersect(&self, other: Self) -> Option<Self>
        ensures bounds { result ≡ common is_at_most self.now other }
        ensures admits { (v : ℤ) → are_admitting admits_number result v
            ≡ (admits_number self.now v && admits_number other v) }
        ensures some { IfSome result (λ r. (v : ℤ) × (admits_number r v ≡ true)) }
    {
        self.common(other)
    }

    // From the greater lower bound to the lesser upper bound, or `None` if the former is above the latter.
    fn common(&self, other: Self) -> Option<Self>
        ensures { result ≡ common is_at_most self.now other }
    {
        let low = later_number(self.as_start().copied(), other.as_start().copied());
        let high = earlier_number(self.as_end().copied(), other.as_end().copied());
        match (low, high) {
            (Some(a), Some(b)) if b < a => None,
            _ => Some(numbers_between(low, high)),
        }
    }
}

impl Bounded<usize> {
    // From the greater lower bound to the lesser upper bound.
    pub fn joined(&self, other: Self) -> Self
        ensures { result ≡ meet leb self.now other }
    {
        let low = later_count(self.as_start().copied(), other.as_start().copied());
        let high = earlier_count(self.as_end().copied(), other.as_end().copied());
        counts_between(low, high)
    }

    /// The upper bound minus the lower bound, plus one, if both are there and the result fits.
    pub fn range(&self) -> Option<usize>
        ensures { result ≡ counted (lower self.now) (upper self.now) }
    {
        let start = *self.as_start()?;
        let end = *self.as_end()?;
        if end < start {
            (end + 1).checked_sub(start)
        } else {
            (end - start).checked_add(1)
        }
    }

    /// The lower bound, or 0 if there is none.
    pub fn minimum(&self) -> usize
        ensures { result ≡ unwrap_or (lower self.now) 0 }
    {
        self.as_start().copied().unwrap_or(0)
    }

    /// Whether a count is within the bounds (X.680 51.5).
    #[inline(always)]
    pub fn contains(&self, element: &usize) -> bool
        ensures { result ≡ admits_count self.now element.now }
    {
        match self.start_and_end() {
            (Some(low), Some(high)) => *low <= *element && *element <= *high,
            (Some(low), None) => *low <= *element,
            (None, Some(high)) => *element <= *high,
            (None, None) => true,
        }
    }

    /// Whether a user-defined type with these bounds holds `count` elements (X.680 51.5).
    #[inline(always)]
    pub fn holds(&self, count: usize) -> bool
        ensures { result ≡ is_count_within (members_of self.now) count }
    {
        self.contains(&count)
    }

    /// How a count is encoded under the bounds: minus the start of a range that has one, else unchanged. The count
    /// must not be below that start.
    pub fn effective_value(&self, value: usize) -> Effective<usize>
        requires { CanOffsetCount self.now value }
        ensures { result ≡ effective_count self.now value }
    {
        match self {
            Bounded::Range {
                start: Some(start),
                ..
            } => Effective::Offset(value - *start),
            _ => Effective::Plain(value),
        }
    }

    /// The bounds of what both admit, or `None` exactly if no count is within both.
    pub fn intersect(&self, other: Self) -> Option<Self>
        ensures bounds { result ≡ common leb self.now other }
        ensures admits { (n : ℕ) → are_admitting admits_count result n
            ≡ (admits_count self.now n && admits_count other n) }
        ensures some { IfSome result (λ r. (n : ℕ) × (admits_count r n ≡ true)) }
    {
        self.common(other)
    }

    // From the greater lower bound to the lesser upper bound, or `None` if the former is above the latter.
    fn common(&self, other: Self) -> Option<Self>
        ensures { result ≡ common leb self.now other }
    {
        let low = later_count(self.as_start().copied(), other.as_start().copied());
        let high = earlier_count(self.as_end().copied(), other.as_end().copied());
        match (low, high) {
            (Some(a), Some(b)) if b < a => None,
            _ => Some(counts_between(low, high)),
        }
    }
}

impl<T: fmt::Display> fmt::Display for Bounded<T> {
    ghost output = { bounds_text T.output };

    fn fmt<W: fmt::Write>(&self, f: &mut fmt::Formatter<W>) -> fmt::Result {
        match self {
            Bounded::None => f.write_str(".."),
            Bounded::Single(value) => write!(f, "{value}"),
            Bounded::Range { start, end } => {
                if let Some(start) = start {
                    write!(f, "{start}")?;
                }
                f.write_str("..")?;
                if let Some(end) = end {
                    write!(f, "{end}")?;
                }
                Ok(())
            }
        }
    }
}
