//! Value and size constraints.
ghost use Rattle.std.specs.Prelude.{◌≡◌, ℕ, leb, ℤ, ◌&&◌};
ghost use Rattle.std.specs.Borrow.{Lends, sem, usize as count};
ghost use Rattle.asn1_model.specs.Numbers.{is_at_most};
ghost use Rattle.asn1_schema_constraints.specs.Bounds.{lower, upper, meet, admits_number, admits_count, is_one_size};
ghost use Rattle.asn1_schema_constraints.specs.Bounds.{is_size_range};
ghost use Rattle.asn1_schema_constraints.specs.Widths.{has_sign, fixed_width};

use crate::Bounded;
use std::ops::{Deref, DerefMut};

/// A value constraint (X.680 51.4).
#[derive(Clone, Copy, Debug, PartialEq, Eq)]
pub struct Value {
    /// The bounds of the number.
    pub value: Bounded<i128>,
}

impl Value {
    /// A constraint to these bounds.
    pub fn new(value: Bounded<i128>) -> Self
        ensures { result.value ≡ value }
    {
        Value { value }
    }

    /// Whether numbers under the constraint are encoded with a sign (X.696 10); see [`Bounded::range_in_bytes`].
    pub fn get_sign(&self) -> bool
        ensures { result ≡ has_sign (lower self.now.value) }
    {
        self.value.range_in_bytes().0
    }

    /// The number of octets in which numbers under the constraint are encoded, if it is fixed (X.696 10); see
    /// [`Bounded::range_in_bytes`].
    pub fn get_range(&self) -> Option<u8>
        ensures { result ≡ fixed_width (lower self.now.value) (upper self.now.value) }
    {
        self.value.range_in_bytes().1
    }

    /// The constraint to what both admit: from the greater lower bound to the lesser upper bound. If no number is
    /// within both, the start of the result is above its end, and it admits none.
    pub fn intersect(&self, other: &Self) -> Self
        ensures bounds { result.value ≡ meet is_at_most self.now.value other.now.value }
        ensures admits { (v : ℤ) → admits_number result.value v
            ≡ (admits_number self.now.value v && admits_number other.now.value v) }
    {
        Value {
            value: self.value.joined(other.value),
        }
    }
}

impl Deref for Value {
    type Target = Bounded<i128>;

    ghost deref_gives = { λ v bounds. bounds ≡ v.value };

    fn deref(&self) -> &Bounded<i128> {
        &self.value
    }
}

/// A size constraint (X.680 51.5).
#[derive(Clone, Copy, Debug, PartialEq, Eq)]
pub struct Size {
    /// The bounds of the count.
    pub range: Bounded<usize>,
}

impl Size {
    /// A constraint to these bounds.
    pub fn new(range: Bounded<usize>) -> Self
        ensures { result.range ≡ range }
    {
        Size { range }
    }

    /// A constraint to one size.
    pub fn fixed(length: usize) -> Self
        ensures { result.range ≡ Bounded.Single length }
    {
        Size {
            range: Bounded::Single(length),
        }
    }

    /// Whether only one size is allowed: the greatest size is the least one, which is 0 if none is given.
    pub fn is_fixed(&self) -> bool
        ensures { result ≡ is_one_size self.now.range }
    {
        match self.range.as_end() {
            Some(end) => *end == self.range.minimum(),
            None => false,
        }
    }

    /// Whether a least or a greatest size is given, and not only one size is allowed.
    pub fn is_range(&self) -> bool
        ensures { result ≡ is_size_range self.now.range }
    {
        let is_bounded = self.range.as_start().is_some() || self.range.as_end().is_some();
        is_bounded && !self.is_fixed()
    }

    /// The constraint to what both admit: from the greater lower bound to the lesser upper bound. If no size is within
    /// both, the start of the result is above its end, and it admits none.
    pub fn intersect(&self, other: &Self) -> Self
        ensures bounds { result.range ≡ meet leb self.now.range other.now.range }
        ensures admits { (n : ℕ) → admits_count result.range n
            ≡ (admits_count self.now.range n && admits_count other.now.range n) }
    {
        Size {
            range: self.range.joined(other.range),
        }
    }
}

impl Deref for Size {
    type Target = Bounded<usize>;

    ghost deref_gives = { λ s bounds. bounds ≡ s.range };

    fn deref(&self) -> &Bounded<usize> {
        &self.range
    }
}

/// When the mutable borrow ends, the constraint has the bounds left in it.
impl DerefMut for Size {
    ghost use Rattle.asn1_schema_constraints.specs.contracts.bounds.Bounded.{the_row as bounds_row};
    ghost use Rattle.asn1_schema_constraints.specs.contracts.parts.Size.{the_row};

    ghost deref_mut_gives = { λ s bounds. bounds ≡ s.range };

    fn deref_mut(&mut self) -> &mut Bounded<usize>
        ensures* writes_back { sem 𝓛 (Lends the_row (bounds_row count) self.entry result
            (λ bounds. record self.old { range = bounds })) }
        ensures shows { result.now ≡ self.old.range }
    {
        &mut self.range
    }
}
