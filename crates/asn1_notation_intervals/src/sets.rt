//! Sets of whole numbers.
ghost use Rattle.std.specs.Prelude.{◌≡◌, ℤ, true, false, ◌&&◌, IfOk, MatchOption};
ghost use Rattle.asn1_notation_intervals.specs.Sets.{ascend, is_in, IsGreatest, IsLeast};

use crate::Interval;
use crate::joining::joined;
use crate::meeting::in_both;
use std::alloc::{AllocError, Global};
use std::marker::Model;

/// A set of whole numbers. Unions and intersections cost as much as there are intervals in them.
#[derive(Drop)]
pub struct NumberSet {
    intervals: Vec<Interval>,
}

impl Model for NumberSet {
    ghost use Rattle.std.specs.Prelude.{◌≡◌, List, true};
    ghost use Rattle.asn1_notation_intervals.specs.declared.intervals.Interval.{Interval};
    ghost use Rattle.asn1_notation_intervals.specs.Sets.{ascend};

    ghost Value = { List Interval };

    ghost view = { λ s. s.intervals.items };

    ghost invariant = { λ s. ascend s.intervals.items ≡ true };
}

impl NumberSet {
    /// The numbers that are in one of some intervals, which come in any order and may overlap.
    ///
    /// # Errors
    ///
    /// Out of memory.
    pub fn of(alloc: Global, intervals: &[Interval]) -> Result<NumberSet, AllocError>
        ensures { IfOk result (λ set. (z : ℤ) → is_in set z ≡ is_in intervals.now z) }
    {
        let intervals = joined(alloc, intervals)?;
        Ok(NumberSet { intervals })
    }

    /// The numbers that are in both sets.
    ///
    /// # Errors
    ///
    /// Out of memory.
    pub fn intersection(&self, alloc: Global, other: &NumberSet) -> Result<NumberSet, AllocError>
        ensures { IfOk result (λ set. (z : ℤ) → is_in set z ≡ (is_in self.now z && is_in other.now z)) }
    {
        let intervals = in_both(alloc, self.intervals.as_slice(), other.intervals.as_slice())?;
        Ok(NumberSet { intervals })
    }

    /// The intervals, which ascend: each has a number, and ends before the next begins.
    pub fn intervals(&self) -> &[Interval]
        ensures value { result.now ≡ self.now }
        ensures ascending { ascend result.now ≡ true }
    {
        self.intervals.as_slice()
    }

    /// The least and the greatest number, as the ends of an interval: an end is missing where there is no such number.
    /// `None` exactly if the set is empty.
    pub fn hull(&self) -> Option<Interval>
        ensures empty { MatchOption result ((z : ℤ) → is_in self.now z ≡ false)
            (λ hull. (z : ℤ) × (is_in self.now z ≡ true)) }
        ensures hull { MatchOption result ((z : ℤ) → is_in self.now z ≡ false)
            (λ hull. IsLeast self.now hull.low × IsGreatest self.now hull.high) }
    {
        let intervals = self.intervals.as_slice();
        match intervals {
            [] => None,
            [first, ..] => Some(Interval {
                low: first.low,
                high: intervals[intervals.len() - 1].high,
            }),
        }
    }
}
