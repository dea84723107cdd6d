//! Intervals are put in order, and joined where they overlap.
ghost use Rattle.std.specs.Prelude.{◌≡◌, ◌+◌, ◌<◌, ℕ, ℤ, true, ◌||◌, length, IfOk, OnOk};
ghost use Rattle.std.specs.List.{list_all};
ghost use Rattle.asn1_notation_intervals.specs.declared.intervals.Interval.{Interval as Span};
ghost use Rattle.asn1_notation_intervals.specs.Ends.{begins_by, has_number, is_between};
ghost use Rattle.asn1_notation_intervals.specs.Sets.{ascend, is_in};
ghost use Rattle.asn1_notation_intervals.specs.Order.{LowsAscend, begin_by};

use crate::Interval;
use std::alloc::{AllocError, Global};

/// The numbers of some intervals, as intervals that ascend.
pub fn joined(alloc: Global, intervals: &[Interval]) -> Result<Vec<Interval>, AllocError>
    ensures exact { IfOk result (λ joined. (z : ℤ) → is_in joined.items z ≡ is_in intervals.now z) }
    ensures ascending { IfOk result (λ joined. ascend joined.items ≡ true) }
{
    let mut ordered = Vec::from_slice(alloc, intervals)?;
    ordered.sort_unstable();
    let joined = join_ordered(alloc, ordered.as_slice())?;
    Ok(joined)
}

/// The numbers of some intervals, whose lower ends ascend, as intervals that ascend.
fn join_ordered(alloc: Global, ordered: &[Interval]) -> Result<Vec<Interval>, AllocError>
    requires { LowsAscend ordered.now }
    ensures exact { IfOk result (λ joined. (z : ℤ) → is_in joined.items z ≡ is_in ordered.now z) }
    ensures ascending { IfOk result (λ joined. ascend joined.items ≡ true) }
{
    let mut joined = Vec::new(alloc);
    for interval in ordered {
        if interval.has_number() {
            push_interval(&mut joined, *interval)?;
        }
    }
    Ok(joined)
}

/// Adds an interval to others, none of which begins after it.
fn push_interval(joined: &mut Vec<Interval>, next: Interval) -> Result<(), AllocError>
    requires ascending { ascend joined.old.items ≡ true }
    requires begin { begin_by joined.old.items next.low ≡ true }
    requires number { has_number next ≡ true }
    ensures exact { OnOk result ((z : ℤ) → is_in joined.new.items z ≡ (is_in joined.old.items z || is_between next z)) }
    ensures ascending { OnOk result (ascend joined.new.items ≡ true) }
    ensures begin { OnOk result (begin_by joined.new.items next.low ≡ true) }
{
    let Some(last) = joined.pop() else {
        joined.push(next)?;
        return Ok(());
    };
    if last.ends_before(next) {
        joined.push(last)?;
        joined.push(next)?;
    } else {
        joined.push(last.reaching(next))?;
    }
    Ok(())
}
