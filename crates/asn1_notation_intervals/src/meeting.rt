//! What two sets of whole numbers have in common.
ghost use Rattle.std.specs.Prelude.{◌≡◌, ◌++◌, ◌∷◌, [], ℤ, true, false, cond, ◌&&◌, ◌||◌, IfOk, OnOk};
ghost use Rattle.std.specs.List.{list_all};
ghost use Rattle.asn1_notation_intervals.specs.Ends.{has_number, is_before, meet_of};
ghost use Rattle.asn1_notation_intervals.specs.Sets.{ascend, is_in};

use crate::Interval;
use std::alloc::{AllocError, Global};

/// The numbers that are in two sets. Each step leaves the interval that ends first.
pub fn in_both(
    alloc: Global,
    one: &[Interval],
    other: &[Interval],
) -> Result<Vec<Interval>, AllocError>
    requires one { ascend one.now ≡ true }
    requires other { ascend other.now ≡ true }
    ensures exact { IfOk result (λ both. (z : ℤ) → is_in both.items z ≡ (is_in one.now z && is_in other.now z)) }
    ensures ascending { IfOk result (λ both. ascend both.items ≡ true) }
{
    let mut both = Vec::new(alloc);
    let mut i = 0;
    let mut j = 0;
    while i < one.len() && j < other.len() {
        push_meet(&mut both, one[i], other[j])?;
        if one[i].ends_first(other[j]) {
            i += 1;
        } else {
            j += 1;
        }
    }
    Ok(both)
}

/// Adds what two intervals have in common, if there is a number.
fn push_meet(both: &mut Vec<Interval>, one: Interval, other: Interval) -> Result<(), AllocError>
    ensures { OnOk result (both.new.items ≡ cond (has_number (meet_of one other))
        (both.old.items ++ meet_of one other ∷ []) both.old.items) }
{
    let meet = one.meet(other);
    if meet.has_number() {
        both.push(meet)?;
    }
    Ok(())
}
