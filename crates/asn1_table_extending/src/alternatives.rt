//! Whether the alternatives of a CHOICE are those of a newer version (X.680 29).
ghost use Rattle.std.specs.Prelude.{IfErr, OnOk};
ghost use Rattle.asn1_model.specs.Versions.{Begins};
ghost use Rattle.asn1_table_extending.specs.Differing.{AlternativesDiffer, ChoicesDiffer, IsDue};
ghost use Rattle.asn1_table_extending.specs.Leading.{AddsOnly, AlternativeParts, ChoiceParts};
ghost use Rattle.asn1_table_extending.specs.Matching.{AlternativesMatch, ChoicesMatch, IsListed};

use crate::Difference;
use crate::components::{check_count, is_same_tag};
use crate::constraints::is_same_marker;
use crate::differences::Fault;
use crate::pairs::{Pair, add_pair};
use asn1_table_types::{Alternative, AlternativeTable};

/// The alternatives of the newer CHOICE are those of the older, and then further added ones. Lists the pairs of their
/// types.
pub fn check_choice(
    older: &AlternativeTable,
    newer: &AlternativeTable,
    pairs: &mut Vec<Pair>,
) -> Result<(), Fault>
    ensures matches { OnOk result (ChoicesMatch (IsListed pairs.new.items) older.now newer.now) }
    ensures refused { IfErr result (IsDue (λ d. ChoicesDiffer d older.now newer.now)) }
    ensures kept { OnOk result (Begins pairs.old.items pairs.new.items) }
    ensures added { OnOk result (AddsOnly (ChoiceParts older.now newer.now) pairs.old.items pairs.new.items) }
{
    check_alternatives(older.root.as_slice(), newer.root.as_slice(), false, pairs)?;
    if !is_same_marker(older.is_extensible, newer.is_extensible) {
        return Err(Fault::Differs(Difference::Marker));
    }
    check_alternatives(
        older.additions.as_slice(),
        newer.additions.as_slice(),
        older.is_extensible,
        pairs,
    )?;
    Ok(())
}

/// The newer alternatives are the older ones, one by one, and then further ones if there may be. Lists the pairs of
/// their types.
fn check_alternatives(
    older: &[Alternative],
    newer: &[Alternative],
    may_have_more: bool,
    pairs: &mut Vec<Pair>,
) -> Result<(), Fault>
    ensures matches { OnOk result (AlternativesMatch (IsListed pairs.new.items) may_have_more older.now newer.now) }
    ensures refused { IfErr result (IsDue (λ d. AlternativesDiffer d may_have_more older.now newer.now)) }
    ensures kept { OnOk result (Begins pairs.old.items pairs.new.items) }
    ensures added { OnOk result (AddsOnly (AlternativeParts older.now newer.now) pairs.old.items pairs.new.items) }
{
    check_count(
        older.len(),
        newer.len(),
        may_have_more,
        Difference::AlternativeMissing,
        Difference::AlternativeAdded,
    )?;
    for index in 0..older.len() {
        let alternative = older[index];
        let other = newer[index];
        if !is_same_tag(alternative.tag, other.tag) {
            return Err(Fault::Differs(Difference::AlternativeTag));
        }
        add_pair(
            pairs,
            Pair {
                older: alternative.place,
                newer: other.place,
            },
        )?;
    }
    Ok(())
}
