//! Whether the components of a SEQUENCE, a SET or a group of additions are those of a newer version (X.680 25 and 27).
ghost use Rattle.std.specs.Prelude.{◌≡◌, ◌↔◌, All, Contains, IfErr, IsTrue, OnOk, false, ◌≤◌, ◌⊎◌};
ghost use Rattle.asn1_model.specs.Versions.{Begins};
ghost use Rattle.asn1_table_extending.specs.Differing.{ComponentDiffers, ComponentsDiffer, CountsDiffer, IsDue};
ghost use Rattle.asn1_table_extending.specs.Differing.{PresencesDiffer, TablesDiffer};
ghost use Rattle.asn1_table_extending.specs.Leading.{AddsOnly, ComponentParts, TableParts};
ghost use Rattle.asn1_table_extending.specs.Matching.{ComponentMatches, ComponentsMatch, IsListed, PresencesMatch};
ghost use Rattle.asn1_table_extending.specs.Matching.{TablesMatch};

use crate::Difference;
use crate::constraints::is_same_marker;
use crate::differences::Fault;
use crate::pairs::{Pair, add_pair};
use asn1_schema_tags::Tag;
use asn1_table_types::{Component, ComponentTable, Presence, is_same_value};

/// The components of the newer table are those of the older, and then further additions. Lists the pairs of their
/// types.
pub fn check_table(
    older: &ComponentTable,
    newer: &ComponentTable,
    pairs: &mut Vec<Pair>,
) -> Result<(), Fault>
    ensures matches { OnOk result (TablesMatch (IsListed pairs.new.items) older.now newer.now) }
    ensures refused { IfErr result (IsDue (λ d. TablesDiffer d older.now newer.now)) }
    ensures kept { OnOk result (Begins pairs.old.items pairs.new.items) }
    ensures added { OnOk result (AddsOnly (TableParts older.now newer.now) pairs.old.items pairs.new.items) }
{
    check_components(older.root.as_slice(), newer.root.as_slice(), false, pairs)?;
    if !is_same_marker(older.is_extensible, newer.is_extensible) {
        return Err(Fault::Differs(Difference::Marker));
    }
    check_components(
        older.additions.as_slice(),
        newer.additions.as_slice(),
        older.is_extensible,
        pairs,
    )?;
    Ok(())
}

/// The newer components are the older ones, one by one, and then further ones if there may be. Lists the pairs of their
/// types.
pub fn check_components(
    older: &[Component],
    newer: &[Component],
    may_have_more: bool,
    pairs: &mut Vec<Pair>,
) -> Result<(), Fault>
    ensures matches { OnOk result (ComponentsMatch (IsListed pairs.new.items) may_have_more older.now newer.now) }
    ensures refused { IfErr result (IsDue (λ d. ComponentsDiffer d may_have_more older.now newer.now)) }
    ensures kept { OnOk result (Begins pairs.old.items pairs.new.items) }
    ensures added { OnOk result (AddsOnly (ComponentParts older.now newer.now) pairs.old.items pairs.new.items) }
{
    check_count(
        older.len(),
        newer.len(),
        may_have_more,
        Difference::ComponentMissing,
        Difference::ComponentAdded,
    )?;
    for index in 0..older.len() {
        let component = &older[index];
        let other = &newer[index];
        check_component(component, other)?;
        add_pair(
            pairs,
            Pair {
                older: component.place,
                newer: other.place,
            },
        )?;
    }
    Ok(())
}

/// There are as many newer ones as older, or more if there may be.
pub fn check_count(
    older: usize,
    newer: usize,
    may_have_more: bool,
    missing: Difference,
    added: Difference,
) -> Result<(), Difference>
    ensures enough { OnOk result (older ≤ newer) }
    ensures as_many { OnOk result (IsTrue may_have_more ⊎ (newer ≤ older)) }
    ensures refused { IfErr result (λ d. CountsDiffer missing added d may_have_more older newer) }
{
    if newer < older {
        return Err(missing);
    }
    if !may_have_more && older < newer {
        return Err(added);
    }
    Ok(())
}

/// The newer component has the tags of the older, and may be absent as that may.
fn check_component(older: &Component, newer: &Component) -> Result<(), Difference>
    ensures matches { OnOk result (ComponentMatches older.now newer.now) }
    ensures refused { IfErr result (λ d. ComponentDiffers d older.now newer.now) }
{
    if !are_among(older.tags.as_slice(), newer.tags.as_slice()) {
        return Err(Difference::ComponentTags);
    }
    check_presence(&older.presence, &newer.presence)
}

/// Whether tags are all among others.
fn are_among(tags: &[Tag], others: &[Tag]) -> bool
    ensures { IsTrue result ↔ All (Contains others.now) tags.now }
{
    for tag in tags {
        if !is_among(*tag, others) {
            return false;
        }
    }
    true
}

/// Whether a tag is among others.
fn is_among(tag: Tag, others: &[Tag]) -> bool
    ensures { IsTrue result ↔ Contains others.now tag }
{
    for other in others {
        if is_same_tag(tag, *other) {
            return true;
        }
    }
    false
}

/// Whether two tags are one (X.680 8).
pub fn is_same_tag(tag: Tag, other: Tag) -> bool
    ensures { IsTrue result ↔ tag ≡ other }
{
    tag == other
}

/// Both components are always there, or both are OPTIONAL, or both have the same default.
fn check_presence(older: &Presence, newer: &Presence) -> Result<(), Difference>
    ensures matches { OnOk result (PresencesMatch older.now newer.now) }
    ensures refused { IfErr result (λ d. PresencesDiffer d older.now newer.now) }
{
    match (older, newer) {
        (Presence::Required, Presence::Required) => Ok(()),
        (Presence::Optional, Presence::Optional) => Ok(()),
        (Presence::Default(value), Presence::Default(other)) => {
            if !is_same_value(value, other) {
                return Err(Difference::Default);
            }
            Ok(())
        }
        _ => Err(Difference::Presence),
    }
}
