//! Looks up a tag in an ascending table.
ghost use Rattle.std.specs.Prelude.{◌≡◌, ◌≤◌, ◌+◌, ◌++◌, length, map, option_map, slice_get, true};
ghost use Rattle.asn1_model.specs.Numbers.{width};
ghost use Rattle.asn1_schema_tags.specs.Places.{ascends, looked_up, is_table_of, stands_at};
ghost use Rattle.asn1_schema_tags.specs.Places.{are_listed as are_listed_from, is_place_there};
ghost use Rattle.std.specs.List.{list_all};
ghost use Rattle.asn1_schema_tags.specs.Tags.{tag_of};
ghost use Rattle.asn1_schema_tags.specs.Trees.{place_of};

use crate::{Tag, TagPlace, TagProbe};
use std::cmp::Ordering;

/// The index that an ascending table gives for a tag, if it lists the tag. Compares at most as many tags as the length
/// of the table has binary digits.
pub fn find_place(probe: &mut TagProbe<'_>, tag: Tag) -> Option<usize>
    requires ascending { ascends probe.old.places ≡ true }
    requires fresh { probe.old.count ≡ 0 }
    ensures place { result ≡ looked_up probe.old.places (tag_of tag) }
    ensures plain { (ts : _) → is_table_of probe.old.places ts ≡ true → result ≡ place_of ts (tag_of tag) }
    ensures table { probe.new.places ≡ probe.old.places }
    ensures few { probe.new.count ≤ width (length probe.old.places) }
{
    let mut low = 0;
    let mut high = probe.len();
    while low < high {
        let middle = low + (high - low) / 2;
        match probe.compare(middle, tag) {
            Ordering::Less => low = middle + 1,
            Ordering::Greater => high = middle,
            Ordering::Equal => return Some(probe.place_at(middle)),
        }
    }
    None
}

/// As `find_place`, but tries the entry first whose index is the tag's number: the right one for tags from 0 on without
/// gaps.
pub fn find_numbered_place(places: &[TagPlace], tag: Tag) -> Option<usize>
    requires { ascends places.now ≡ true }
    ensures place { result ≡ looked_up places.now (tag_of tag) }
    ensures plain { (ts : _) → is_table_of places.now ts ≡ true → result ≡ place_of ts (tag_of tag) }
{
    match places.get(tag.value as usize) {
        Some(entry) if entry.tag.const_eq(&tag) => Some(entry.place),
        _ => find_place(&mut TagProbe::new(places), tag),
    }
}

/// Whether a table is ascending by tag and lists exactly the root tags and the added tags, each with its index in the
/// concatenation of both.
pub fn is_place_table(places: &[TagPlace], variants: &[Tag], extended: &[Tag]) -> bool
    ensures { result ≡ is_table_of places.now (map tag_of variants.now ++ map tag_of extended.now) }
{
    if !ascend(places) || !stand_there(places, variants, extended) {
        return false;
    }
    if !are_listed(places, 0, variants) {
        return false;
    }
    are_listed(places, variants.len(), extended)
}

/// Whether each tag of a table is less than the next.
#[tactic(auto, using(crate::proofs::TableSteps::ascends_last))]
fn ascend(places: &[TagPlace]) -> bool
    ensures { result ≡ ascends places.now }
{
    for next in 1..places.len() {
        if !places[next - 1].tag.const_less_than(places[next].tag) {
            return false;
        }
    }
    true
}

/// The tag at an index in the concatenation of root and added tags.
fn tag_at(variants: &[Tag], extended: &[Tag], place: usize) -> Option<Tag>
    ensures { option_map tag_of result ≡ slice_get (map tag_of variants.now ++ map tag_of extended.now) place }
{
    if place < variants.len() {
        return Some(variants[place]);
    }
    extended.get(place - variants.len()).copied()
}

/// Whether each tag of a table is at its index in the concatenation of root and added tags.
fn stand_there(places: &[TagPlace], variants: &[Tag], extended: &[Tag]) -> bool
    ensures { result ≡ list_all (stands_at (map tag_of variants.now ++ map tag_of extended.now)) places.now }
{
    for entry in places {
        match tag_at(variants, extended, entry.place) {
            Some(tag) if tag.const_eq(&entry.tag) => {}
            _ => return false,
        }
    }
    true
}

/// Whether an ascending table lists each of the tags with its index; that of the first tag is `first`.
#[tactic(auto, using(crate::proofs::TableSteps::listed_at))]
fn are_listed(places: &[TagPlace], first: usize, tags: &[Tag]) -> bool
    requires { ascends places.now ≡ true }
    ensures { result ≡ are_listed_from places.now first (map tag_of tags.now) }
{
    for (index, tag) in tags.iter().enumerate() {
        if !has_place(find_place(&mut TagProbe::new(places), *tag), first, index) {
            return false;
        }
    }
    true
}

/// Whether there is an index, and it is `first` + `index`.
fn has_place(place: Option<usize>, first: usize, index: usize) -> bool
    ensures { result ≡ is_place_there place (first + index) }
{
    place.is_some_and(|place| place >= first && place - first == index)
}
