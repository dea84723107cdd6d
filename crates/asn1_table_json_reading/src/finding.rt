//! Components, alternatives and items are found by their names in JSON.
#![tactic(auto, using(std::proofs::lemmas::Grind::common_steps))]

use crate::numbers::is_plain;
use asn1_schema_tags::{Chosen, EnumerationItems};
use asn1_table_names::{Names, Part, alternative_of, component_at, is_group, items_at};
use asn1_table_types::Types;

/// Whether there is a name, which is not empty.
fn is_name(name: Option<&str>) -> bool {
    match name {
        Some(name) => !name.is_empty(),
        None => false,
    }
}

/// The component with a name of the SEQUENCE or SET at an index.
pub fn find_part(types: &Types, names: &Names, place: usize, label: &str) -> Option<Part> {
    if label.is_empty() {
        return None;
    }
    if let Some(part) = names.find_part(types, place, label) {
        return Some(part);
    }
    let part = unnamed_part(label)?;
    let component = component_at(types, place, part)?;
    let is_named = is_name(names.part_name(types, place, part));
    if is_named || is_group(types, component.place) {
        return None;
    }
    Some(part)
}

/// The component with a name by its index.
fn unnamed_part(label: &str) -> Option<Part> {
    if let Some(index) = label.strip_prefix("component_") {
        return Some(Part::Root(index_of(index)?));
    }
    let indices = label.strip_prefix("addition_")?;
    match indices.split_once('_') {
        None => Some(Part::Addition(index_of(indices)?)),
        Some((addition, component)) => Some(Part::Grouped {
            addition: index_of(addition)?,
            component: index_of(component)?,
        }),
    }
}

/// The alternative with a name of the CHOICE at an index.
pub fn find_alternative(types: &Types, names: &Names, place: usize, label: &str) -> Option<Chosen> {
    if label.is_empty() {
        return None;
    }
    if let Some(chosen) = names.find_alternative(place, label) {
        return Some(chosen);
    }
    let chosen = unnamed_alternative(label)?;
    if alternative_of(types.node(place)?, chosen).is_none()
        || is_name(names.alternative_name(place, chosen))
    {
        return None;
    }
    Some(chosen)
}

/// The alternative with a name by its index.
fn unnamed_alternative(label: &str) -> Option<Chosen> {
    if let Some(index) = label.strip_prefix("alternative_") {
        return Some(Chosen::root(index_of(index)?));
    }
    Some(Chosen::addition(index_of(label.strip_prefix("addition_")?)?))
}

/// The number of the item with a name of the ENUMERATED at an index.
pub fn find_item(types: &Types, names: &Names, place: usize, label: &str) -> Option<isize> {
    if label.is_empty() {
        return None;
    }
    if let Some(item) = names.find_item(types, place, label) {
        return Some(item);
    }
    let item = unnamed_item(label)?;
    let _chosen = items_at(types, place)?.place(&item)?;
    if is_name(names.item_name(types, place, item)) {
        return None;
    }
    Some(item)
}

/// The number of an item that is named by its digits.
fn unnamed_item(label: &str) -> Option<isize> {
    let digits = match label.strip_prefix('-') {
        Some(digits) => digits,
        None => label,
    };
    if !is_plain(digits) {
        return None;
    }
    label.parse::<isize>().ok()
}

/// An index in decimal.
fn index_of(digits: &str) -> Option<usize> {
    if !is_plain(digits) {
        return None;
    }
    digits.parse::<usize>().ok()
}
