//! The names of components, alternatives and items in JSON.
#![tactic(auto, using(std::proofs::lemmas::Grind::common_steps))]

use crate::decimals::number_text;
use asn1_schema_tags::Chosen;
use asn1_table_names::Part;
use asn1_values_integers::Integer;
use std::alloc::{AllocError, Global};
use std::borrow::CowStr;

/// The name of a component: its identifier, or one by its index.
pub(crate) fn part_label<'a>(
    alloc: Global,
    name: Option<&'a str>,
    part: Part,
) -> Result<CowStr<'a>, AllocError> {
    if let Some(name) = present(name) {
        return Ok(CowStr::Borrowed(name));
    }
    let text = match part {
        Part::Root(index) => format!(in alloc; "component_{index}")?,
        Part::Addition(index) => format!(in alloc; "addition_{index}")?,
        Part::Grouped {
            addition,
            component,
        } => format!(in alloc; "addition_{addition}_{component}")?,
    };
    Ok(CowStr::Owned(text))
}

/// The name of an alternative: its identifier, or one by its index.
pub(crate) fn alternative_label<'a>(
    alloc: Global,
    name: Option<&'a str>,
    chosen: Chosen,
) -> Result<CowStr<'a>, AllocError> {
    if let Some(name) = present(name) {
        return Ok(CowStr::Borrowed(name));
    }
    let index = chosen.place;
    let text = if chosen.added {
        format!(in alloc; "addition_{index}")?
    } else {
        format!(in alloc; "alternative_{index}")?
    };
    Ok(CowStr::Owned(text))
}

/// The name of an item: its identifier, or the digits of its number.
pub(crate) fn item_label<'a>(
    alloc: Global,
    name: Option<&'a str>,
    item: isize,
) -> Result<CowStr<'a>, AllocError> {
    match present(name) {
        Some(name) => Ok(CowStr::Borrowed(name)),
        None => Ok(CowStr::Owned(number_text(alloc, &Integer::from(item))?)),
    }
}

/// A name, if it is not empty.
fn present(name: Option<&str>) -> Option<&str> {
    match name {
        Some(name) if !name.is_empty() => Some(name),
        _ => None,
    }
}
