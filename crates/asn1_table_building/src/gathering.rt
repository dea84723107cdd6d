//! The events of a SEQUENCE or SET, of components that were given in any order.
#![tactic(auto, using(std::proofs::lemmas::Grind::common_steps))]

use crate::StepError;
use asn1_table_names::{Part, is_group};
use asn1_table_tape::{
    Event, count_optional, is_always_there, is_default, is_empty_group, lists_at,
};
use asn1_table_types::{Component, TypeNode, Types};
use std::alloc::Global;

/// A component that was given.
#[derive(Drop)]
pub struct Given {
    /// Which one it is.
    pub part: Part,
    /// The events of its value.
    pub value: Vec<Event>,
}

/// Takes a component out of those that were given, if it is there.
fn take(given: &mut Vec<Given>, part: Part) -> Option<Vec<Event>> {
    let index = given.iter().position(|one| one.part == part)?;
    if index < given.len() {
        let Given { value, .. } = given.swap_remove(index);
        return Some(value);
    }
    None
}

/// The events of the SEQUENCE or SET at an index of a table, of these components. Those at their defaults are left out.
pub fn gather(
    alloc: Global,
    types: &Types,
    place: usize,
    given: Vec<Given>,
) -> Result<Vec<Event>, StepError> {
    let Some(lists) = lists_at(types, place) else {
        return Err(StepError::OutOfPlace);
    };
    let mut given = given;
    let mut events = Vec::new(alloc);
    let optional = count_optional(lists.root());
    events.push(if is_set(types, place) {
        Event::SetBegins(lists.is_extensible(), optional)
    } else {
        Event::SequenceBegins(lists.is_extensible(), optional)
    })?;
    for (index, component) in lists.root().iter().enumerate() {
        let part = Part::Root(index);
        put_component(&mut events, component, part, take(&mut given, part))?;
    }
    if lists.is_extensible() || !lists.additions().is_empty() {
        events.push(Event::AdditionsBegin(lists.additions().len()))?;
        for (index, component) in lists.additions().iter().enumerate() {
            let value = addition(alloc, types, index, component, &mut given)?;
            put_addition(&mut events, component, index, value)?;
        }
    }
    events.push(Event::Ends)?;
    Ok(events)
}

/// Whether a SET is at an index.
fn is_set(types: &Types, place: usize) -> bool {
    matches!(types.node(place), Some(TypeNode::Set(_)))
}

/// The value that is meant, unless it is the component's default.
fn unless_default(component: &Component, value: Option<Vec<Event>>) -> Option<Vec<Event>> {
    let value = value?;
    if is_default(&component.presence, value.as_slice()) {
        return None;
    }
    Some(value)
}

/// A root component, or one of a group: its presence bit, if it has one, and its value, if it is there.
fn put_component(
    events: &mut Vec<Event>,
    component: &Component,
    part: Part,
    value: Option<Vec<Event>>,
) -> Result<(), StepError> {
    let is_required = is_always_there(component);
    match unless_default(component, value) {
        Some(value) => {
            let mut value = value;
            if !is_required {
                events.push(Event::PresenceBit(true))?;
            }
            events.append(&mut value)?;
            Ok(())
        }
        None if is_required => Err(StepError::PartMissing(part)),
        None => {
            events.push(Event::PresenceBit(false))?;
            Ok(())
        }
    }
}

/// The value of an addition, if it was given; of a group those of its components.
fn addition(
    alloc: Global,
    types: &Types,
    index: usize,
    component: &Component,
    given: &mut Vec<Given>,
) -> Result<Option<Vec<Event>>, StepError> {
    if !is_group(types, component.place) {
        return Ok(take(given, Part::Addition(index)));
    }
    if !given.iter().any(|one| is_in_group(one.part, index)) {
        return Ok(None);
    }
    let group = gather_group(alloc, types, component.place, index, given)?;
    if is_empty_group(types, component.place, group.as_slice()) {
        return Ok(None);
    }
    Ok(Some(group))
}

/// Whether a component is one of the group at an index among the additions.
fn is_in_group(part: Part, index: usize) -> bool {
    match part {
        Part::Grouped { addition, .. } => addition == index,
        _ => false,
    }
}

/// The events of a group of additions.
fn gather_group(
    alloc: Global,
    types: &Types,
    place: usize,
    addition: usize,
    given: &mut Vec<Given>,
) -> Result<Vec<Event>, StepError> {
    let Some(lists) = lists_at(types, place) else {
        return Err(StepError::OutOfPlace);
    };
    let mut events = Vec::new(alloc);
    events.push(Event::GroupBegins(count_optional(lists.root())))?;
    for (component, described) in lists.root().iter().enumerate() {
        let part = Part::Grouped {
            addition,
            component,
        };
        put_component(&mut events, described, part, take(given, part))?;
    }
    events.push(Event::Ends)?;
    Ok(events)
}

/// An addition: whether it is there, its value, and its end.
fn put_addition(
    events: &mut Vec<Event>,
    component: &Component,
    index: usize,
    value: Option<Vec<Event>>,
) -> Result<(), StepError> {
    match unless_default(component, value) {
        Some(value) => {
            let mut value = value;
            events.push(Event::Addition(true))?;
            events.append(&mut value)?;
            events.push(Event::AdditionEnds)?;
            Ok(())
        }
        None if is_always_there(component) => Err(StepError::PartMissing(Part::Addition(index))),
        None => {
            events.push(Event::Addition(false))?;
            Ok(())
        }
    }
}
