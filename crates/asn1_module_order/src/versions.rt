//! Why a type is no newer version of another, with the places in both at which they differ.
ghost use Rattle.std.specs.Prelude.{◌≡◌};
ghost use Rattle.asn1_module_order.specs.Errors.{IsOfVersions};

use crate::errors::ModuleError;
use asn1_notation_types::Table;
use asn1_schema_tags::Chosen;
use asn1_table_extending::{Difference, ExtendingError};
use asn1_table_json_writing::{Step, push_step};
use asn1_table_names::{Names, Part, is_group};
use asn1_table_tape::{elements_at, lists_at};
use asn1_table_types::{Alternative, Component, TypeNode, Types};
use std::alloc::{AllocError, Global};

/// The error of two types of which one does not extend the other.
pub fn not_extended(
    alloc: Global,
    older: &Table,
    newer: &Table,
    error: ExtendingError,
) -> ModuleError
    ensures versions { IsOfVersions result }
    ensures memory { (error ≡ ExtendingError.OutOfMemory) → (result ≡ ModuleError.OutOfMemory) }
{
    let ExtendingError::NotExtended {
        newer: new_place,
        older: old_place,
        difference,
    } = error
    else {
        return ModuleError::OutOfMemory;
    };
    match explained(alloc, (older, old_place), (newer, new_place), difference) {
        Ok(problem) => ModuleError::NotExtended { problem },
        Err(_) => ModuleError::OutOfMemory,
    }
}

/// Which two types of tables, at these indices, differ, and how.
fn explained(
    alloc: Global,
    older: (&Table, usize),
    newer: (&Table, usize),
    difference: Difference,
) -> Result<String, AllocError> {
    let new_path = path_to(alloc, newer.0, newer.1)?;
    let old_path = path_to(alloc, older.0, older.1)?;
    format!(in alloc; "{new_path} does not extend the older {old_path}: {difference}")
}

/// The path from the type of a table to a type at an index, and the name of that one in parentheses if it has one.
fn path_to(alloc: Global, table: &Table, place: usize) -> Result<String, AllocError> {
    let (types, names) = (&table.types, &table.names);
    if types.node(place).is_none() {
        return String::from_str(alloc, "a type without values");
    }
    let steps = steps_to(alloc, types, table.place, place)?;
    let mut path = String::new(alloc);
    push_step(
        alloc,
        types,
        names,
        &mut path,
        Step::Named(name_of(names, table.place)),
    )?;
    for step in steps.iter().rev() {
        push_step(alloc, types, names, &mut path, *step)?;
    }
    let name = name_of(names, place);
    if place != table.place && !name.is_empty() {
        write!(path, " ({name})")?;
    }
    Ok(path)
}

/// The name of a type, empty if it has none.
fn name_of(names: &Names, place: usize) -> &str {
    names.type_name(place).unwrap_or("")
}

/// The steps of a path from one type to another, the last one first. Each type is taken as a part of the first type of
/// the table that has it.
fn steps_to(
    alloc: Global,
    types: &Types,
    from: usize,
    to: usize,
) -> Result<Vec<Step<'static>>, AllocError> {
    let mut steps = Vec::new(alloc);
    let mut place = to;
    for _ in 0..types.nodes().len() {
        if place == from {
            break;
        }
        let Some((owner, step)) = step_to(types, place) else {
            break;
        };
        // A group of additions has no name.
        if !is_group(types, place) {
            steps.push(step)?;
        }
        place = owner;
    }
    Ok(steps)
}

/// The first type that has a part of the type at an index, and the step to that part.
fn step_to(types: &Types, place: usize) -> Option<(usize, Step<'static>)> {
    for owner in 0..types.nodes().len() {
        if let Some(step) = step_between(types, owner, place) {
            return Some((owner, step));
        }
    }
    None
}

/// The step from a type to a part of it, which has the type at an index.
fn step_between(types: &Types, owner: usize, place: usize) -> Option<Step<'static>> {
    if elements_at(types, owner) == Some(place) {
        return Some(Step::Element(0));
    }
    if let Some(TypeNode::Choice(table)) = types.node(owner) {
        let chosen = match alternative_with(table.root.as_slice(), place) {
            Some(index) => Chosen::root(index),
            None => Chosen::addition(alternative_with(table.additions.as_slice(), place)?),
        };
        return Some(Step::Alternative(owner, chosen));
    }
    let lists = lists_at(types, owner)?;
    let part = match component_with(lists.root(), place) {
        Some(index) => Part::Root(index),
        None => Part::Addition(component_with(lists.additions(), place)?),
    };
    Some(Step::Component(owner, part))
}

/// The index of the first component with the type at an index.
fn component_with(components: &[Component], place: usize) -> Option<usize> {
    components
        .iter()
        .position(|component| component.place == place)
}

/// The index of the first alternative with the type at an index.
fn alternative_with(alternatives: &[Alternative], place: usize) -> Option<usize> {
    alternatives
        .iter()
        .position(|alternative| alternative.place == place)
}
