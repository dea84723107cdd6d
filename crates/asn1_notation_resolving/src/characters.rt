//! The characters of strings, as text or by their numbers (X.680 41.8).
use asn1_notation_names::{Files, NotationError, Problem, Scope, ValueUse, settled};
use asn1_notation_tree::{ListElement, ValueKind};
use std::alloc::Global;
use std::str;

/// The characters of a string by their numbers: those of a text, one that is given by numbers, or several of these in
/// braces.
///
/// # Errors
///
/// `ValueOfOtherType` at a value that is none of these. Those of `settled`.
pub fn characters_of(
    alloc: Global,
    files: &Files<'_, '_>,
    value: ValueUse,
) -> Result<Vec<u32>, NotationError> {
    let mut characters = Vec::new(alloc);
    let at = settled(files, value)?;
    match &files.value_term(at.scope, at.index)?.kind {
        ValueKind::List(parts) if !begins_with_number(files, at.scope, parts.as_slice())? => {
            for part in parts {
                let scope = at.scope;
                let index = part.value;
                add_part(files, ValueUse { scope, index }, &mut characters)?;
            }
        }
        _ => add_part(files, value, &mut characters)?,
    }
    Ok(characters)
}

/// Whether the first element of a list is a number.
fn begins_with_number(
    files: &Files<'_, '_>,
    scope: Scope,
    elements: &[ListElement],
) -> Result<bool, NotationError> {
    let Some(first) = elements.first() else {
        return Ok(false);
    };
    let kind = &files.value_term(scope, first.value)?.kind;
    Ok(matches!(kind, ValueKind::Number(_)))
}

/// Adds the characters of a text, or one that is given by numbers.
fn add_part(
    files: &Files<'_, '_>,
    value: ValueUse,
    characters: &mut Vec<u32>,
) -> Result<(), NotationError> {
    let at = settled(files, value)?;
    match &files.value_term(at.scope, at.index)?.kind {
        ValueKind::Text(octets) => match str::from_utf8(octets.as_slice()) {
            Ok(text) => {
                for character in text.chars() {
                    characters.push(u32::from(character))?;
                }
                return Ok(());
            }
            Err(_) => {}
        },
        ValueKind::List(numbers) => match numbered(files, at.scope, numbers.as_slice())? {
            Some(character) => return Ok(characters.push(character)?),
            None => {}
        },
        _ => {}
    }
    Err(value.error(files, Problem::ValueOfOtherType))
}

/// The character with a column and a row, or with a group, a plane, a row and a cell, if these are in range.
fn numbered(
    files: &Files<'_, '_>,
    scope: Scope,
    numbers: &[ListElement],
) -> Result<Option<u32>, NotationError> {
    let (mut limit, base): (u32, u32) = match numbers.len() {
        2 => (8, 16),
        4 => (128, 256),
        _ => return Ok(None),
    };
    let mut character: u32 = 0;
    for number in numbers {
        let digit = match &files.value_term(scope, number.value)?.kind {
            ValueKind::Number(digit) if number.name.is_none() => u32::try_from(*digit).ok(),
            _ => None,
        };
        match digit {
            Some(digit) if digit < limit => {
                character = character.saturating_mul(base).saturating_add(digit);
            }
            _ => return Ok(None),
        }
        limit = base;
    }
    Ok(Some(character))
}
