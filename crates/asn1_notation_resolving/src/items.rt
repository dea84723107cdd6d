//! The items of an ENUMERATED, and their numbers (X.680 20).
use asn1_notation_names::{
    Files, MOST_STEPS, NameSet, NotationError, Problem, Scope, ValueUse, next_of, number_of,
    settled,
};
use asn1_notation_rules::{ItemError, ItemFlaw, added_numbers, root_numbers};
use asn1_notation_tree::{Enumeration, EnumerationItem, Name, ValueKind};
use std::alloc::Global;

/// An item with its number.
#[derive(Clone, Copy)]
pub struct Numbered<'a> {
    /// Its name.
    pub name: &'a Name,
    /// Its number.
    pub number: isize,
}

/// The items of an ENUMERATED with their numbers.
#[derive(Drop)]
pub struct Numbers<'a> {
    /// The root items, their numbers ascending.
    pub root: Vec<Numbered<'a>>,
    /// The added items, in the order of the text, which is that of their numbers.
    pub additions: Vec<Numbered<'a>>,
}

impl Numbers<'_> {
    /// The number of the item with a name.
    pub fn find(&self, name: &str) -> Option<isize> {
        for item in self.root.iter().chain(&self.additions) {
            if item.name.text.as_str() == name {
                return Some(item.number);
            }
        }
        None
    }
}

/// The number that is given for an item, if one is.
fn given(
    files: &Files<'_, '_>,
    scope: Scope,
    item: &EnumerationItem,
) -> Result<Option<isize>, NotationError> {
    let Some(index) = item.number else {
        return Ok(None);
    };
    let number = number_of(files, ValueUse { scope, index })?;
    match isize::try_from(number) {
        Ok(number) => Ok(Some(number)),
        Err(_) => Err(scope.error(item.name.place, Problem::ItemNumber)),
    }
}

/// The numbers that are given for items.
fn all_given(
    alloc: Global,
    files: &Files<'_, '_>,
    scope: Scope,
    items: &[EnumerationItem],
) -> Result<Vec<Option<isize>>, NotationError> {
    let mut numbers = Vec::new(alloc);
    for item in items {
        numbers.push(given(files, scope, item)?)?;
    }
    Ok(numbers)
}

/// An error at the item that it names.
fn item_error(scope: Scope, items: &[EnumerationItem], error: ItemError) -> NotationError {
    match error {
        ItemError::OutOfMemory => NotationError::new(Problem::OutOfMemory),
        ItemError::Flawed { index, flaw } => {
            let place = match items.get(index) {
                Some(item) => item.name.place,
                None => 0,
            };
            let problem = match flaw {
                ItemFlaw::Twice => Problem::NumberTwice,
                ItemFlaw::NotAscending => Problem::ItemOrder,
                ItemFlaw::NoNumber => Problem::ItemNumber,
            };
            scope.error(place, problem)
        }
    }
}

/// Items with their numbers.
fn joined<'a>(
    alloc: Global,
    items: &'a [EnumerationItem],
    numbers: &[isize],
) -> Result<Vec<Numbered<'a>>, NotationError> {
    let mut all = Vec::new(alloc);
    for (item, number) in items.iter().zip(numbers) {
        all.push(Numbered {
            name: &item.name,
            number: *number,
        })?;
    }
    Ok(all)
}

/// Refuses items of which two have one name (X.680 20.2).
fn check_names(alloc: Global, scope: Scope, items: &Enumeration) -> Result<(), NotationError> {
    let mut names = NameSet::new(alloc);
    for item in items.root.iter().chain(&items.additions) {
        names.add(scope, item.name.place, &item.name)?;
    }
    Ok(())
}

/// All items with their numbers (X.680 20).
///
/// # Errors
///
/// At the name of an item, `NameTwice`, `NumberTwice`, `ItemOrder` and `ItemNumber`. Those of `number_of`.
pub fn numbers_of<'a>(
    alloc: Global,
    files: &Files<'_, '_>,
    scope: Scope,
    items: &'a Enumeration,
) -> Result<Numbers<'a>, NotationError> {
    check_names(alloc, scope, items)?;
    let root = items.root.as_slice();
    let given = all_given(alloc, files, scope, root)?;
    let taken = root_numbers(alloc, given.as_slice()).map_err(|error| item_error(
        scope, root, error,
    ))?;
    let added = items.additions.as_slice();
    let given = all_given(alloc, files, scope, added)?;
    let numbers = added_numbers(alloc, taken.as_slice(), given.as_slice()).map_err(
        |error| item_error(scope, added, error),
    )?;
    let additions = joined(alloc, added, numbers.as_slice())?;
    let mut root = joined(alloc, root, taken.as_slice())?;
    root.sort_by_key(|item| item.number)?;
    Ok(Numbers { root, additions })
}

/// The number of an item of an ENUMERATED, by its name or by that of a value (X.680 20.8).
///
/// # Errors
///
/// Those of `settled`, and `ValueOfOtherType` at the value if it is no item.
pub fn item_of(
    files: &Files<'_, '_>,
    items: &Numbers<'_>,
    value: ValueUse,
) -> Result<isize, NotationError> {
    let mut at = value;
    for _ in 0..MOST_STEPS {
        let ValueKind::Reference(reference) = &files.value_term(at.scope, at.index)?.kind else {
            settled(files, at)?;
            return Err(value.error(files, Problem::ValueOfOtherType));
        };
        if let Some(number) = items.find(reference.name.text.as_str()) {
            return Ok(number);
        }
        at = next_of(files, at.scope, reference)?;
    }
    Err(value.error(files, Problem::Circular))
}
