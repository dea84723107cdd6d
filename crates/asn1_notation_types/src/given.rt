//! The components that a value of a SEQUENCE or SET gives by their names (X.680 25.18 and 27).
use crate::parts::{is_last_of_group, is_required};
use crate::tables::Additions;
use asn1_notation_components::Parts;
use asn1_notation_resolving::{Files, NotationError, Problem, ValueUse, settled};
use asn1_notation_tree::ValueKind;
use std::alloc::{AllocError, Global};
use std::collections::BTreeMap;

/// The values that are given for the components of a type.
#[derive(Drop)]
pub(crate) struct Given {
    /// One for each component, in the order in which these are written: the additions are among the root components.
    values: Vec<Option<ValueUse>>,
    /// How many root components are before the additions.
    first: usize,
    /// How many additions there are.
    added: usize,
}

impl Given {
    /// No values.
    fn new(alloc: Global, parts: &Parts<'_>) -> Result<Self, AllocError> {
        let mut values = Vec::new(alloc);
        for _ in parts.root.iter().chain(&parts.additions) {
            values.push(None)?;
        }
        Ok(Given {
            values,
            first: parts.first,
            added: parts.additions.len(),
        })
    }

    /// Gives the component at a position a value, unless it has one.
    fn give(&mut self, position: usize, value: ValueUse) -> bool {
        match self.values.get_mut(position) {
            Some(known) if known.is_none() => {
                *known = Some(value);
                true
            }
            _ => false,
        }
    }

    /// The value of the root component at an index, if it is given.
    pub(crate) fn root(&self, index: usize) -> Option<ValueUse> {
        if index < self.first {
            return self.at(index);
        }
        self.at(index.checked_add(self.added)?)
    }

    /// The value of the addition at an index, if it is given.
    pub(crate) fn addition(&self, index: usize) -> Option<ValueUse> {
        self.at(index.checked_add(self.first)?)
    }

    /// The value of the component at a position, if it is given.
    fn at(&self, position: usize) -> Option<ValueUse> {
        self.values.get(position).copied().flatten()
    }

    /// Whether a component that may not be absent is not given. A group of additions may be absent as a whole.
    pub(crate) fn lacks_required(&self, parts: &Parts<'_>, additions: Additions) -> bool {
        for index in 0..parts.root.len() {
            if self.root(index).is_none()
                && is_required(parts.root[index].presence, additions, false)
            {
                return true;
            }
        }
        let mut is_there = false;
        let mut is_missed = false;
        for index in 0..parts.additions.len() {
            let part = parts.additions[index];
            let is_single = part.group.is_none();
            let is_given = self.addition(index).is_some();
            is_there = is_there || is_given || is_single;
            is_missed = is_missed
                || (!is_given && is_required(part.presence, additions, is_single));
            if is_last_of_group(parts, index) {
                if is_there && is_missed {
                    return true;
                }
                is_there = false;
                is_missed = false;
            }
        }
        false
    }
}

/// The values that a value gives for the components of a type. In a SEQUENCE they come in the order of the components
/// (X.680 25).
///
/// # Errors
///
/// `UnknownValue` at a name that no component has; `NameTwice` at one that was given before; `ValueOfOtherType` at a
/// name that is out of order, at a value without a name, and at a value that is no list.
pub(crate) fn given_parts(
    alloc: Global,
    files: &Files<'_, '_>,
    parts: &Parts<'_>,
    is_set: bool,
    value: ValueUse,
) -> Result<Given, NotationError> {
    let at = settled(files, value)?;
    let ValueKind::List(elements) = &files.value_term(at.scope, at.index)?.kind else {
        return Err(value.error(files, Problem::ValueOfOtherType));
    };
    let positions = positions_of(alloc, parts)?;
    let mut given = Given::new(alloc, parts)?;
    let mut last = 0;
    for element in elements {
        let one = ValueUse {
            scope: at.scope,
            index: element.value,
        };
        let Some(name) = &element.name else {
            return Err(one.error(files, Problem::ValueOfOtherType));
        };
        let Some(position) = positions.get(name.text.as_str()).copied() else {
            return Err(at.scope.error(name.place, Problem::UnknownValue));
        };
        if !given.give(position, one) {
            return Err(at.scope.error(name.place, Problem::NameTwice));
        }
        if !is_set && position < last {
            return Err(at.scope.error(name.place, Problem::ValueOfOtherType));
        }
        last = position;
    }
    Ok(given)
}

/// The positions of components by their names, as these are written: the additions are among the root components.
fn positions_of<'a>(
    alloc: Global,
    parts: &Parts<'a>,
) -> Result<BTreeMap<&'a str, usize>, AllocError> {
    let mut positions = BTreeMap::new(alloc);
    let first = parts.root.iter().take(parts.first);
    let later = parts.root.iter().skip(parts.first);
    for part in first.chain(&parts.additions).chain(later) {
        let position = positions.len();
        positions.insert(part.name.text.as_str(), position)?;
    }
    Ok(positions)
}
