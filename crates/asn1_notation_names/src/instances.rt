//! Parameterised types with their actual parameters (X.683): a type is the same wherever these are the same.
use crate::errors::{NotationError, Problem};
use crate::numbers::{ValueUse, settled};
use crate::scopes::{Files, Scope, Symbol, TypeUse};
use asn1_notation_tree::{Name, ValueKind};

/// How deep the uses of parameterised types in parameterised types are followed.
const MOST_LEVELS: usize = 64;

/// How many parameterised types with their actual parameters there are at most.
const MOST_INSTANCES: usize = 4_096;

/// What is given for a parameter (X.683 9.5).
#[derive(Clone, Copy)]
pub enum Given {
    /// A type.
    Type(TypeUse),
    /// A value.
    Value(ValueUse),
    /// An information object class, by its assignment.
    Class(Symbol),
    /// An information object, or a set of them. It is not kept: types do not depend on it.
    Objects,
}

/// What an actual parameter is, however it is written; or the parameterised assignment, before them.
#[derive(Clone, Copy, PartialEq, Eq, PartialOrd, Ord)]
pub enum Key {
    /// A parameterised assignment, or that of a class.
    Definition(Symbol),
    /// A type, after references without constraints.
    Type(TypeUse),
    /// A value that is no number, after references.
    Value(ValueUse),
    /// A number.
    Number(i128),
    /// Any information objects.
    Objects,
}

/// A parameterised assignment with actual parameters.
#[derive(Drop)]
pub struct Instance {
    symbol: Symbol,
    given: Vec<Given>,
    /// In how many instances it is used, itself included.
    levels: usize,
}

/// What a value is, however it is written.
pub fn value_key(files: &Files<'_, '_>, value: ValueUse) -> Key {
    let at = match settled(files, value) {
        Ok(at) => at,
        Err(_) => return Key::Value(value),
    };
    match files.value_term(at.scope, at.index) {
        Ok(term) => match term.kind {
            ValueKind::Number(number) => Key::Number(number),
            _ => Key::Value(at),
        },
        Err(_) => Key::Value(at),
    }
}

/// What is given for the parameter with a name, if it has no module before it and is one of the assignment around it
/// (X.683 8.4).
pub fn given_for(
    files: &Files<'_, '_>,
    scope: Scope,
    module: Option<&Name>,
    name: &Name,
) -> Option<Given> {
    if module.is_some() {
        return None;
    }
    let instance = files.instances.get(scope.instance?)?;
    let assignment = files.assignment(instance.symbol)?;
    for (parameter, given) in assignment.parameters.iter().zip(&instance.given) {
        if parameter.name.text.as_str() == name.text.as_str() {
            return Some(*given);
        }
    }
    None
}

/// The index of a parameterised assignment with actual parameters, which is new if their keys are met for the first
/// time. It is used at a lexical item of a module.
///
/// # Errors
///
/// At that item, `TooDeep` where it is used in 64 others, and `TooManyInstances` where there are 4,096.
pub fn instance_with(
    files: &mut Files<'_, '_>,
    scope: Scope,
    place: usize,
    symbol: Symbol,
    given: Vec<Given>,
    keys: Vec<Key>,
) -> Result<usize, NotationError> {
    if let Some(index) = files.known_instances.get(keys.as_slice()) {
        return Ok(*index);
    }
    let levels = levels_in(files, scope).saturating_add(1);
    if levels > MOST_LEVELS {
        return Err(scope.error(place, Problem::TooDeep));
    }
    let index = files.instances.len();
    if index >= MOST_INSTANCES {
        return Err(scope.error(place, Problem::TooManyInstances));
    }
    files.instances.push(Instance {
        symbol,
        given,
        levels,
    })?;
    files.known_instances.insert(keys, index)?;
    Ok(index)
}

/// In how many instances something is written.
fn levels_in(files: &Files<'_, '_>, scope: Scope) -> usize {
    let Some(index) = scope.instance else {
        return 0;
    };
    match files.instances.get(index) {
        Some(instance) => instance.levels,
        None => 0,
    }
}
