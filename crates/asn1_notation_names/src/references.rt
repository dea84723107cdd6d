//! What references to types stand for (X.680 14.1, X.683 9).
use crate::classes::class_named;
use crate::errors::{NotationError, Problem};
use crate::instances::{Given, Key, given_for, instance_with, value_key};
use crate::numbers::{ValueUse, check_governor, governed};
use crate::scopes::{Files, MOST_STEPS, Scope, Symbol, TypeUse};
use asn1_notation_tree::{
    ActualParameter, AssignmentKind, Parameter, Reference, TypeKind, ValueKind,
};

/// The type that a reference stands for, and its assignment if it has one. Actual parameters are followed in this many
/// levels.
///
/// # Errors
///
/// Those of `Files::find`. At the name, `UnknownType` where it is no type's, `Parameters` where the actual parameters
/// are not those of the definition, `ParameterKind` where one is no type and no value, `TooDeep` and
/// `TooManyInstances`. At an actual parameter, `ParameterKind` and `Circular`; `ValueOfOtherType` where its governor
/// does not have it.
#[cycle(types)]
pub fn referenced(
    files: &mut Files<'_, '_>,
    scope: Scope,
    reference: &Reference,
    levels: u32,
) -> Result<(Option<Symbol>, TypeUse), NotationError> {
    let place = reference.name.place;
    let module = reference.module.as_ref();
    match given_for(files, scope, module, &reference.name) {
        Some(Given::Type(at)) if reference.parameters.is_empty() => return Ok((None, at)),
        Some(Given::Type(_)) => return Err(scope.error(place, Problem::Parameters)),
        Some(_) => return Err(scope.error(place, Problem::UnknownType)),
        None => {}
    }
    let symbol = files.find(scope, module, &reference.name, Problem::UnknownType)?;
    let mut at = match defined_type(files, symbol) {
        Some(at) => at,
        None => return Err(scope.error(place, Problem::UnknownType)),
    };
    at.scope.instance = instance_of(files, scope, reference, symbol, levels)?;
    Ok((Some(symbol), at))
}

/// The type that an assignment defines.
pub(crate) fn defined_type(files: &Files<'_, '_>, symbol: Symbol) -> Option<TypeUse> {
    match &files.assignment(symbol)?.kind {
        AssignmentKind::Type(index) | AssignmentKind::ValueSet(index, _) => Some(TypeUse {
            scope: symbol.scope,
            index: *index,
        }),
        _ => None,
    }
}

/// The type that an assignment without parameters defines.
///
/// # Errors
///
/// `Parameters` at the name of one with parameters, `UnknownType` at that of one that defines no type.
pub fn type_of_symbol(files: &Files<'_, '_>, symbol: Symbol) -> Result<TypeUse, NotationError> {
    let Some(assignment) = files.assignment(symbol) else {
        return Err(symbol.scope.error(0, Problem::UnknownType));
    };
    let place = assignment.name.place;
    if !assignment.parameters.is_empty() {
        return Err(symbol.scope.error(place, Problem::Parameters));
    }
    defined_type(files, symbol).ok_or(symbol.scope.error(place, Problem::UnknownType))
}

/// The instance of an assignment for a reference to it; none if it is not parameterised.
#[cycle(types)]
fn instance_of(
    files: &mut Files<'_, '_>,
    scope: Scope,
    reference: &Reference,
    symbol: Symbol,
    levels: u32,
) -> Result<Option<usize>, NotationError> {
    let place = reference.name.place;
    let Some(assignment) = files.assignment(symbol) else {
        return Err(scope.error(place, Problem::UnknownType));
    };
    let parameters = assignment.parameters.as_slice();
    if parameters.len() != reference.parameters.len() {
        return Err(scope.error(place, Problem::Parameters));
    }
    if parameters.is_empty() {
        return Ok(None);
    }
    if levels == 0 {
        return Err(scope.error(place, Problem::TooDeep));
    }
    let mut given = Vec::new(files.alloc);
    let mut keys = Vec::new(files.alloc);
    keys.push(Key::Definition(symbol))?;
    for (parameter, actual) in parameters.iter().zip(&reference.parameters) {
        let given_before = given.as_slice();
        let one = if has_class(files, symbol.scope, parameters, given_before, parameter)? {
            objects_by(scope, place, parameter, actual)?
        } else {
            given_by(files, scope, place, parameter, actual)?
        };
        let one = by_governor(files, symbol.scope, parameters, parameter, one)?;
        keys.push(key_of(files, one, levels - 1)?)?;
        given.push(one)?;
    }
    Ok(Some(instance_with(files, scope, place, symbol, given, keys)?))
}

/// What is given for a parameter of an assignment in a module, by the governor of the parameter if it is a value
/// (X.683 9.6) and the governor is not another parameter.
fn by_governor(
    files: &Files<'_, '_>,
    scope: Scope,
    parameters: &[Parameter],
    parameter: &Parameter,
    given: Given,
) -> Result<Given, NotationError> {
    let (Given::Value(value), Some(index)) = (given, parameter.governor) else {
        return Ok(given);
    };
    let governor = TypeUse { scope, index };
    check_governor(files, governor, value)?;
    match &files.type_term(governor)?.kind {
        TypeKind::Reference(reference) if is_parameter(parameters, reference) => Ok(given),
        _ => Ok(Given::Value(governed(files, governor, value)?)),
    }
}

/// What an actual parameter is, however it is written.
#[cycle(types)]
fn key_of(files: &mut Files<'_, '_>, given: Given, levels: u32) -> Result<Key, NotationError> {
    match given {
        Given::Objects => Ok(Key::Objects),
        Given::Value(value) => Ok(value_key(files, value)),
        Given::Type(at) => Ok(Key::Type(type_key(files, at, levels)?)),
        Given::Class(symbol) => Ok(Key::Definition(symbol)),
    }
}

/// A type after references without constraints.
#[cycle(types)]
fn type_key(
    files: &mut Files<'_, '_>,
    start: TypeUse,
    levels: u32,
) -> Result<TypeUse, NotationError> {
    let mut at = start;
    for _ in 0..MOST_STEPS {
        let term = files.type_term(at)?;
        match &term.kind {
            TypeKind::Reference(reference) if term.constraints.is_empty() => {
                let (_, next) = referenced(files, at.scope, reference, levels)?;
                at = next;
            }
            _ => return Ok(at),
        }
    }
    Err(start.error(files, Problem::Circular))
}

/// Whether a class governs a parameter of an assignment in a module (X.683 8.3), with what is given for the parameters
/// before it, of which the governor may be one.
fn has_class(
    files: &Files<'_, '_>,
    scope: Scope,
    parameters: &[Parameter],
    given: &[Given],
    parameter: &Parameter,
) -> Result<bool, NotationError> {
    let Some(index) = parameter.governor else {
        return Ok(false);
    };
    match &files.type_term(TypeUse { scope, index })?.kind {
        TypeKind::Reference(reference) if reference.is_built_in_class() => Ok(true),
        TypeKind::Reference(reference) if is_parameter(parameters, reference) => {
            Ok(is_class_given(parameters, given, reference))
        }
        TypeKind::Reference(reference) => {
            let class = class_named(files, scope, reference, Problem::UnknownType)?;
            Ok(class.is_some())
        }
        _ => Ok(false),
    }
}

/// Whether a reference is to one of the parameters of the assignment around it (X.683 8.4).
fn is_parameter(parameters: &[Parameter], reference: &Reference) -> bool {
    let name = reference.name.text.as_str();
    reference.module.is_none()
        && parameters
            .iter()
            .any(|parameter| parameter.name.text.as_str() == name)
}

/// Whether a class is given for the parameter with the name of a reference.
fn is_class_given(parameters: &[Parameter], given: &[Given], reference: &Reference) -> bool {
    let name = reference.name.text.as_str();
    for (parameter, given) in parameters.iter().zip(given) {
        if parameter.name.text.as_str() == name {
            return matches!(given, Given::Class(_));
        }
    }
    false
}

/// What is given for a parameter that a class governs: objects in braces, or the name of an object if the parameter has
/// a name with a small letter (X.683 9.5).
fn objects_by(
    scope: Scope,
    place: usize,
    parameter: &Parameter,
    actual: &ActualParameter,
) -> Result<Given, NotationError> {
    match actual {
        ActualParameter::Braces(_) => Ok(Given::Objects),
        ActualParameter::Value(_) if has_small_letter(parameter) => Ok(Given::Objects),
        _ => Err(scope.error(place, Problem::Parameters)),
    }
}

/// Whether the name of a parameter begins with a small letter, as those of values and objects do.
fn has_small_letter(parameter: &Parameter) -> bool {
    let first = parameter.name.text.as_bytes().first();
    first.is_some_and(|letter| letter.is_ascii_lowercase())
}

/// What is given for a parameter: a type, or a value if the parameter has a governor and a name with a small letter
/// (X.683 8.2). A parameter of the assignment around it is what is given for that.
fn given_by(
    files: &Files<'_, '_>,
    scope: Scope,
    place: usize,
    parameter: &Parameter,
    actual: &ActualParameter,
) -> Result<Given, NotationError> {
    let has_small_letter = has_small_letter(parameter);
    match actual {
        ActualParameter::Braces(place) => Err(scope.error(*place, Problem::ParameterKind)),
        ActualParameter::Type(index) if parameter.governor.is_none() => {
            let index = *index;
            given_type(files, TypeUse { scope, index })
        }
        ActualParameter::Value(index) if parameter.governor.is_some() && has_small_letter => {
            let index = *index;
            given_value(files, ValueUse { scope, index })
        }
        ActualParameter::Type(_) if !has_small_letter => {
            Err(scope.error(place, Problem::ParameterKind))
        }
        _ => Err(scope.error(place, Problem::Parameters)),
    }
}

/// A type or a class that is given for a parameter.
fn given_type(files: &Files<'_, '_>, at: TypeUse) -> Result<Given, NotationError> {
    let term = files.type_term(at)?;
    let TypeKind::Reference(reference) = &term.kind else {
        return Ok(Given::Type(at));
    };
    let module = reference.module.as_ref();
    match given_for(files, at.scope, module, &reference.name) {
        Some(given) if term.constraints.is_empty() => return Ok(given),
        Some(_) => return Ok(Given::Type(at)),
        None => {}
    }
    if let Some(class) = class_named(files, at.scope, reference, Problem::UnknownType)? {
        return Ok(Given::Class(class));
    }
    let symbol = files.find(at.scope, module, &reference.name, Problem::UnknownType)?;
    match defined_type(files, symbol) {
        Some(_) => Ok(Given::Type(at)),
        None => Err(at.scope.error(term.place, Problem::ParameterKind)),
    }
}

/// A value that is given for a parameter.
fn given_value(files: &Files<'_, '_>, value: ValueUse) -> Result<Given, NotationError> {
    let term = files.value_term(value.scope, value.index)?;
    let ValueKind::Reference(reference) = &term.kind else {
        return Ok(Given::Value(value));
    };
    match given_for(
        files,
        value.scope,
        reference.module.as_ref(),
        &reference.name,
    ) {
        Some(given) => Ok(given),
        None => Ok(Given::Value(value)),
    }
}
