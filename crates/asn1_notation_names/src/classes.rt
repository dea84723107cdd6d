//! Fields of information object classes (X.681).
use crate::errors::{NotationError, Problem};
use crate::instances::{Given, given_for};
use crate::scopes::{Files, MOST_STEPS, Scope, Symbol, TypeUse};
use asn1_notation_tree::{AssignmentKind, ClassField, Name, Reference, TypeKind};

/// The class that a reference in a module stands for (X.681 9.2, X.683 8.4), if it stands for one.
///
/// # Errors
///
/// Those of `Files::find`, with the problem that is given if nothing has the name; `Circular`.
pub fn class_named(
    files: &Files<'_, '_>,
    scope: Scope,
    reference: &Reference,
    missing: Problem,
) -> Result<Option<Symbol>, NotationError> {
    let mut scope = scope;
    let mut reference = reference;
    for _ in 0..MOST_STEPS {
        let module = reference.module.as_ref();
        match given_for(files, scope, module, &reference.name) {
            Some(Given::Class(symbol)) => return Ok(Some(symbol)),
            Some(_) => return Ok(None),
            None => {}
        }
        let symbol = files.find(scope, module, &reference.name, missing)?;
        let Some(assignment) = files.assignment(symbol) else {
            return Ok(None);
        };
        let index = match &assignment.kind {
            AssignmentKind::ObjectClass(_) => return Ok(Some(symbol)),
            AssignmentKind::Type(index) => *index,
            _ => return Ok(None),
        };
        scope = symbol.scope;
        match class_in(files, TypeUse { scope, index }) {
            Some(next) => reference = next,
            None => return Ok(None),
        }
    }
    Err(scope.error(reference.name.place, Problem::Circular))
}

/// The type of the values of a field of a class (X.681 14), by the names of the fields that lead to it; none if it is
/// an open type.
///
/// # Errors
///
/// `UnknownClass` or `UnknownField` at a name that stands for no class, or for no field of it; `UnsupportedType` at the
/// name of a set of objects, and at the other fields of TYPE-IDENTIFIER and ABSTRACT-SYNTAX than their open types;
/// those of `Files::find`.
pub fn type_of_field(
    files: &Files<'_, '_>,
    scope: Scope,
    class: &Reference,
    names: &[Name],
) -> Result<Option<TypeUse>, NotationError> {
    if class.is_built_in_class() {
        return match names {
            [name] if name.text.as_str() == "&Type" => Ok(None),
            _ => Err(scope.error(class.name.place, Problem::UnsupportedType)),
        };
    }
    let mut at = scope;
    let mut class = class;
    let mut fixed = None;
    for name in names {
        if let Some(field) = fixed {
            class = class_in(files, field).ok_or(scope.error(name.place, Problem::UnknownField))?;
        }
        let Some(symbol) = class_named(files, at, class, Problem::UnknownClass)? else {
            return Err(at.error(class.name.place, no_class(files, at, class)));
        };
        let Some(field) = field_of(files, symbol, name) else {
            return Err(scope.error(name.place, Problem::UnknownField));
        };
        let Some(index) = field.fixed else {
            return Ok(None);
        };
        at = symbol.scope;
        fixed = Some(TypeUse { scope: at, index });
    }
    Ok(fixed)
}

/// What is wrong with a reference that stands for no class: the types of the objects in a set are not supported
/// (X.681 15).
fn no_class(files: &Files<'_, '_>, scope: Scope, reference: &Reference) -> Problem {
    let module = reference.module.as_ref();
    let found = match files.find(scope, module, &reference.name, Problem::UnknownClass) {
        Ok(symbol) => files.assignment(symbol),
        Err(_) => None,
    };
    match found {
        Some(assignment) if matches!(assignment.kind, AssignmentKind::ObjectSet(_)) => {
            Problem::UnsupportedType
        }
        _ => Problem::UnknownClass,
    }
}

/// The reference that stands in the place of a type, which may be one to a class.
fn class_in<'a>(files: &Files<'a, '_>, at: TypeUse) -> Option<&'a Reference> {
    match files.type_term(at) {
        Ok(term) => match &term.kind {
            TypeKind::Reference(reference) => Some(reference),
            _ => None,
        },
        Err(_) => None,
    }
}

/// The field of a class with a name.
fn field_of<'a>(files: &Files<'a, '_>, class: Symbol, name: &Name) -> Option<&'a ClassField> {
    let AssignmentKind::ObjectClass(fields) = &files.assignment(class)?.kind else {
        return None;
    };
    let text = name.text.as_str();
    fields.iter().find(|field| field.name.text.as_str() == text)
}
