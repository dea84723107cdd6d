//! Numbers, by themselves or by name.
ghost use Rattle.std.specs.Prelude.{◌≡◌};

use crate::errors::{NotationError, Problem};
use crate::instances::{Given, given_for};
use crate::references::defined_type;
use crate::scopes::{Files, MOST_STEPS, Scope, Symbol, TypeUse};
use asn1_notation_tree::{
    AssignmentKind, Name, NamedNumber, Reference, TypeKind, ValueIndex, ValueKind,
};

/// A value, and the module in which it is written.
#[derive(Clone, Copy, PartialEq, Eq, PartialOrd, Ord)]
pub struct ValueUse {
    /// The module.
    pub scope: Scope,
    /// The index of its term.
    pub index: ValueIndex,
}

impl ValueUse {
    /// An error at the value; at the first lexical item of its file, if there is no such value.
    pub fn error(self, files: &Files<'_, '_>, problem: Problem) -> NotationError
        ensures file { result.file ≡ self.scope.file }
        ensures problem { result.problem ≡ problem }
    {
        let place = match files.value_term(self.scope, self.index) {
            Ok(term) => term.place,
            Err(_) => 0,
        };
        self.scope.error(place, problem)
    }
}

/// The named number of an INTEGER or BIT STRING, or of items with given numbers, if it has this name.
pub fn named<'a>(numbers: &'a [NamedNumber], name: &str) -> Option<&'a NamedNumber> {
    for number in numbers {
        if number.name.text.as_str() == name {
            return Some(number);
        }
    }
    None
}

/// The value that a name stands for (X.680 17.5, X.683 8.4), after the name of its module if that is given.
///
/// # Errors
///
/// Those of `Files::find`. At the name, `UnknownValue` where it is no value's, and `Parameterised` where the value has
/// parameters. Those of `check_governor`.
pub fn value_named(
    files: &Files<'_, '_>,
    scope: Scope,
    module: Option<&Name>,
    name: &Name,
) -> Result<ValueUse, NotationError> {
    match given_for(files, scope, module, name) {
        Some(Given::Value(at)) => return Ok(at),
        Some(Given::Type(_) | Given::Class(_) | Given::Objects) => return Err(scope.error(
            name.place,
            Problem::UnknownValue,
        )),
        None => {}
    }
    let symbol = files.find(scope, module, name, Problem::UnknownValue)?;
    let defined = defined_value(files, symbol);
    let (governor, at) = defined.map_err(|problem| scope.error(name.place, problem))?;
    check_governor(files, governor, at)?;
    governed(files, governor, at)
}

/// A value of an assignment or of a parameter, by its governor: that of a named number of an INTEGER, if it is the name
/// of one (X.680 19.10).
///
/// # Errors
///
/// Those of `Files::value_term` and `Files::type_term`.
pub fn governed(
    files: &Files<'_, '_>,
    governor: TypeUse,
    value: ValueUse,
) -> Result<ValueUse, NotationError> {
    let ValueKind::Reference(reference) = &files.value_term(value.scope, value.index)?.kind else {
        return Ok(value);
    };
    if reference.module.is_some() {
        return Ok(value);
    }
    let mut at = governor;
    for _ in 0..MOST_STEPS {
        match &files.type_term(at)?.kind {
            TypeKind::Integer(numbers) => {
                return Ok(
                    match named(numbers.as_slice(), reference.name.text.as_str()) {
                        Some(number) => ValueUse {
                            scope: at.scope,
                            index: number.number,
                        },
                        None => value,
                    },
                );
            }
            TypeKind::Tagged(_, inner) => at.index = *inner,
            TypeKind::Reference(reference) => match type_named(files, at.scope, reference) {
                Some(next) => at = next,
                None => return Ok(value),
            },
            _ => return Ok(value),
        }
    }
    Ok(value)
}

/// The type that a name stands for, if it stands for one without parameters.
fn type_named(files: &Files<'_, '_>, scope: Scope, reference: &Reference) -> Option<TypeUse> {
    if !reference.parameters.is_empty() {
        return None;
    }
    let module = reference.module.as_ref();
    let found = files.find(scope, module, &reference.name, Problem::UnknownType);
    defined_type(files, found.ok()?)
}

/// Refuses a value in a notation that values of its governor, the type of an assignment or of a parameter, do not have
/// (X.680 16.2, X.683 9.6).
///
/// # Errors
///
/// `ValueOfOtherType` at the value.
pub fn check_governor(
    files: &Files<'_, '_>,
    governor: TypeUse,
    value: ValueUse,
) -> Result<(), NotationError> {
    let kind = &files.type_term(governor)?.kind;
    let term = files.value_term(value.scope, value.index)?;
    if may_be(kind, &term.kind) {
        return Ok(());
    }
    Err(value.scope.error(term.place, Problem::ValueOfOtherType))
}

/// Whether a value in this notation may be one of a type of a kind (X.680 17.7). A reference may be one of any kind.
pub fn may_be(kind: &TypeKind, value: &ValueKind) -> bool {
    match kind {
        _ if matches!(value, ValueKind::Reference(_) | ValueKind::OfObject) => true,
        TypeKind::Boolean => matches!(value, ValueKind::Boolean(_)),
        TypeKind::Null => matches!(value, ValueKind::Null),
        TypeKind::Integer(_) => matches!(value, ValueKind::Number(_)),
        TypeKind::Enumerated(_) => false,
        TypeKind::BitString(_) => {
            is_string_of_digits(value)
                || matches!(value, ValueKind::List(_) | ValueKind::Containing(_))
        }
        TypeKind::OctetString => {
            is_string_of_digits(value) || matches!(value, ValueKind::Containing(_))
        }
        TypeKind::CharacterString(_) => matches!(value, ValueKind::Text(_) | ValueKind::List(_)),
        TypeKind::ObjectIdentifier | TypeKind::Sequence(_) | TypeKind::Set(_) => {
            matches!(value, ValueKind::List(_) | ValueKind::Arcs(_))
        }
        TypeKind::SequenceOf(_) | TypeKind::SetOf(_) => matches!(value, ValueKind::List(_)),
        TypeKind::Choice(_) => matches!(value, ValueKind::Choice(..)),
        TypeKind::Tagged(..) | TypeKind::Reference(_) | TypeKind::Selection(..) => true,
        TypeKind::Unsupported(_) => true,
    }
}

/// Whether a value is a bstring or an hstring.
fn is_string_of_digits(value: &ValueKind) -> bool {
    matches!(value, ValueKind::Binary(_) | ValueKind::Hexadecimal(_))
}

/// The value that a reference stands for (X.680 17.5).
///
/// # Errors
///
/// `Parameterised` at a reference with actual parameters. Those of `value_named`.
pub fn next_of(
    files: &Files<'_, '_>,
    scope: Scope,
    reference: &Reference,
) -> Result<ValueUse, NotationError> {
    if !reference.parameters.is_empty() {
        return Err(scope.error(reference.name.place, Problem::Parameterised));
    }
    value_named(files, scope, reference.module.as_ref(), &reference.name)
}

/// The value that an assignment defines, after its type.
fn defined_value(files: &Files<'_, '_>, symbol: Symbol) -> Result<(TypeUse, ValueUse), Problem> {
    let Some(assignment) = files.assignment(symbol) else {
        return Err(Problem::UnknownValue);
    };
    let scope = symbol.scope;
    match &assignment.kind {
        AssignmentKind::Value(..) if !assignment.parameters.is_empty() => {
            Err(Problem::Parameterised)
        }
        AssignmentKind::Value(governor, value) => Ok((
            TypeUse {
                scope,
                index: *governor,
            },
            ValueUse {
                scope,
                index: *value,
            },
        )),
        _ => Err(Problem::UnknownValue),
    }
}

/// A value after its references (X.680 17.5), at most 64.
///
/// # Errors
///
/// `Circular` at the value, if there are more. At the name of one of them, those of `Files::find`, `UnknownValue` where
/// it is no value's, and `Parameterised` where it has parameters. `ValueOfOtherType` at a value that the type of its
/// assignment does not have, `ValueOfObject` at that of a field of an object.
pub fn settled(files: &Files<'_, '_>, start: ValueUse) -> Result<ValueUse, NotationError> {
    let mut at = start;
    for _ in 0..MOST_STEPS {
        match &files.value_term(at.scope, at.index)?.kind {
            ValueKind::Reference(reference) => at = next_of(files, at.scope, reference)?,
            ValueKind::OfObject => return Err(at.error(files, Problem::ValueOfObject)),
            _ => return Ok(at),
        }
    }
    Err(start.error(files, Problem::Circular))
}

/// A number, by itself or by the name of a value (X.680 19.9).
///
/// # Errors
///
/// Those of `settled`, and `ValueOfOtherType` at the value if it is no number.
pub fn number_of(files: &Files<'_, '_>, start: ValueUse) -> Result<i128, NotationError> {
    let at = settled(files, start)?;
    match files.value_term(at.scope, at.index)?.kind {
        ValueKind::Number(number) => Ok(number),
        _ => Err(start.error(files, Problem::ValueOfOtherType)),
    }
}

/// A number of an INTEGER, by itself, by one of its own names, or by the name of a value (X.680 19.9 and 19.10). The
/// names are those of a module.
///
/// # Errors
///
/// Those of `settled`, and `ValueOfOtherType` at the value if it is no number.
pub fn integer_of(
    files: &Files<'_, '_>,
    names: Scope,
    numbers: &[NamedNumber],
    value: ValueUse,
) -> Result<i128, NotationError> {
    let mut at = value;
    for _ in 0..MOST_STEPS {
        match &files.value_term(at.scope, at.index)?.kind {
            ValueKind::Number(number) => return Ok(*number),
            ValueKind::Reference(reference) => {
                if let Some(number) = named(numbers, reference.name.text.as_str()) {
                    let index = number.number;
                    let scope = names;
                    return number_of(files, ValueUse { scope, index });
                }
                at = next_of(files, at.scope, reference)?;
            }
            _ => {
                settled(files, at)?;
                return Err(value.error(files, Problem::ValueOfOtherType));
            }
        }
    }
    Err(value.error(files, Problem::Circular))
}
