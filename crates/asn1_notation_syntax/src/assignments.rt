//! Assignments (X.680 16, X.681 9 to 12, X.683 8).
use crate::classes::{read_built_in, read_class_fields, see_built_in, see_object};
use crate::constraints::read_specification;
use crate::types::read_type;
use asn1_notation_parsing::{MAXIMUM_DEPTH, Parsed, Parser, read_value};
use asn1_notation_tokens::{ItemKind, Symbol, Word};
use asn1_notation_tree::{Assignment, AssignmentKind, Expected, Parameter, TypeIndex, TypeKind};

/// An assignment that begins at the next item.
pub fn read_assignment(parser: &mut Parser<'_>) -> Parsed<Assignment> {
    let is_capital = match parser.peek() {
        ItemKind::Reference => true,
        ItemKind::Identifier => false,
        _ => return Err(parser.expected(Expected::Assignment)),
    };
    let name = parser.take_name()?;
    let parameters = read_parameters(parser)?;
    let kind = if !is_capital {
        read_value_assignment(parser)?
    } else if parser.eat(Symbol::Assignment) {
        read_type_assignment(parser)?
    } else {
        read_set_assignment(parser)?
    };
    Ok(Assignment {
        name,
        parameters,
        kind,
    })
}

/// The parameters of an assignment, in braces, if there are any.
fn read_parameters(parser: &mut Parser<'_>) -> Parsed<Vec<Parameter>> {
    let mut parameters = Vec::new(parser.alloc);
    if !parser.eat(Symbol::LeftBrace) {
        return Ok(parameters);
    }
    for _ in 0..parser.left() {
        parameters.push(read_parameter(parser)?)?;
        if !parser.eat(Symbol::Comma) {
            break;
        }
    }
    parser.end_list(Symbol::RightBrace)?;
    Ok(parameters)
}

/// A parameter, after its governor and a colon if that is given (X.683 8.2).
fn read_parameter(parser: &mut Parser<'_>) -> Parsed<Parameter> {
    let governor = match parser.peek_after(1) {
        ItemKind::Symbol(Symbol::Comma | Symbol::RightBrace) => None,
        _ => {
            let governor = read_type(parser, MAXIMUM_DEPTH)?;
            parser.expect(Symbol::Colon)?;
            Some(governor)
        }
    };
    let name = match parser.peek() {
        ItemKind::Reference | ItemKind::Identifier => parser.take_name()?,
        _ => return Err(parser.expected(Expected::Symbolic)),
    };
    Ok(Parameter { governor, name })
}

/// What comes after `::=` and a name with a capital letter: a type, or a class.
fn read_type_assignment(parser: &mut Parser<'_>) -> Parsed<AssignmentKind> {
    if parser.eat_word(Word::Class) {
        return Ok(AssignmentKind::ObjectClass(read_class_fields(parser)?));
    }
    if see_built_in(parser) {
        return Ok(AssignmentKind::ObjectClass(read_built_in(parser)?));
    }
    Ok(AssignmentKind::Type(read_type(parser, MAXIMUM_DEPTH)?))
}

/// What comes after a name with a small letter: the type of a value or the class of an object, and that.
fn read_value_assignment(parser: &mut Parser<'_>) -> Parsed<AssignmentKind> {
    let governor = read_type(parser, MAXIMUM_DEPTH)?;
    parser.expect(Symbol::Assignment)?;
    if may_be_class(parser, governor) && see_object(parser) {
        parser.skip_braces()?;
        return Ok(AssignmentKind::Object(governor));
    }
    let value = read_value(parser, MAXIMUM_DEPTH)?;
    Ok(AssignmentKind::Value(governor, value))
}

/// What comes after a name with a capital letter that `::=` does not follow: a type or a class, and a set.
fn read_set_assignment(parser: &mut Parser<'_>) -> Parsed<AssignmentKind> {
    let governor = match parser.peek() {
        ItemKind::Reference | ItemKind::Word(_) => read_type(parser, MAXIMUM_DEPTH)?,
        _ => return Err(parser.expected(Expected::Symbol(Symbol::Assignment))),
    };
    parser.expect(Symbol::Assignment)?;
    if may_be_class(parser, governor) && !see_values(parser) {
        parser.skip_braces()?;
        return Ok(AssignmentKind::ObjectSet(governor));
    }
    parser.expect(Symbol::LeftBrace)?;
    let values = read_specification(parser, MAXIMUM_DEPTH)?;
    parser.expect(Symbol::RightBrace)?;
    Ok(AssignmentKind::ValueSet(governor, values))
}

/// Whether a type is a name without small letters and without constraints, so that it may be a class (X.681 7.1).
fn may_be_class(parser: &Parser<'_>, place: TypeIndex) -> bool {
    match parser.types.get(place) {
        Some(term) => match &term.kind {
            TypeKind::Reference(reference) if term.constraints.is_empty() => {
                let name = reference.name.text.as_bytes();
                !name.iter().any(|letter| letter.is_ascii_lowercase())
            }
            _ => false,
        },
        None => false,
    }
}

/// Whether the braces at the next item begin with a value that is no name, and so hold no information objects.
fn see_values(parser: &Parser<'_>) -> bool {
    match parser.peek_after(1) {
        ItemKind::Number(_) | ItemKind::RealNumber | ItemKind::Symbol(Symbol::Minus) => true,
        ItemKind::CharacterString | ItemKind::BinaryString | ItemKind::HexadecimalString => true,
        _ => false,
    }
}
