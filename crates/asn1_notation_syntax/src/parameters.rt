//! Actual parameters (X.683 9.5).
use crate::types::read_type;
use asn1_notation_parsing::{Parsed, Parser, read_value, see_selection, see_value};
use asn1_notation_tokens::{ItemKind, Symbol, Word};
use asn1_notation_tree::ActualParameter;

/// Actual parameters in braces, if there are any.
#[cycle(types)]
pub fn read_actual_parameters(
    parser: &mut Parser<'_>,
    depth: usize,
) -> Parsed<Vec<ActualParameter>> {
    let mut parameters = Vec::new(parser.alloc);
    if !parser.eat(Symbol::LeftBrace) {
        return Ok(parameters);
    }
    for _ in 0..parser.left() {
        parameters.push(read_actual_parameter(parser, depth)?)?;
        if !parser.eat(Symbol::Comma) {
            break;
        }
    }
    parser.end_list(Symbol::RightBrace)?;
    Ok(parameters)
}

/// An actual parameter: what is in braces, a type, or else a value.
#[cycle(types)]
fn read_actual_parameter(parser: &mut Parser<'_>, depth: usize) -> Parsed<ActualParameter> {
    match parser.peek() {
        ItemKind::Symbol(Symbol::LeftBrace) => {
            let place = parser.next;
            parser.skip_braces()?;
            Ok(ActualParameter::Braces(place))
        }
        ItemKind::Word(Word::True | Word::False) => {
            Ok(ActualParameter::Value(read_value(parser, depth)?))
        }
        ItemKind::Reference if see_value(parser) => {
            Ok(ActualParameter::Value(read_value(parser, depth)?))
        }
        ItemKind::Reference | ItemKind::Word(_) | ItemKind::Symbol(Symbol::LeftBracket) => {
            Ok(ActualParameter::Type(read_type(parser, depth)?))
        }
        _ if see_selection(parser) => Ok(ActualParameter::Type(read_type(parser, depth)?)),
        _ => Ok(ActualParameter::Value(read_value(parser, depth)?)),
    }
}
