//! SEQUENCE, SET, SEQUENCE OF and SET OF (X.680 25 to 28).
use crate::components::read_components;
use crate::constraints::{read_elements, read_parenthesized};
use crate::types::read_type;
use asn1_notation_parsing::{Parsed, Parser};
use asn1_notation_tokens::{ItemKind, Symbol, Word};
use asn1_notation_tree::{ConstraintIndex, Element, TypeKind};

/// What begins with SEQUENCE or SET, the next item. The constraint before OF is added to the constraints.
#[cycle(types)]
pub fn read_collection(
    parser: &mut Parser<'_>,
    depth: usize,
    constraints: &mut Vec<ConstraintIndex>,
) -> Parsed<TypeKind> {
    let is_set = parser.sees_word(Word::Set);
    parser.advance();
    if parser.sees(Symbol::LeftBrace) {
        let components = read_components(parser, depth, false)?;
        return Ok(if is_set {
            TypeKind::Set(components)
        } else {
            TypeKind::Sequence(components)
        });
    }
    if parser.sees(Symbol::LeftParenthesis) {
        constraints.push(read_parenthesized(parser, depth)?)?;
    } else if parser.sees_word(Word::Size) {
        constraints.push(read_elements(parser, depth)?)?;
    }
    parser.expect_word(Word::Of)?;
    let name = if is_named(parser) {
        Some(parser.identifier()?)
    } else {
        None
    };
    let element = Element {
        name,
        element: read_type(parser, depth)?,
    };
    Ok(if is_set {
        TypeKind::SetOf(element)
    } else {
        TypeKind::SequenceOf(element)
    })
}

/// Whether the next item is the name of an element, and begins no selection type and no type of an object.
fn is_named(parser: &Parser<'_>) -> bool {
    parser.peek() == ItemKind::Identifier
        && !matches!(
            parser.peek_after(1),
            ItemKind::Symbol(Symbol::Less | Symbol::Dot)
        )
}
