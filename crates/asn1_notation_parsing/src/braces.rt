//! Object identifiers in braces (X.680 32.3).
use crate::parser::Parser;
use crate::refusals::Parsed;
use crate::values::read_number;
use asn1_notation_tokens::{ItemKind, Symbol};
use asn1_notation_tree::{Arc, ValueIndex, ValueKind};

/// Whether the braces at the next item hold the parts of an object identifier, and have no other form.
pub fn see_arcs(parser: &Parser<'_>) -> bool {
    match parser.peek_after(1) {
        ItemKind::Number(_) => see_part(parser, 2),
        ItemKind::Identifier if is_opening(parser.peek_after(2)) => true,
        ItemKind::Identifier => {
            is_part(parser.peek_after(2))
                && (see_part(parser, 3) || is_opening(parser.peek_after(3)))
        }
        ItemKind::Reference => {
            parser.peek_after(2) == ItemKind::Symbol(Symbol::Dot)
                && parser.peek_after(3) == ItemKind::Identifier
                && see_part(parser, 4)
        }
        _ => false,
    }
}

/// Whether the item that comes this many items after the next one is a part of an object identifier, or begins one, as
/// the module of a value does.
fn see_part(parser: &Parser<'_>, count: usize) -> bool {
    let kind = parser.peek_after(count);
    let after = parser.peek_after(count.saturating_add(1));
    is_part(kind) || (kind == ItemKind::Reference && after == ItemKind::Symbol(Symbol::Dot))
}

/// Whether an item is a part of an object identifier, or begins one.
fn is_part(kind: ItemKind) -> bool {
    matches!(kind, ItemKind::Number(_) | ItemKind::Identifier)
}

/// Whether an item is an opening parenthesis.
fn is_opening(kind: ItemKind) -> bool {
    kind == ItemKind::Symbol(Symbol::LeftParenthesis)
}

/// The parts of an object identifier in braces, at least one.
pub fn read_arcs(parser: &mut Parser<'_>) -> Parsed<ValueKind> {
    parser.expect(Symbol::LeftBrace)?;
    let mut arcs = Vec::new(parser.alloc);
    arcs.push(read_arc(parser)?)?;
    for _ in 0..parser.left() {
        if parser.sees(Symbol::RightBrace) {
            break;
        }
        arcs.push(read_arc(parser)?)?;
    }
    parser.expect(Symbol::RightBrace)?;
    Ok(ValueKind::Arcs(arcs))
}

/// A part of an object identifier.
fn read_arc(parser: &mut Parser<'_>) -> Parsed<Arc> {
    if parser.peek() != ItemKind::Identifier || !is_opening(parser.peek_after(1)) {
        let number = read_number(parser)?;
        return Ok(Arc { name: None, number });
    }
    let name = parser.identifier()?;
    parser.expect(Symbol::LeftParenthesis)?;
    let number = read_number(parser)?;
    parser.expect(Symbol::RightParenthesis)?;
    Ok(Arc {
        name: Some(name),
        number,
    })
}

/// The object identifier of a module, if one is given (X.680 13.1): in braces.
pub fn read_module_identifier(parser: &mut Parser<'_>) -> Parsed<Option<ValueIndex>> {
    if !parser.sees(Symbol::LeftBrace) {
        return Ok(None);
    }
    let place = parser.next;
    let kind = read_arcs(parser)?;
    Ok(Some(parser.add_value(place, kind)?))
}
