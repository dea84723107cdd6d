//! Constraints of the parts of a value (X.680 51.8), which neither PER nor OER sees.
use crate::constraints::read_parenthesized;
use asn1_notation_parsing::{Parsed, Parser};
use asn1_notation_tokens::{Symbol, Word};
use asn1_notation_tree::{ComponentConstraint, PresenceConstraint, UnseenConstraint};

/// What comes after WITH: COMPONENT and a constraint, or COMPONENTS and those of each.
#[cycle(types)]
pub fn read_inner(parser: &mut Parser<'_>, depth: usize) -> Parsed<UnseenConstraint> {
    if parser.eat_word(Word::Component) {
        let constraint = read_parenthesized(parser, depth)?;
        return Ok(UnseenConstraint::WithComponent(constraint));
    }
    parser.expect_word(Word::Components)?;
    parser.expect(Symbol::LeftBrace)?;
    let mut constraints = Vec::new(parser.alloc);
    if parser.eat(Symbol::Ellipsis) {
        parser.expect(Symbol::Comma)?;
    }
    for _ in 0..parser.left() {
        constraints.push(read_component_constraint(parser, depth)?)?;
        if !parser.eat(Symbol::Comma) {
            break;
        }
    }
    parser.end_list(Symbol::RightBrace)?;
    Ok(UnseenConstraint::WithComponents(constraints))
}

/// The name of a component, its constraint if there is one, and whether it is there if that is given.
#[cycle(types)]
fn read_component_constraint(parser: &mut Parser<'_>, depth: usize) -> Parsed<ComponentConstraint> {
    let name = parser.identifier()?;
    let constraint = if parser.sees(Symbol::LeftParenthesis) {
        Some(read_parenthesized(parser, depth)?)
    } else {
        None
    };
    let presence = if parser.eat_word(Word::Present) {
        Some(PresenceConstraint::Present)
    } else if parser.eat_word(Word::Absent) {
        Some(PresenceConstraint::Absent)
    } else if parser.eat_word(Word::Optional) {
        Some(PresenceConstraint::Optional)
    } else {
        None
    };
    Ok(ComponentConstraint {
        name,
        constraint,
        presence,
    })
}
