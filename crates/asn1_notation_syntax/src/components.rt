//! Components of SEQUENCE and SET, and alternatives of CHOICE (X.680 25.1, 27.1, 29.1).
use crate::types::read_type;
use asn1_notation_parsing::{Parsed, Parser, read_number, read_value, skip_exception};
use asn1_notation_tokens::{ItemKind, Symbol, Word};
use asn1_notation_tree::{
    Addition, AdditionGroup, Component, Components, Expected, Presence, ValueIndex,
};
use std::alloc::Global;

/// Components in braces. In a CHOICE alternatives: at least one, and none after a second extension marker (X.680 29.1).
#[cycle(types)]
pub fn read_components(
    parser: &mut Parser<'_>,
    depth: usize,
    is_choice: bool,
) -> Parsed<Components> {
    parser.expect(Symbol::LeftBrace)?;
    let mut components = no_components(parser.alloc);
    if !is_choice && parser.eat(Symbol::RightBrace) {
        return Ok(components);
    }
    let mut is_ended = false;
    for _ in 0..parser.left() {
        let may_extend = !is_ended && !(is_choice && components.root.is_empty());
        if may_extend && parser.sees(Symbol::Ellipsis) {
            parser.advance();
            skip_exception(parser, depth)?;
            is_ended = components.is_extensible;
            components.is_extensible = true;
        } else if is_ended {
            let component = read_component(parser, depth, is_choice)?;
            components.second_root.push(component)?;
        } else if components.is_extensible {
            let addition = read_addition(parser, depth, is_choice)?;
            components.additions.push(addition)?;
        } else {
            let component = read_component(parser, depth, is_choice)?;
            components.root.push(component)?;
        }
        if (is_choice && is_ended) || !parser.eat(Symbol::Comma) {
            break;
        }
    }
    if is_choice && is_ended {
        parser.expect(Symbol::RightBrace)?;
    } else {
        parser.end_list(Symbol::RightBrace)?;
    }
    Ok(components)
}

/// No components and no extension marker.
fn no_components(alloc: Global) -> Components {
    Components {
        root: Vec::new(alloc),
        is_extensible: false,
        additions: Vec::new(alloc),
        second_root: Vec::new(alloc),
    }
}

/// What comes after an extension marker: a component or a group.
#[cycle(types)]
fn read_addition(parser: &mut Parser<'_>, depth: usize, is_choice: bool) -> Parsed<Addition> {
    if parser.sees(Symbol::LeftVersionBrackets) {
        return Ok(Addition::Group(read_group(parser, depth, is_choice)?));
    }
    Ok(Addition::Single(read_component(parser, depth, is_choice)?))
}

/// An extension addition group in version brackets.
#[cycle(types)]
fn read_group(parser: &mut Parser<'_>, depth: usize, is_choice: bool) -> Parsed<AdditionGroup> {
    let place = parser.next;
    parser.expect(Symbol::LeftVersionBrackets)?;
    let mut group = AdditionGroup {
        place,
        version: read_version(parser)?,
        components: Vec::new(parser.alloc),
    };
    for _ in 0..parser.left() {
        let component = read_component(parser, depth, is_choice)?;
        group.components.push(component)?;
        if !parser.eat(Symbol::Comma) {
            break;
        }
    }
    parser.end_list(Symbol::RightVersionBrackets)?;
    Ok(group)
}

/// The version number of a group and the colon after it, if it is given.
fn read_version(parser: &mut Parser<'_>) -> Parsed<Option<ValueIndex>> {
    if parser.peek() == ItemKind::Identifier {
        return Ok(None);
    }
    match parser.peek() {
        ItemKind::Number(_) => {
            let version = read_number(parser)?;
            parser.expect(Symbol::Colon)?;
            Ok(Some(version))
        }
        _ => Ok(None),
    }
}

/// A component or an alternative.
#[cycle(types)]
fn read_component(parser: &mut Parser<'_>, depth: usize, is_choice: bool) -> Parsed<Component> {
    match parser.peek() {
        ItemKind::Identifier => {
            let name = parser.identifier()?;
            let component = read_type(parser, depth)?;
            if is_choice {
                return Ok(Component::Named(name, component, Presence::Required));
            }
            let presence = read_presence(parser, depth)?;
            Ok(Component::Named(name, component, presence))
        }
        ItemKind::Word(Word::Components) if !is_choice => {
            parser.advance();
            parser.expect_word(Word::Of)?;
            Ok(Component::ComponentsOf(read_type(parser, depth)?))
        }
        _ => Err(parser.expected(Expected::Component)),
    }
}

/// OPTIONAL or DEFAULT after a component, if it is there.
fn read_presence(parser: &mut Parser<'_>, depth: usize) -> Parsed<Presence> {
    if parser.eat_word(Word::Optional) {
        return Ok(Presence::Optional);
    }
    if parser.eat_word(Word::Default) {
        return Ok(Presence::Default(read_value(parser, depth)?));
    }
    Ok(Presence::Required)
}
