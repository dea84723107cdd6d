//! Enumerations and named numbers (X.680 19.1, 20.1, 22.1).
use crate::parser::{MAXIMUM_DEPTH, Parser};
use crate::refusals::Parsed;
use crate::values::{read_number, skip_exception};
use asn1_notation_tokens::Symbol;
use asn1_notation_tree::{Enumeration, EnumerationItem, NamedNumber};

/// The named numbers or named bits at the next item, if there are any.
pub fn read_named_numbers(parser: &mut Parser<'_>) -> Parsed<Vec<NamedNumber>> {
    let mut numbers = Vec::new(parser.alloc);
    if !parser.eat(Symbol::LeftBrace) {
        return Ok(numbers);
    }
    for _ in 0..parser.left() {
        let name = parser.identifier()?;
        parser.expect(Symbol::LeftParenthesis)?;
        let number = read_number(parser)?;
        parser.expect(Symbol::RightParenthesis)?;
        numbers.push(NamedNumber { name, number })?;
        if !parser.eat(Symbol::Comma) {
            break;
        }
    }
    parser.end_list(Symbol::RightBrace)?;
    Ok(numbers)
}

/// The items of an ENUMERATED, in braces.
pub fn read_enumeration(parser: &mut Parser<'_>) -> Parsed<Enumeration> {
    parser.expect(Symbol::LeftBrace)?;
    let mut enumeration = Enumeration {
        root: read_items(parser, true)?,
        is_extensible: false,
        additions: Vec::new(parser.alloc),
    };
    if parser.eat(Symbol::Ellipsis) {
        enumeration.is_extensible = true;
        skip_exception(parser, MAXIMUM_DEPTH)?;
        if parser.eat(Symbol::Comma) {
            enumeration.additions = read_items(parser, false)?;
        }
    }
    parser.end_list(Symbol::RightBrace)?;
    Ok(enumeration)
}

/// Items separated by commas, up to an extension marker after a comma if one may come.
fn read_items(parser: &mut Parser<'_>, may_extend: bool) -> Parsed<Vec<EnumerationItem>> {
    let mut items = Vec::new(parser.alloc);
    for _ in 0..parser.left() {
        items.push(read_item(parser)?)?;
        if !parser.eat(Symbol::Comma) || (may_extend && parser.sees(Symbol::Ellipsis)) {
            break;
        }
    }
    Ok(items)
}

/// An item, with its number if that is given.
fn read_item(parser: &mut Parser<'_>) -> Parsed<EnumerationItem> {
    let name = parser.identifier()?;
    if !parser.eat(Symbol::LeftParenthesis) {
        return Ok(EnumerationItem { name, number: None });
    }
    let number = read_number(parser)?;
    parser.expect(Symbol::RightParenthesis)?;
    Ok(EnumerationItem {
        name,
        number: Some(number),
    })
}
