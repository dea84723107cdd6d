//! Values (X.680 17.7).
ghost use Rattle.std.specs.Prelude.{◌≡◌};

use crate::braces::{read_arcs, see_arcs};
use crate::parser::Parser;
use crate::references::{read_fields, read_value_reference, see_field, see_value, skip_type};
use crate::refusals::{Parsed, Refusal};
use crate::strings::{characters_of, digits_of};
use asn1_notation_tokens::{ItemKind, Symbol, Word};
use asn1_notation_tree::{Expected, ListElement, ValueIndex, ValueKind};

/// A value that begins at the next item, nested at most this deep.
///
/// # Errors
///
/// The first item that the notation does not allow there, or that is nested deeper; and `OutOfMemory`.
#[cycle(value)]
pub fn read_value(parser: &mut Parser<'_>, depth: usize) -> Parsed<ValueIndex>
    ensures { depth ≡ 0 → result ≡ Err (Refusal.TooDeep parser.old.next) }
{
    let place = parser.next;
    if depth == 0 {
        return Err(Refusal::TooDeep(place));
    }
    let inner = depth - 1;
    let kind = match parser.peek() {
        ItemKind::Symbol(Symbol::LeftBrace) if see_arcs(parser) => read_arcs(parser)?,
        ItemKind::Symbol(Symbol::LeftBrace) => read_list(parser, inner)?,
        ItemKind::Identifier if parser.peek_after(1) == ItemKind::Symbol(Symbol::Colon) => {
            let name = parser.identifier()?;
            parser.advance();
            ValueKind::Choice(name, read_value(parser, inner)?)
        }
        ItemKind::Word(Word::Containing) => {
            parser.advance();
            ValueKind::Containing(read_value(parser, inner)?)
        }
        _ if see_typed(parser) => {
            skip_type(parser);
            if !parser.eat(Symbol::Colon) {
                return Err(Refusal::Unexpected(Expected::Value, place));
            }
            ValueKind::Typed(read_value(parser, inner)?)
        }
        _ => read_plain(parser)?,
    };
    parser.add_value(place, kind)
}

/// What is in braces, separated by commas.
#[cycle(value)]
fn read_list(parser: &mut Parser<'_>, depth: usize) -> Parsed<ValueKind> {
    parser.expect(Symbol::LeftBrace)?;
    let mut elements = Vec::new(parser.alloc);
    if parser.eat(Symbol::RightBrace) {
        return Ok(ValueKind::List(elements));
    }
    for _ in 0..parser.left() {
        elements.push(read_element(parser, depth)?)?;
        if !parser.eat(Symbol::Comma) {
            break;
        }
    }
    parser.end_list(Symbol::RightBrace)?;
    Ok(ValueKind::List(elements))
}

/// An element in braces: a value, or a name and a value.
#[cycle(value)]
fn read_element(parser: &mut Parser<'_>, depth: usize) -> Parsed<ListElement> {
    let name = if see_name(parser) {
        Some(parser.identifier()?)
    } else {
        None
    };
    let value = read_value(parser, depth)?;
    Ok(ListElement { name, value })
}

/// Whether the next items are an identifier and a value.
fn see_name(parser: &Parser<'_>) -> bool {
    if parser.peek() != ItemKind::Identifier {
        return false;
    }
    match parser.peek_after(1) {
        ItemKind::Symbol(Symbol::LeftBrace | Symbol::Minus) => true,
        ItemKind::Symbol(_) | ItemKind::End => false,
        _ => true,
    }
}

/// Whether the next items are a type, which a colon and a value follow.
fn see_typed(parser: &Parser<'_>) -> bool {
    match parser.peek() {
        ItemKind::Word(word) => {
            !is_value_word(word) || parser.peek_after(1) == ItemKind::Symbol(Symbol::Colon)
        }
        ItemKind::Reference => !see_value(parser),
        _ => false,
    }
}

/// Whether a reserved word is a value.
pub fn is_value_word(word: Word) -> bool {
    match word {
        Word::True | Word::False | Word::Null => true,
        Word::PlusInfinity | Word::MinusInfinity | Word::NotANumber => true,
        _ => false,
    }
}

/// A value without values in it.
fn read_plain(parser: &mut Parser<'_>) -> Parsed<ValueKind> {
    match parser.peek() {
        ItemKind::Word(word) => read_word(parser, word),
        ItemKind::Symbol(Symbol::Minus) => read_negative(parser),
        ItemKind::Identifier | ItemKind::Reference => {
            let reference = read_value_reference(parser)?;
            if see_field(parser) {
                read_fields(parser)?;
                return Ok(ValueKind::OfObject);
            }
            Ok(ValueKind::Reference(reference))
        }
        kind => {
            let value = match kind {
                ItemKind::Number(number) => ValueKind::Number(number),
                ItemKind::RealNumber => ValueKind::Real,
                ItemKind::CharacterString => {
                    ValueKind::Text(characters_of(parser.alloc, parser.octets())?)
                }
                ItemKind::BinaryString => {
                    ValueKind::Binary(digits_of(parser.alloc, parser.octets())?)
                }
                ItemKind::HexadecimalString => {
                    ValueKind::Hexadecimal(digits_of(parser.alloc, parser.octets())?)
                }
                _ => return Err(parser.expected(Expected::Value)),
            };
            parser.advance();
            Ok(value)
        }
    }
}

/// A value that is a reserved word.
fn read_word(parser: &mut Parser<'_>, word: Word) -> Parsed<ValueKind> {
    let value = match word {
        Word::True => ValueKind::Boolean(true),
        Word::False => ValueKind::Boolean(false),
        Word::Null => ValueKind::Null,
        Word::PlusInfinity | Word::MinusInfinity | Word::NotANumber => ValueKind::Real,
        _ => return Err(parser.expected(Expected::Value)),
    };
    parser.advance();
    Ok(value)
}

/// A number after `-`.
fn read_negative(parser: &mut Parser<'_>) -> Parsed<ValueKind> {
    parser.expect(Symbol::Minus)?;
    let value = match parser.peek() {
        ItemKind::Number(number) => ValueKind::Number(number.saturating_neg()),
        ItemKind::RealNumber => ValueKind::Real,
        _ => return Err(parser.expected(Expected::Number)),
    };
    parser.advance();
    Ok(value)
}

/// A number or the name of one (X.680 19.1, 20.1, 31.2).
pub fn read_number(parser: &mut Parser<'_>) -> Parsed<ValueIndex> {
    let place = parser.next;
    let kind = match parser.peek() {
        ItemKind::Number(_) | ItemKind::Symbol(Symbol::Minus) => read_plain(parser)?,
        ItemKind::Identifier => ValueKind::Reference(read_value_reference(parser)?),
        ItemKind::Reference if see_value(parser) => {
            ValueKind::Reference(read_value_reference(parser)?)
        }
        _ => return Err(parser.expected(Expected::Number)),
    };
    parser.add_value(place, kind)
}

/// An exception specification, if one is there (X.680 53.4). It is not kept.
pub fn skip_exception(parser: &mut Parser<'_>, depth: usize) -> Parsed<()> {
    if parser.eat(Symbol::Exclamation) {
        read_value(parser, depth)?;
    }
    Ok(())
}
