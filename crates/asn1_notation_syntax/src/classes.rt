//! Information object classes and objects (X.681 9 to 12).
use crate::types::read_type;
use asn1_notation_parsing::{MAXIMUM_DEPTH, Parsed, Parser};
use asn1_notation_tokens::{ItemKind, Symbol, Word};
use asn1_notation_tree::{
    ClassField, Expected, Name, Reference, TypeIndex, TypeKind, TypeTerm, is_built_in_class,
};

/// Whether fields of a class are the one that identifies the objects of a class that each module has, an OBJECT
/// IDENTIFIER.
pub fn is_identifier_field(class: &Reference, fields: &[Name]) -> bool {
    match fields {
        [field] if class.is_built_in_class() => field.text.as_str() == "&id",
        _ => false,
    }
}

/// Whether the next item is the name of a class that each module has, and no field follows it.
pub fn see_built_in(parser: &Parser<'_>) -> bool {
    is_built_in_class(parser.octets()) && parser.peek_after(1) != ItemKind::Symbol(Symbol::Dot)
}

/// The fields of a class that each module has, whose name is the next item: `&id` and `&Type`.
pub fn read_built_in(parser: &mut Parser<'_>) -> Parsed<Vec<ClassField>> {
    let place = parser.next;
    parser.advance();
    let identifier = parser.add_type(TypeTerm {
        place,
        kind: TypeKind::ObjectIdentifier,
        constraints: Vec::new(parser.alloc),
    })?;
    let mut fields = Vec::new(parser.alloc);
    fields.push(ClassField {
        name: Name {
            text: String::from_str(parser.alloc, "&id")?,
            place,
        },
        fixed: Some(identifier),
    })?;
    fields.push(ClassField {
        name: Name {
            text: String::from_str(parser.alloc, "&Type")?,
            place,
        },
        fixed: None,
    })?;
    Ok(fields)
}

/// The fields of a class, in braces, and its syntax after WITH SYNTAX, which is not kept.
pub fn read_class_fields(parser: &mut Parser<'_>) -> Parsed<Vec<ClassField>> {
    parser.expect(Symbol::LeftBrace)?;
    let mut fields = Vec::new(parser.alloc);
    for _ in 0..parser.left() {
        fields.push(read_class_field(parser)?)?;
        if !parser.eat(Symbol::Comma) {
            break;
        }
    }
    parser.end_list(Symbol::RightBrace)?;
    if parser.eat_word(Word::With) {
        parser.expect_word(Word::Syntax)?;
        parser.skip_braces()?;
    }
    Ok(fields)
}

/// A field of a class: its name, and the type of its values if it is given.
fn read_class_field(parser: &mut Parser<'_>) -> Parsed<ClassField> {
    if parser.peek() != ItemKind::Field {
        return Err(parser.expected(Expected::Field));
    }
    let name = parser.take_name()?;
    let fixed = read_fixed_type(parser)?;
    skip_field(parser);
    Ok(ClassField { name, fixed })
}

/// The type of the values of a field, if it is given.
fn read_fixed_type(parser: &mut Parser<'_>) -> Parsed<Option<TypeIndex>> {
    match parser.peek() {
        ItemKind::Word(Word::Optional | Word::Default | Word::Unique) => Ok(None),
        ItemKind::Word(_) | ItemKind::Reference | ItemKind::Symbol(Symbol::LeftBracket) => {
            Ok(Some(read_type(parser, MAXIMUM_DEPTH)?))
        }
        _ => Ok(None),
    }
}

/// Goes past what is left of a field: UNIQUE, OPTIONAL, DEFAULT and what follows it, or another field.
fn skip_field(parser: &mut Parser<'_>) {
    let mut open: usize = 0;
    for _ in 0..parser.left() {
        match parser.peek() {
            ItemKind::Symbol(Symbol::LeftBrace) => open = open.saturating_add(1),
            ItemKind::Symbol(Symbol::RightBrace | Symbol::Comma) if open == 0 => return,
            ItemKind::Symbol(Symbol::RightBrace) => open = open.saturating_sub(1),
            _ => {}
        }
        parser.advance();
    }
}

/// Whether the braces at the next item hold an information object: they begin with a field, with a capital letter and
/// no value, or with a number or a name before a word of its class (X.681 10.6).
pub fn see_object(parser: &Parser<'_>) -> bool {
    see_object_after(parser, 0)
}

/// The same of the braces that come this many items after the next one.
pub fn see_object_after(parser: &Parser<'_>, count: usize) -> bool {
    let first = count.saturating_add(1);
    let second = count.saturating_add(2);
    if parser.peek_after(count) != ItemKind::Symbol(Symbol::LeftBrace) {
        return false;
    }
    match parser.peek_after(first) {
        ItemKind::Field => true,
        ItemKind::Reference => !matches!(
            parser.peek_after(second),
            ItemKind::Symbol(Symbol::Dot | Symbol::Colon)
        ),
        ItemKind::Word(_) => !matches!(
            parser.peek_after(second),
            ItemKind::Symbol(Symbol::Comma | Symbol::Dot | Symbol::Colon | Symbol::RightBrace)
        ),
        ItemKind::Number(_) => parser.peek_after(second) == ItemKind::Reference,
        ItemKind::Identifier if parser.peek_after(second) == ItemKind::Reference => !matches!(
            parser.peek_after(count.saturating_add(3)),
            ItemKind::Symbol(
                Symbol::Dot | Symbol::Colon | Symbol::LeftBrace | Symbol::LeftParenthesis,
            )
        ),
        _ => false,
    }
}
