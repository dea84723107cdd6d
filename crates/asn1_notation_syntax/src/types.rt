//! Types (X.680 17.1).
use crate::classes::is_identifier_field;
use crate::collections::read_collection;
use crate::components::read_components;
use crate::constraints::read_constraints;
use crate::parameters::read_actual_parameters;
use asn1_notation_parsing::{
    Parsed, Parser, Refusal, read_fields, read_number, read_qualifier, read_simple,
    read_value_reference, see_field, see_value,
};
use asn1_notation_tokens::{ItemKind, Symbol, Word};
use asn1_notation_tree::{
    Expected, Name, Reference, TagClass, Tagging, TaggingMode, TypeIndex, TypeKind, TypeTerm,
    UnsupportedType,
};

/// A type that begins at the next item, nested at most this deep, with the constraints after it.
#[cycle(types)]
pub fn read_type(parser: &mut Parser<'_>, depth: usize) -> Parsed<TypeIndex> {
    let place = parser.next;
    if depth == 0 {
        return Err(Refusal::TooDeep(place));
    }
    let inner = depth - 1;
    let mut constraints = Vec::new(parser.alloc);
    let kind = match parser.peek() {
        ItemKind::Symbol(Symbol::LeftBracket) => {
            let tag = read_tag(parser)?;
            TypeKind::Tagged(tag, read_type(parser, inner)?)
        }
        ItemKind::Word(Word::Sequence | Word::Set) => {
            read_collection(parser, inner, &mut constraints)?
        }
        ItemKind::Word(Word::Choice) => {
            parser.advance();
            TypeKind::Choice(read_components(parser, inner, true)?)
        }
        ItemKind::Word(word) => read_simple(parser, word)?,
        ItemKind::Reference if !see_value(parser) => read_named(parser, inner)?,
        ItemKind::Identifier if parser.peek_after(1) == ItemKind::Symbol(Symbol::Less) => {
            let name = parser.identifier()?;
            parser.advance();
            TypeKind::Selection(name, read_type(parser, inner)?)
        }
        _ => read_type_of_object(parser)?,
    };
    read_constraints(parser, inner, &mut constraints)?;
    parser.add_type(TypeTerm {
        place,
        kind,
        constraints,
    })
}

/// A tag, and IMPLICIT or EXPLICIT after it (X.680 31.1).
fn read_tag(parser: &mut Parser<'_>) -> Parsed<Tagging> {
    parser.expect(Symbol::LeftBracket)?;
    let class = if parser.eat_word(Word::Universal) {
        TagClass::Universal
    } else if parser.eat_word(Word::Application) {
        TagClass::Application
    } else if parser.eat_word(Word::Private) {
        TagClass::Private
    } else {
        TagClass::Context
    };
    let number = read_number(parser)?;
    parser.expect(Symbol::RightBracket)?;
    let mode = if parser.eat_word(Word::Implicit) {
        Some(TaggingMode::Implicit)
    } else if parser.eat_word(Word::Explicit) {
        Some(TaggingMode::Explicit)
    } else {
        None
    };
    Ok(Tagging {
        class,
        number,
        mode,
    })
}

/// A type by its name, with its actual parameters, or a field of an information object class.
#[cycle(types)]
fn read_named(parser: &mut Parser<'_>, depth: usize) -> Parsed<TypeKind> {
    let module = read_qualifier(parser, ItemKind::Reference)?;
    let name = parser.reference()?;
    if parser.sees(Symbol::Dot) {
        let class = Reference {
            module,
            name,
            parameters: Vec::new(parser.alloc),
        };
        let fields = read_fields(parser)?;
        if is_identifier_field(&class, fields.as_slice()) {
            return Ok(TypeKind::ObjectIdentifier);
        }
        return Ok(TypeKind::Unsupported(UnsupportedType::Field(class, fields)));
    }
    let parameters = read_actual_parameters(parser, depth)?;
    Ok(TypeKind::Reference(Reference {
        module,
        name,
        parameters,
    }))
}

/// The type of a field of an information object (X.681 15).
fn read_type_of_object(parser: &mut Parser<'_>) -> Parsed<TypeKind> {
    let missing = parser.expected(Expected::Type);
    match parser.peek() {
        ItemKind::Identifier | ItemKind::Reference => {
            read_value_reference(parser)?;
        }
        _ => return Err(missing),
    }
    if !see_field(parser) {
        return Err(missing);
    }
    read_fields(parser)?;
    Ok(TypeKind::Unsupported(UnsupportedType::OfObject))
}
