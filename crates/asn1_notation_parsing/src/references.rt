//! Names of what is defined elsewhere (X.680 14.1, X.683 9).
use crate::parser::Parser;
use crate::refusals::Parsed;
use asn1_notation_tokens::{ItemKind, Symbol};
use asn1_notation_tree::{ActualParameter, Expected, Name, Reference};

/// The module before a dot, if the next items are one, a dot and an item of this kind.
pub fn read_qualifier(parser: &mut Parser<'_>, kind: ItemKind) -> Parsed<Option<Name>> {
    let is_qualified = parser.peek() == ItemKind::Reference
        && parser.peek_after(1) == ItemKind::Symbol(Symbol::Dot)
        && parser.peek_after(2) == kind;
    if !is_qualified {
        return Ok(None);
    }
    let module = parser.reference()?;
    parser.advance();
    Ok(Some(module))
}

/// Whether the next item, a name with a capital letter, is the module of a value.
pub fn see_value(parser: &Parser<'_>) -> bool {
    parser.peek_after(1) == ItemKind::Symbol(Symbol::Dot)
        && parser.peek_after(2) == ItemKind::Identifier
}

/// Whether the next items are an identifier and `<`, which begin a selection type (X.680 30.1), and no open end of a
/// range.
pub fn see_selection(parser: &Parser<'_>) -> bool {
    parser.peek() == ItemKind::Identifier
        && parser.peek_after(1) == ItemKind::Symbol(Symbol::Less)
        && parser.peek_after(2) != ItemKind::Symbol(Symbol::Range)
}

/// The actual parameters at the next item, if there are any, as braces.
pub fn skip_parameters(parser: &mut Parser<'_>) -> Parsed<Vec<ActualParameter>> {
    let mut parameters = Vec::new(parser.alloc);
    if parser.sees(Symbol::LeftBrace) {
        parameters.push(ActualParameter::Braces(parser.next))?;
        parser.skip_braces()?;
    }
    Ok(parameters)
}

/// The name of a value, after its module if that is given, with its actual parameters as braces.
pub fn read_value_reference(parser: &mut Parser<'_>) -> Parsed<Reference> {
    let module = read_qualifier(parser, ItemKind::Identifier)?;
    if parser.peek() != ItemKind::Identifier {
        return Err(parser.expected(Expected::Value));
    }
    let name = parser.take_name()?;
    let parameters = skip_parameters(parser)?;
    Ok(Reference {
        module,
        name,
        parameters,
    })
}

/// Whether the next items are a dot and the name of a field.
pub fn see_field(parser: &Parser<'_>) -> bool {
    parser.sees(Symbol::Dot) && parser.peek_after(1) == ItemKind::Field
}

/// The names of fields at the next item, each after a dot (X.681 14.1).
pub fn read_fields(parser: &mut Parser<'_>) -> Parsed<Vec<Name>> {
    let mut fields = Vec::new(parser.alloc);
    for _ in 0..parser.left() {
        if !parser.eat(Symbol::Dot) {
            break;
        }
        if parser.peek() != ItemKind::Field {
            return Err(parser.expected(Expected::Field));
        }
        fields.push(parser.take_name()?)?;
    }
    Ok(fields)
}

/// The name of an information object class, after its module if that is given (X.681 9).
pub fn read_class(parser: &mut Parser<'_>) -> Parsed<Reference> {
    let module = read_qualifier(parser, ItemKind::Reference)?;
    let name = parser.reference()?;
    Ok(Reference {
        module,
        name,
        parameters: Vec::new(parser.alloc),
    })
}

/// Goes past a type, up to the colon after it.
pub fn skip_type(parser: &mut Parser<'_>) {
    let mut open: usize = 0;
    for _ in 0..parser.left() {
        match parser.peek() {
            ItemKind::Symbol(Symbol::LeftBrace | Symbol::LeftParenthesis) => {
                open = open.saturating_add(1);
            }
            ItemKind::Symbol(Symbol::RightBrace | Symbol::RightParenthesis) if open == 0 => return,
            ItemKind::Symbol(Symbol::RightBrace | Symbol::RightParenthesis) => {
                open = open.saturating_sub(1);
            }
            ItemKind::Symbol(Symbol::Colon | Symbol::Comma | Symbol::Assignment) if open == 0 => {
                return;
            }
            _ => {}
        }
        parser.advance();
    }
}
