//! Modules (X.680 13).
use crate::assignments::read_assignment;
use asn1_notation_parsing::{
    Parsed, Parser, read_module_identifier, read_value_reference, skip_parameters,
};
use asn1_notation_tokens::{ItemKind, Symbol, Word};
use asn1_notation_tree::{
    Assignment, Expected, Exports, Import, Module, Name, TagDefault, ValueIndex, ValueKind,
};

/// The modules of a text, at least one.
pub fn read_modules(parser: &mut Parser<'_>) -> Parsed<Vec<Module>> {
    let mut modules = Vec::new(parser.alloc);
    modules.push(read_module(parser)?)?;
    for _ in 0..parser.left() {
        if parser.peek() == ItemKind::End {
            break;
        }
        modules.push(read_module(parser)?)?;
    }
    Ok(modules)
}

/// A module that begins at the next item.
fn read_module(parser: &mut Parser<'_>) -> Parsed<Module> {
    let name = match parser.peek() {
        ItemKind::Reference => parser.take_name()?,
        _ => return Err(parser.expected(Expected::Module)),
    };
    let identifier = read_module_identifier(parser)?;
    if parser.peek() == ItemKind::CharacterString {
        parser.advance();
    }
    parser.expect_word(Word::Definitions)?;
    let tags = read_tag_default(parser)?;
    let is_extensibility_implied = parser.eat_word(Word::Extensibility);
    if is_extensibility_implied {
        parser.expect_word(Word::Implied)?;
    }
    parser.expect(Symbol::Assignment)?;
    parser.expect_word(Word::Begin)?;
    let exports = read_exports(parser)?;
    let imports = read_imports(parser)?;
    let assignments = read_assignments(parser)?;
    Ok(Module {
        name,
        identifier,
        tags,
        is_extensibility_implied,
        exports,
        imports,
        assignments,
    })
}

/// How tags are meant (X.680 13.2).
fn read_tag_default(parser: &mut Parser<'_>) -> Parsed<TagDefault> {
    let tags = match parser.peek() {
        ItemKind::Word(Word::Explicit) => TagDefault::Explicit,
        ItemKind::Word(Word::Implicit) => TagDefault::Implicit,
        ItemKind::Word(Word::Automatic) => TagDefault::Automatic,
        _ => return Ok(TagDefault::Explicit),
    };
    parser.advance();
    parser.expect_word(Word::Tags)?;
    Ok(tags)
}

/// EXPORTS, if it is there (X.680 13.1).
fn read_exports(parser: &mut Parser<'_>) -> Parsed<Exports> {
    if !parser.eat_word(Word::Exports) {
        return Ok(Exports::All);
    }
    if parser.eat_word(Word::All) {
        parser.expect(Symbol::Semicolon)?;
        return Ok(Exports::All);
    }
    let symbols = if parser.sees(Symbol::Semicolon) {
        Vec::new(parser.alloc)
    } else {
        read_symbols(parser)?
    };
    parser.end_list(Symbol::Semicolon)?;
    Ok(Exports::Symbols(symbols))
}

/// Names separated by commas, without the braces of parameterised ones.
fn read_symbols(parser: &mut Parser<'_>) -> Parsed<Vec<Name>> {
    let mut symbols = Vec::new(parser.alloc);
    for _ in 0..parser.left() {
        match parser.peek() {
            ItemKind::Reference | ItemKind::Identifier => symbols.push(parser.take_name()?)?,
            _ => return Err(parser.expected(Expected::Symbolic)),
        }
        skip_parameters(parser)?;
        if !parser.eat(Symbol::Comma) {
            break;
        }
    }
    Ok(symbols)
}

/// IMPORTS, if it is there (X.680 13.1).
fn read_imports(parser: &mut Parser<'_>) -> Parsed<Vec<Import>> {
    let mut imports = Vec::new(parser.alloc);
    if !parser.eat_word(Word::Imports) {
        return Ok(imports);
    }
    for _ in 0..parser.left() {
        if parser.sees(Symbol::Semicolon) {
            break;
        }
        imports.push(read_import(parser)?)?;
    }
    parser.expect(Symbol::Semicolon)?;
    Ok(imports)
}

/// The symbols that are imported from one module.
fn read_import(parser: &mut Parser<'_>) -> Parsed<Import> {
    let symbols = read_symbols(parser)?;
    parser.expect_word(Word::From)?;
    let module = parser.reference()?;
    let identifier = read_assigned_identifier(parser)?;
    if parser.eat_word(Word::With) {
        parser.reference()?;
    }
    Ok(Import {
        symbols,
        module,
        identifier,
    })
}

/// The object identifier of a module from which symbols are imported, if it is given: in braces, or a name. A name that
/// a comma or FROM follows is the first symbol of another module (X.680 13.1).
fn read_assigned_identifier(parser: &mut Parser<'_>) -> Parsed<Option<ValueIndex>> {
    if parser.peek() != ItemKind::Identifier {
        return read_module_identifier(parser);
    }
    match parser.peek_after(1) {
        ItemKind::Symbol(Symbol::Comma | Symbol::LeftBrace) | ItemKind::Word(Word::From) => {
            Ok(None)
        }
        _ => {
            let place = parser.next;
            let kind = ValueKind::Reference(read_value_reference(parser)?);
            Ok(Some(parser.add_value(place, kind)?))
        }
    }
}

/// Assignments up to END.
fn read_assignments(parser: &mut Parser<'_>) -> Parsed<Vec<Assignment>> {
    let mut assignments = Vec::new(parser.alloc);
    for _ in 0..parser.left() {
        if parser.eat_word(Word::End) {
            return Ok(assignments);
        }
        assignments.push(read_assignment(parser)?)?;
    }
    Err(parser.expected(Expected::Assignment))
}
