//! The text of a file (X.680 13).
ghost use Rattle.std.specs.Prelude.{◌≡◌, ◌≤◌, length, IfOk, IfErr, All};
ghost use Rattle.asn1_notation_tokens.specs.Lexical.{IsItemOf};

use crate::modules::read_modules;
use asn1_notation_parsing::{Parser, Refusal};
use asn1_notation_tokens::{ItemKind, Items, read_items};
use asn1_notation_tree::{
    ConstraintTerm, Module, Syntax, SyntaxError, SyntaxFault, TypeTerm, ValueTerm,
};
use std::alloc::Global;

/// The syntax tree of a text of one or more modules. Time is linear in the length of the text.
///
/// # Errors
///
/// The first lexical item that is wrong; else the first one that the notation does not allow there, or that is nested
/// too deep; and `OutOfMemory`.
pub fn read_syntax(alloc: Global, text: &[u8]) -> Result<Syntax, SyntaxError>
    ensures text { IfOk result (λ s. s.items.text_length ≡ length text.now) }
    ensures items { IfOk result (λ s. All (IsItemOf text.now) s.items.list.items) }
    ensures error { IfErr result (λ e. e.offset ≤ length text.now) }
{
    let items = match read_items(alloc, text) {
        Ok(items) => items,
        Err(error) => {
            let fault = SyntaxFault::Lexical(error.fault);
            return Err(SyntaxError {
                offset: error.offset,
                fault,
            });
        }
    };
    match read_terms(alloc, text, &items) {
        Ok(terms) => Ok(Syntax {
            modules: terms.modules,
            types: terms.types,
            constraints: terms.constraints,
            values: terms.values,
            items,
        }),
        Err((refusal, next)) => Err(located(&items, next, refusal)),
    }
}

/// The modules of a text, and the terms in them.
#[derive(Drop)]
struct Terms {
    modules: Vec<Module>,
    types: Vec<TypeTerm>,
    constraints: Vec<ConstraintTerm>,
    values: Vec<ValueTerm>,
}

/// The modules of a text with these lexical items; or why there are none, and the index of the item that is next then.
fn read_terms(alloc: Global, text: &[u8], items: &Items) -> Result<Terms, (Refusal, usize)> {
    let mut parser = Parser::new(alloc, text, items);
    match read_modules(&mut parser) {
        Ok(modules) => {
            let Parser {
                text: _,
                items: _,
                next: _,
                alloc: _,
                types,
                constraints,
                values,
            } = parser;
            Ok(Terms {
                modules,
                types,
                constraints,
                values,
            })
        }
        Err(refusal) => Err((refusal, parser.next)),
    }
}

/// A refusal by the octet of its item. If memory ran out, that is the next item.
fn located(items: &Items, next: usize, refusal: Refusal) -> SyntaxError
    ensures { result.offset ≤ items.now.text_length }
{
    match refusal {
        Refusal::Unexpected(expected, place) => SyntaxError {
            offset: items.offset(place),
            fault: SyntaxFault::Unexpected {
                expected,
                found: found(items, place),
            },
        },
        Refusal::TooDeep(place) => SyntaxError {
            offset: items.offset(place),
            fault: SyntaxFault::TooDeep,
        },
        Refusal::OutOfMemory => SyntaxError {
            offset: items.offset(next),
            fault: SyntaxFault::OutOfMemory,
        },
    }
}

/// The kind of the item at an index.
fn found(items: &Items, place: usize) -> ItemKind {
    match items.get(place) {
        Some(item) => item.kind,
        None => ItemKind::End,
    }
}
