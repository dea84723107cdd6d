//! Constraints (X.680 49 and 50).
ghost use Rattle.std.specs.Prelude.{◌≡◌};

use crate::elements::{read_table, read_values, read_words, see_table, see_type};
use crate::inner::read_inner;
use crate::types::read_type;
use asn1_notation_parsing::{Parsed, Parser, Refusal, skip_exception};
use asn1_notation_tokens::{ItemKind, Symbol, Word};
use asn1_notation_tree::{ConstraintIndex, ConstraintKind};

/// Constraints in parentheses, one after the other, as many as there are; they are added to the list.
#[cycle(types)]
pub fn read_constraints(
    parser: &mut Parser<'_>,
    depth: usize,
    constraints: &mut Vec<ConstraintIndex>,
) -> Parsed<()> {
    for _ in 0..parser.left() {
        if !parser.sees(Symbol::LeftParenthesis) {
            break;
        }
        constraints.push(read_parenthesized(parser, depth)?)?;
    }
    Ok(())
}

/// A constraint in parentheses (X.680 49.6).
#[cycle(types)]
pub fn read_parenthesized(parser: &mut Parser<'_>, depth: usize) -> Parsed<ConstraintIndex> {
    parser.expect(Symbol::LeftParenthesis)?;
    let constraint = read_specification(parser, depth)?;
    skip_exception(parser, depth)?;
    parser.expect(Symbol::RightParenthesis)?;
    Ok(constraint)
}

/// A root, and an extension marker and additions if they are there (X.680 50.1).
#[cycle(types)]
pub fn read_specification(parser: &mut Parser<'_>, depth: usize) -> Parsed<ConstraintIndex> {
    let place = parser.next;
    let root = read_union(parser, depth)?;
    if !parser.eat(Symbol::Comma) {
        return Ok(root);
    }
    parser.expect(Symbol::Ellipsis)?;
    let additions = if parser.eat(Symbol::Comma) {
        Some(read_union(parser, depth)?)
    } else {
        None
    };
    parser.add_constraint(place, ConstraintKind::Extensible(root, additions))
}

/// Elements joined by UNION, or ALL EXCEPT elements (X.680 50.1).
#[cycle(types)]
fn read_union(parser: &mut Parser<'_>, depth: usize) -> Parsed<ConstraintIndex> {
    let place = parser.next;
    if parser.eat_word(Word::All) {
        parser.expect_word(Word::Except)?;
        let excluded = read_elements(parser, depth)?;
        return parser.add_constraint(place, ConstraintKind::AllExcept(excluded));
    }
    let first = read_intersection(parser, depth)?;
    if !parser.sees(Symbol::Bar) && !parser.sees_word(Word::Union) {
        return Ok(first);
    }
    let mut parts = Vec::new(parser.alloc);
    parts.push(first)?;
    for _ in 0..parser.left() {
        if !parser.eat(Symbol::Bar) && !parser.eat_word(Word::Union) {
            break;
        }
        parts.push(read_intersection(parser, depth)?)?;
    }
    parser.add_constraint(place, ConstraintKind::Union(parts))
}

/// Elements joined by INTERSECTION (X.680 50.1).
#[cycle(types)]
fn read_intersection(parser: &mut Parser<'_>, depth: usize) -> Parsed<ConstraintIndex> {
    let place = parser.next;
    let first = read_exclusion(parser, depth)?;
    if !parser.sees(Symbol::Caret) && !parser.sees_word(Word::Intersection) {
        return Ok(first);
    }
    let mut parts = Vec::new(parser.alloc);
    parts.push(first)?;
    for _ in 0..parser.left() {
        if !parser.eat(Symbol::Caret) && !parser.eat_word(Word::Intersection) {
            break;
        }
        parts.push(read_exclusion(parser, depth)?)?;
    }
    parser.add_constraint(place, ConstraintKind::Intersection(parts))
}

/// Elements, and EXCEPT others if that is there (X.680 50.1).
#[cycle(types)]
fn read_exclusion(parser: &mut Parser<'_>, depth: usize) -> Parsed<ConstraintIndex> {
    let place = parser.next;
    let included = read_elements(parser, depth)?;
    if !parser.eat_word(Word::Except) {
        return Ok(included);
    }
    let excluded = read_elements(parser, depth)?;
    parser.add_constraint(place, ConstraintKind::Except(included, excluded))
}

/// Elements without UNION, INTERSECTION and EXCEPT, unless in parentheses (X.680 50.1, 51.1), nested at most this deep.
///
/// # Errors
///
/// The first item that the notation does not allow there, or that is nested deeper; and `OutOfMemory`.
#[cycle(types)]
pub fn read_elements(parser: &mut Parser<'_>, depth: usize) -> Parsed<ConstraintIndex>
    ensures { depth ≡ 0 → result ≡ Err (Refusal.TooDeep parser.old.next) }
{
    let place = parser.next;
    if depth == 0 {
        return Err(Refusal::TooDeep(place));
    }
    let inner = depth - 1;
    let kind = match parser.peek() {
        ItemKind::Symbol(Symbol::LeftParenthesis) => {
            parser.advance();
            let elements = read_union(parser, inner)?;
            parser.expect(Symbol::RightParenthesis)?;
            return Ok(elements);
        }
        ItemKind::Word(Word::Size) => {
            parser.advance();
            ConstraintKind::Size(read_parenthesized(parser, inner)?)
        }
        ItemKind::Word(Word::From) => {
            parser.advance();
            ConstraintKind::From(read_parenthesized(parser, inner)?)
        }
        ItemKind::Word(Word::With) => {
            parser.advance();
            ConstraintKind::Unseen(read_inner(parser, inner)?)
        }
        ItemKind::Word(Word::Includes) => {
            parser.advance();
            ConstraintKind::Contained(read_type(parser, depth)?)
        }
        ItemKind::Symbol(Symbol::LeftBrace) if see_table(parser) => read_table(parser)?,
        _ if see_type(parser) => ConstraintKind::Contained(read_type(parser, depth)?),
        ItemKind::Word(word) => read_words(parser, word, inner)?,
        _ => read_values(parser, inner)?,
    };
    parser.add_constraint(place, kind)
}
