//! Elements of constraints without types and constraints in them (X.680 51, X.682 9 to 11).
use crate::classes::see_object_after;
use asn1_notation_parsing::{Parsed, Parser, is_value_word, read_value, see_selection, see_value};
use asn1_notation_tokens::{ItemKind, Symbol, Word};
use asn1_notation_tree::{ConstraintKind, Expected, Limit, RangeEnd, UnseenConstraint};

/// Whether the braces at the next item hold a set of information objects (X.681 12.1). One object that is named there
/// has the form of a value, unless braces follow.
pub fn see_table(parser: &Parser<'_>) -> bool {
    match parser.peek_after(1) {
        ItemKind::Reference
            if parser.peek_after(2) != ItemKind::Symbol(Symbol::Dot)
                || parser.peek_after(3) != ItemKind::Identifier => true,
        ItemKind::Symbol(Symbol::LeftBrace) if see_object_after(parser, 1) => true,
        _ => see_set(parser),
    }
}

/// Whether the braces at the next item have a part of a set in them, or braces after them.
fn see_set(parser: &Parser<'_>) -> bool {
    let mut open: usize = 0;
    for ahead in 0..parser.left() {
        match parser.peek_after(ahead) {
            ItemKind::Symbol(Symbol::LeftBrace) => open = open.saturating_add(1),
            ItemKind::Symbol(Symbol::RightBrace) if open <= 1 => {
                let after = parser.peek_after(ahead.saturating_add(1));
                return after == ItemKind::Symbol(Symbol::LeftBrace);
            }
            ItemKind::Symbol(Symbol::RightBrace) => open = open.saturating_sub(1),
            ItemKind::Symbol(Symbol::Bar | Symbol::Caret | Symbol::Ellipsis) if open == 1 => {
                return true;
            }
            ItemKind::Word(Word::Union | Word::Intersection | Word::Except) if open == 1 => {
                return true;
            }
            ItemKind::End => return false,
            _ => {}
        }
    }
    false
}

/// Information objects in braces, and the components at which they look, in braces too (X.682 10.3).
pub fn read_table(parser: &mut Parser<'_>) -> Parsed<ConstraintKind> {
    parser.skip_braces()?;
    if parser.sees(Symbol::LeftBrace) {
        parser.skip_braces()?;
    }
    Ok(ConstraintKind::Unseen(UnseenConstraint::Table))
}

/// Whether the next item begins a type whose values are the elements, without INCLUDES (X.680 51.3): NULL is a value.
pub fn see_type(parser: &Parser<'_>) -> bool {
    match parser.peek() {
        ItemKind::Reference => !see_value(parser),
        ItemKind::Symbol(Symbol::LeftBracket) => true,
        ItemKind::Word(word) => !is_element_word(word),
        _ => see_selection(parser),
    }
}

/// Whether a reserved word begins elements that are no type.
fn is_element_word(word: Word) -> bool {
    match word {
        Word::Pattern | Word::Settings | Word::Containing | Word::Encoded | Word::Constrained =>
            true,
        Word::All | Word::Min | Word::Max => true,
        _ => is_value_word(word),
    }
}

/// Elements that begin with a reserved word, and are no type.
pub fn read_words(parser: &mut Parser<'_>, word: Word, depth: usize) -> Parsed<ConstraintKind> {
    match word {
        Word::Pattern => {
            parser.advance();
            let pattern = read_value(parser, depth)?;
            Ok(ConstraintKind::Unseen(UnseenConstraint::Pattern(pattern)))
        }
        Word::Settings => {
            parser.advance();
            let settings = read_value(parser, depth)?;
            Ok(ConstraintKind::Unseen(UnseenConstraint::Settings(settings)))
        }
        Word::Containing | Word::Encoded => {
            parser.skip_to_parenthesis();
            Ok(ConstraintKind::Unseen(UnseenConstraint::Contents))
        }
        Word::Constrained => {
            parser.advance();
            parser.expect_word(Word::By)?;
            parser.skip_braces()?;
            Ok(ConstraintKind::Unseen(UnseenConstraint::UserDefined))
        }
        _ => read_values(parser, depth),
    }
}

/// A single value or a range of values (X.680 51.2, 51.4).
pub fn read_values(parser: &mut Parser<'_>, depth: usize) -> Parsed<ConstraintKind> {
    let lower = read_limit(parser, Word::Min, depth)?;
    let is_lower_open = parser.eat(Symbol::Less);
    if !is_lower_open && !parser.sees(Symbol::Range) {
        return match lower {
            Limit::Value(value) => Ok(ConstraintKind::Single(value)),
            _ => Err(parser.expected(Expected::Symbol(Symbol::Range))),
        };
    }
    parser.expect(Symbol::Range)?;
    let is_upper_open = parser.eat(Symbol::Less);
    let upper = read_limit(parser, Word::Max, depth)?;
    let lower = RangeEnd {
        limit: lower,
        is_open: is_lower_open,
    };
    let upper = RangeEnd {
        limit: upper,
        is_open: is_upper_open,
    };
    Ok(ConstraintKind::Range(lower, upper))
}

/// A value, or MIN or MAX, whichever is at this end of a range.
fn read_limit(parser: &mut Parser<'_>, word: Word, depth: usize) -> Parsed<Limit> {
    let missing = if word == Word::Min {
        Expected::Constraint
    } else {
        Expected::RangeEnd
    };
    match parser.peek() {
        ItemKind::Word(Word::Min) if word == Word::Min => {
            parser.advance();
            Ok(Limit::Minimum)
        }
        ItemKind::Word(Word::Max) if word == Word::Max => {
            parser.advance();
            Ok(Limit::Maximum)
        }
        ItemKind::Word(other) if !is_value_word(other) => Err(parser.expected(missing)),
        ItemKind::Symbol(Symbol::LeftBrace | Symbol::Minus) => {
            Ok(Limit::Value(read_value(parser, depth)?))
        }
        ItemKind::Symbol(_) | ItemKind::End | ItemKind::Field => Err(parser.expected(missing)),
        _ => Ok(Limit::Value(read_value(parser, depth)?)),
    }
}
