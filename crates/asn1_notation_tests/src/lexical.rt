//! Lexical items, and lines and columns.
use asn1_notation_tokens::{
    Item, ItemKind, Position, Symbol, WORDS, Word, line_and_column, read_items,
};
use std::alloc::Global;

/// Texts, and the kind of their first item with the index after it.
const FIRST: [(&str, ItemKind, usize); 24] = [
    ("Name", ItemKind::Reference, 4),
    ("A-1b,", ItemKind::Reference, 4),
    ("a--b", ItemKind::Identifier, 1),
    ("name-1 ", ItemKind::Identifier, 6),
    ("SEQUENCE{", ItemKind::Word(Word::Sequence), 8),
    ("SEQUENCES", ItemKind::Reference, 9),
    ("&id", ItemKind::Field, 3),
    ("&Type ", ItemKind::Field, 5),
    ("0..1", ItemKind::Number(0), 1),
    ("12.5", ItemKind::RealNumber, 4),
    ("1.5E-3 ", ItemKind::RealNumber, 6),
    ("2e7", ItemKind::RealNumber, 3),
    (
        "170141183460469231731687303715884105727",
        ItemKind::Number(i128::MAX),
        39,
    ),
    ("'01 1'B", ItemKind::BinaryString, 7),
    ("''H", ItemKind::HexadecimalString, 3),
    ("'0F A'H", ItemKind::HexadecimalString, 7),
    ("\"a\"\"b\" ", ItemKind::CharacterString, 6),
    ("\"\"", ItemKind::CharacterString, 2),
    ("::=", ItemKind::Symbol(Symbol::Assignment), 3),
    ("....", ItemKind::Symbol(Symbol::Ellipsis), 3),
    ("..<", ItemKind::Symbol(Symbol::Range), 2),
    ("[[[", ItemKind::Symbol(Symbol::LeftVersionBrackets), 2),
    ("]]", ItemKind::Symbol(Symbol::RightVersionBrackets), 2),
    ("-1", ItemKind::Symbol(Symbol::Minus), 1),
];

/// The first item of a text, if all are right.
fn first_item(alloc: Global, text: &str) -> Option<Item> {
    read_items(alloc, text.as_bytes()).ok()?.get(0)
}

/// The index of the first row whose text begins with another item.
fn wrong_first(alloc: Global) -> Option<usize> {
    for (index, (text, kind, end)) in FIRST.iter().enumerate() {
        let item = Item {
            kind: *kind,
            start: 0,
            end: *end,
        };
        if first_item(alloc, text) != Some(item) {
            return Some(index);
        }
    }
    None
}

#[test]
fn first_items(rt: HostRuntime) {
    assert_eq!(rt; wrong_first(rt.alloc()), None);
}

/// The index of the first reserved word that is read as something else.
fn wrong_word(alloc: Global) -> Option<usize> {
    for (index, word) in WORDS.iter().enumerate() {
        match first_item(alloc, word.text()) {
            Some(item) if item.kind == ItemKind::Word(*word) => {}
            _ => return Some(index),
        }
    }
    None
}

#[test]
fn words(rt: HostRuntime) {
    assert_eq!(rt; wrong_word(rt.alloc()), None);
}

/// Texts, the number of their items, and the index at which the last one begins.
const COUNTED: [(&str, usize, usize); 10] = [
    ("", 0, 0),
    (" \t\r\n", 0, 0),
    ("a b", 2, 2),
    ("a -- b\nc", 2, 7),
    ("a -- b -- c", 2, 10),
    ("a /* b */ c", 2, 10),
    ("a /* /* b */ */ c", 2, 16),
    ("a -- /* --b", 2, 10),
    ("{}()[],;:.|^<>@!-/=", 19, 18),
    ("a\u{A0}b", 2, 3),
];

/// The index of the first row whose text has other items.
fn wrong_count(alloc: Global) -> Option<usize> {
    for (index, (text, count, last)) in COUNTED.iter().enumerate() {
        let Ok(items) = read_items(alloc, text.as_bytes()) else {
            return Some(index);
        };
        let begin = items.offset(count.saturating_sub(1));
        if items.list.len() != *count || (*count > 0 && begin != *last) {
            return Some(index);
        }
    }
    None
}

#[test]
fn counted(rt: HostRuntime) {
    assert_eq!(rt; wrong_count(rt.alloc()), None);
}

/// Texts, an index, and its line and column.
const POSITIONS: [(&str, usize, usize, usize); 7] = [
    ("", 0, 1, 1),
    ("ab", 1, 1, 2),
    ("ab\ncd", 2, 1, 3),
    ("ab\ncd", 3, 2, 1),
    ("ab\r\n\ncd", 6, 3, 2),
    ("\u{E9}\u{20AC}x", 5, 1, 3),
    ("ab\nc", 99, 2, 2),
];

/// The index of the first row with another position.
fn wrong_position() -> Option<usize> {
    for (index, (text, offset, line, column)) in POSITIONS.iter().enumerate() {
        let position = Position {
            line: *line,
            column: *column,
        };
        if line_and_column(text.as_bytes(), *offset) != position {
            return Some(index);
        }
    }
    None
}

#[test]
fn positions(rt: HostRuntime) {
    assert_eq!(rt; wrong_position(), None);
}
