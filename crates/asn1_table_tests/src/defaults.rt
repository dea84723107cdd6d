//! Components with DEFAULT: a value of each kind, and values of other types.
use crate::common::{
    ANY, DefaultRow, Defaults, Given, Node, ONE, Outcome, Simple, TWO, Value, first_wrong_default,
};
use asn1_schema_constraints::Bounded;
use asn1_table_types::{Flaw, NumberLimits, StringKind};

/// INTEGER (0..10).
const UP_TO_TEN: NumberLimits = NumberLimits {
    root: Bounded::Range {
        start: Some(0),
        end: Some(10),
    },
    is_extensible: false,
};

const TRUE: Simple = Simple::Truth(true);

const FALSE: Simple = Simple::Truth(false);

/// The SEQUENCE has a default of another type.
const WRONG: Outcome = Outcome::Unlawful(1, Flaw::DefaultOfOtherType);

const WRONG_PART: Outcome = Outcome::Unlawful(2, Flaw::DefaultOfOtherType);

/// Defaults without parts.
const SIMPLE: [Defaults; 6] = [
    Defaults(
        &[Node::Boolean],
        &[
            DefaultRow(Outcome::Made, Value::Simple(TRUE)),
            DefaultRow(WRONG, Value::Simple(Simple::Nothing)),
        ],
    ),
    Defaults(
        &[Node::Null],
        &[DefaultRow(Outcome::Made, Value::Simple(Simple::Nothing))],
    ),
    Defaults(
        &[Node::Integer(Some(UP_TO_TEN))],
        &[
            DefaultRow(Outcome::Made, Value::Simple(Simple::Number(10))),
            DefaultRow(WRONG, Value::Simple(Simple::Number(11))),
        ],
    ),
    Defaults(
        &[Node::Enumerated(&[0, 2], true, &[5])],
        &[
            DefaultRow(Outcome::Made, Value::Simple(Simple::Item(2))),
            DefaultRow(Outcome::Made, Value::Simple(Simple::Item(5))),
            DefaultRow(WRONG, Value::Simple(Simple::Item(1))),
        ],
    ),
    Defaults(
        &[Node::OctetString(ONE)],
        &[
            DefaultRow(Outcome::Made, Value::Simple(Simple::Octets(&[7]))),
            DefaultRow(WRONG, Value::Simple(Simple::Octets(&[]))),
        ],
    ),
    Defaults(
        &[Node::BitString(ANY)],
        &[DefaultRow(Outcome::Made, Value::Simple(Simple::NoBits))],
    ),
];

/// Character strings of two characters; wrong are characters that their type does not have, a character too many, and
/// octets that are not UTF-8.
const STRINGS: [Defaults; 7] = [
    Defaults(
        &[Node::CharacterString(StringKind::Numeric, TWO, None)],
        &[
            DefaultRow(Outcome::Made, Value::Simple(Simple::Text(b"1 "))),
            DefaultRow(WRONG, Value::Simple(Simple::Text(b"1a"))),
        ],
    ),
    Defaults(
        &[Node::CharacterString(StringKind::Printable, TWO, None)],
        &[
            DefaultRow(Outcome::Made, Value::Simple(Simple::Text(b"a?"))),
            DefaultRow(WRONG, Value::Simple(Simple::Text(b"a*"))),
        ],
    ),
    Defaults(
        &[Node::CharacterString(StringKind::Visible, TWO, None)],
        &[
            DefaultRow(Outcome::Made, Value::Simple(Simple::Text(b"a*"))),
            DefaultRow(WRONG, Value::Simple(Simple::Text(&[0x61, 0x1F]))),
        ],
    ),
    Defaults(
        &[Node::CharacterString(StringKind::Ia5, TWO, None)],
        &[
            DefaultRow(Outcome::Made, Value::Simple(Simple::Text(&[0, 0x7F]))),
            DefaultRow(WRONG, Value::Simple(Simple::Text(&[0x61, 0x80]))),
            DefaultRow(WRONG, Value::Simple(Simple::Text(b"abc"))),
        ],
    ),
    Defaults(
        &[Node::CharacterString(StringKind::Bmp, TWO, None)],
        &[DefaultRow(Outcome::Made, Value::Simple(Simple::Text(&[0xE9, 0xFF])))],
    ),
    Defaults(
        &[Node::CharacterString(StringKind::General, TWO, None)],
        &[DefaultRow(Outcome::Made, Value::Simple(Simple::Text(&[0xFF])))],
    ),
    Defaults(
        &[Node::CharacterString(StringKind::Utf8, TWO, None)],
        &[
            DefaultRow(
                Outcome::Made,
                Value::Simple(Simple::Text(&[0xC3, 0xA9, 0x61])),
            ),
            DefaultRow(WRONG, Value::Simple(Simple::Text(&[0xC3, 0x61]))),
        ],
    ),
];

/// Defaults with parts.
const PARTS: [Defaults; 4] = [
    Defaults(
        &[Node::Boolean, Node::SequenceOf(ANY, 0)],
        &[
            DefaultRow(Outcome::Made, Value::List(&[])),
            DefaultRow(Outcome::Made, Value::List(&[TRUE, FALSE])),
            DefaultRow(WRONG_PART, Value::List(&[TRUE, Simple::Nothing])),
            DefaultRow(WRONG_PART, Value::Simple(TRUE)),
        ],
    ),
    Defaults(
        &[Node::Boolean, Node::SetOf(ANY, 0)],
        &[
            DefaultRow(Outcome::Made, Value::Bag(&[])),
            DefaultRow(
                Outcome::Made,
                Value::Bag(&[Given::Simple(FALSE), Given::Simple(TRUE)]),
            ),
            DefaultRow(
                WRONG_PART,
                Value::Bag(&[Given::Simple(FALSE), Given::Simple(Simple::Nothing)]),
            ),
            DefaultRow(WRONG_PART, Value::List(&[])),
        ],
    ),
    Defaults(
        &[
            Node::Boolean,
            Node::Choice(&[(0, 0), (1, 0)], true, &[(2, 0)]),
        ],
        &[
            DefaultRow(Outcome::Made, Value::Root(1, TRUE)),
            DefaultRow(Outcome::Made, Value::Addition(0, TRUE)),
            DefaultRow(WRONG_PART, Value::Root(2, TRUE)),
            DefaultRow(WRONG_PART, Value::Addition(0, Simple::Nothing)),
        ],
    ),
    Defaults(
        &[
            Node::Boolean,
            Node::SequenceOf(ANY, 0),
            Node::SequenceOf(ANY, 1),
        ],
        &[
            DefaultRow(Outcome::Made, Value::NestedList(TRUE)),
            DefaultRow(
                Outcome::Unlawful(3, Flaw::DefaultOfOtherType),
                Value::NestedList(Simple::Nothing),
            ),
        ],
    ),
];

#[test]
fn defaults_without_parts(rt: HostRuntime) {
    assert!(rt; first_wrong_default(rt.alloc(), &SIMPLE) == None);
}

#[test]
fn defaults_of_strings(rt: HostRuntime) {
    assert!(rt; first_wrong_default(rt.alloc(), &STRINGS) == None);
}

#[test]
fn defaults_with_parts(rt: HostRuntime) {
    assert!(rt; first_wrong_default(rt.alloc(), &PARTS) == None);
}
