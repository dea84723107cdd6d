//! A table of each kind of type, and of types that lead to one another.
use crate::common::{ANY, Node, Outcome, Part, Presence, Row, first_wrong};
use asn1_schema_constraints::Bounded;
use asn1_table_types::{NumberLimits, StringKind};

/// A type of each kind that has no parts, and lists.
const SCALARS: [Node; 11] = [
    Node::Boolean,
    Node::Null,
    Node::Integer(None),
    Node::Integer(Some(NumberLimits {
        root: Bounded::Single(-7),
        is_extensible: true,
    })),
    Node::Enumerated(&[-1, 4], true, &[2, 5]),
    Node::BitString(ANY),
    Node::OctetString(ANY),
    Node::CharacterString(StringKind::Ia5, ANY, Some(&[0x42, 0x41])),
    Node::ObjectIdentifier,
    Node::SequenceOf(ANY, 0),
    Node::SetOf(ANY, 9),
];

/// A SEQUENCE with an untagged CHOICE and a group of additions, a SET and a type of no values.
const CONSTRUCTED: [Node; 6] = [
    Node::Null,
    Node::Choice(&[(0, 0), (2, 0)], true, &[(1, 0)]),
    Node::Group(&[
        Part(&[4], Presence::Required, 0),
        Part(&[5], Presence::Required, 0),
    ]),
    Node::Sequence(
        &[Part(&[0, 2, 1], Presence::Optional, 1)],
        true,
        &[Part(&[4, 5], Presence::Optional, 2)],
    ),
    Node::Set(
        &[
            Part(&[1], Presence::Required, 0),
            Part(&[2], Presence::Required, 0),
        ],
        true,
        &[Part(&[0], Presence::Required, 0)],
    ),
    Node::SequenceOf(ANY, 6),
];

/// Five types that lead to one another, and one that holds itself always, so that it has no values.
const KNOT: [Node; 6] = [
    Node::Sequence(&[Part(&[0], Presence::Optional, 1)], false, &[]),
    Node::SequenceOf(ANY, 2),
    Node::Choice(&[(0, 4), (1, 1)], false, &[]),
    Node::SetOf(ANY, 0),
    Node::Sequence(&[Part(&[0], Presence::Required, 3)], false, &[]),
    Node::Sequence(&[Part(&[0], Presence::Required, 5)], false, &[]),
];

const ROWS: [Row; 4] = [
    Row(Outcome::Made, &SCALARS),
    Row(Outcome::Made, &CONSTRUCTED),
    Row(Outcome::Made, &KNOT),
    Row(Outcome::Made, &[]),
];

#[test]
fn each_kind(rt: HostRuntime) {
    assert!(rt; first_wrong(rt.alloc(), &ROWS) == None);
}
