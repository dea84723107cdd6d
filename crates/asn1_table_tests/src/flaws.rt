//! A table for each flaw: it is refused for that flaw, at the index of the type that has it.
use crate::common::{ANY, Node, Outcome, Part, Presence, Row, WRONG, first_wrong};
use asn1_schema_constraints::Bounded;
use asn1_table_types::{Flaw, NumberLimits};

/// An index outside each table, where a type without values is.
const OUTSIDE: usize = 9;

/// Bounds above bounds: of numbers, of octets and of elements.
const SIZES: [Row; 3] = [
    Row(
        Outcome::Unlawful(1, Flaw::BoundsOutOfOrder),
        &[
            Node::Boolean,
            Node::Integer(Some(NumberLimits {
                root: Bounded::Range {
                    start: Some(3),
                    end: Some(2),
                },
                is_extensible: true,
            })),
        ],
    ),
    Row(
        Outcome::Unlawful(1, Flaw::SizesOutOfOrder),
        &[Node::Boolean, Node::OctetString(WRONG)],
    ),
    Row(
        Outcome::Unlawful(1, Flaw::SizesOutOfOrder),
        &[Node::Boolean, Node::SetOf(WRONG, 0)],
    ),
];

/// Items of an ENUMERATED.
const ITEMS: [Row; 5] = [
    Row(
        Outcome::Unlawful(1, Flaw::ItemMissing),
        &[Node::Boolean, Node::Enumerated(&[], true, &[0])],
    ),
    Row(
        Outcome::Unlawful(1, Flaw::MarkerMissing),
        &[Node::Boolean, Node::Enumerated(&[0], false, &[1])],
    ),
    Row(
        Outcome::Unlawful(1, Flaw::ItemsOutOfOrder),
        &[Node::Boolean, Node::Enumerated(&[0, 2, 1], false, &[])],
    ),
    Row(
        Outcome::Unlawful(1, Flaw::ItemsOutOfOrder),
        &[Node::Boolean, Node::Enumerated(&[0], true, &[2, 2])],
    ),
    Row(
        Outcome::Unlawful(1, Flaw::ItemTwice),
        &[Node::Boolean, Node::Enumerated(&[0, 2], true, &[1, 2])],
    ),
];

/// Components of a SEQUENCE and of a SET.
const COMPONENTS: [Row; 5] = [
    Row(
        Outcome::Unlawful(1, Flaw::TagTwice),
        &[
            Node::Boolean,
            Node::Sequence(
                &[
                    Part(&[0], Presence::Required, 0),
                    Part(&[1], Presence::Required, 0),
                    Part(&[0], Presence::Required, 0),
                ],
                false,
                &[],
            ),
        ],
    ),
    Row(
        Outcome::Unlawful(1, Flaw::TagTwice),
        &[
            Node::Boolean,
            Node::Sequence(
                &[Part(&[0], Presence::Required, 0)],
                true,
                &[
                    Part(&[1], Presence::Required, 0),
                    Part(&[0], Presence::Required, 0),
                ],
            ),
        ],
    ),
    Row(
        Outcome::Unlawful(1, Flaw::MarkerMissing),
        &[
            Node::Boolean,
            Node::Sequence(
                &[Part(&[0], Presence::Required, 0)],
                false,
                &[Part(&[1], Presence::Required, 0)],
            ),
        ],
    ),
    Row(
        Outcome::Unlawful(1, Flaw::TagTwice),
        &[
            Node::Boolean,
            Node::Set(
                &[
                    Part(&[3], Presence::Required, 0),
                    Part(&[3], Presence::Required, 0),
                ],
                false,
                &[],
            ),
        ],
    ),
    Row(
        Outcome::Unlawful(1, Flaw::TagsOutOfOrder),
        &[
            Node::Boolean,
            Node::Set(
                &[
                    Part(&[3], Presence::Required, 0),
                    Part(&[2], Presence::Required, 0),
                ],
                true,
                &[Part(&[1], Presence::Required, 0)],
            ),
        ],
    ),
];

/// Alternatives of a CHOICE.
const ALTERNATIVES: [Row; 4] = [
    Row(
        Outcome::Unlawful(1, Flaw::AlternativeMissing),
        &[Node::Boolean, Node::Choice(&[], true, &[(1, 0)])],
    ),
    Row(
        Outcome::Unlawful(1, Flaw::MarkerMissing),
        &[Node::Boolean, Node::Choice(&[(0, 0)], false, &[(1, 0)])],
    ),
    Row(
        Outcome::Unlawful(1, Flaw::TagsOutOfOrder),
        &[Node::Boolean, Node::Choice(&[(1, 0), (0, 0)], false, &[])],
    ),
    Row(
        Outcome::Unlawful(1, Flaw::TagTwice),
        &[
            Node::Boolean,
            Node::Choice(&[(0, 0), (2, 0)], true, &[(2, 0)]),
        ],
    ),
];

/// Tags of a component whose type is an untagged CHOICE, or BOOLEAN.
const TAGS: [Row; 3] = [
    Row(
        Outcome::Unlawful(1, Flaw::TagMissing),
        &[
            Node::Choice(&[(0, 0), (2, 0)], true, &[(1, 0)]),
            Node::Sequence(&[Part(&[], Presence::Required, 0)], true, &[]),
        ],
    ),
    Row(
        Outcome::Unlawful(1, Flaw::TagsOfOtherType),
        &[
            Node::Choice(&[(0, 0), (2, 0)], true, &[(1, 0)]),
            Node::Sequence(&[Part(&[0, 1, 2], Presence::Required, 0)], true, &[]),
        ],
    ),
    Row(
        Outcome::Unlawful(1, Flaw::TagsOfOtherType),
        &[
            Node::Boolean,
            Node::Sequence(&[Part(&[0, 1], Presence::Required, 0)], true, &[]),
        ],
    ),
];

/// Groups of additions: an empty one, and others among root components, required, with other tags, as an element, and
/// as an alternative.
const GROUPS: [Row; 6] = [
    Row(
        Outcome::Unlawful(1, Flaw::ComponentMissing),
        &[Node::Boolean, Node::Group(&[])],
    ),
    Row(
        Outcome::Unlawful(1, Flaw::GroupOutOfPlace),
        &[
            Node::Group(&[
                Part(&[4], Presence::Required, OUTSIDE),
                Part(&[5], Presence::Required, OUTSIDE),
            ]),
            Node::Sequence(&[Part(&[4, 5], Presence::Optional, 0)], true, &[]),
        ],
    ),
    Row(
        Outcome::Unlawful(1, Flaw::GroupOutOfPlace),
        &[
            Node::Group(&[
                Part(&[4], Presence::Required, OUTSIDE),
                Part(&[5], Presence::Required, OUTSIDE),
            ]),
            Node::Sequence(&[], true, &[Part(&[4, 5], Presence::Required, 0)]),
        ],
    ),
    Row(
        Outcome::Unlawful(1, Flaw::TagsOfOtherType),
        &[
            Node::Group(&[
                Part(&[4], Presence::Required, OUTSIDE),
                Part(&[5], Presence::Required, OUTSIDE),
            ]),
            Node::Sequence(&[], true, &[Part(&[5, 4], Presence::Optional, 0)]),
        ],
    ),
    Row(
        Outcome::Unlawful(1, Flaw::GroupOutOfPlace),
        &[
            Node::Group(&[Part(&[4], Presence::Required, OUTSIDE)]),
            Node::SequenceOf(ANY, 0),
        ],
    ),
    Row(
        Outcome::Unlawful(1, Flaw::GroupOutOfPlace),
        &[
            Node::Group(&[Part(&[4], Presence::Required, OUTSIDE)]),
            Node::Choice(&[(0, 0)], false, &[]),
        ],
    ),
];

#[test]
fn bounds_above_bounds(rt: HostRuntime) {
    assert!(rt; first_wrong(rt.alloc(), &SIZES) == None);
}

#[test]
fn wrong_items(rt: HostRuntime) {
    assert!(rt; first_wrong(rt.alloc(), &ITEMS) == None);
}

#[test]
fn wrong_components(rt: HostRuntime) {
    assert!(rt; first_wrong(rt.alloc(), &COMPONENTS) == None);
}

#[test]
fn wrong_alternatives(rt: HostRuntime) {
    assert!(rt; first_wrong(rt.alloc(), &ALTERNATIVES) == None);
}

#[test]
fn wrong_tags(rt: HostRuntime) {
    assert!(rt; first_wrong(rt.alloc(), &TAGS) == None);
}

#[test]
fn wrong_groups(rt: HostRuntime) {
    assert!(rt; first_wrong(rt.alloc(), &GROUPS) == None);
}
