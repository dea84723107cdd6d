//! Defaults with components and defaults of a SET OF: rows that are admitted, of another type, or not in normal form.
use crate::common::{
    ANY, DefaultRow, Defaults, Given, Node, Outcome, Part, Presence, Simple, Value,
    first_wrong_default,
};
use asn1_table_types::Flaw;

/// {a [0] BOOLEAN, b [1] INTEGER DEFAULT 7, ..., c [2] BOOLEAN DEFAULT TRUE, [[d [3] BOOLEAN OPTIONAL]]}.
const ROOT: [Part; 2] = [
    Part(&[0], Presence::Required, 0),
    Part(&[1], Presence::Default(Value::Simple(Simple::Number(7))), 1),
];

const ADDITIONS: [Part; 2] = [
    Part(
        &[2],
        Presence::Default(Value::Simple(Simple::Truth(true))),
        0,
    ),
    Part(&[3], Presence::Optional, 2),
];

/// The group in it.
const GROUP: Node = Node::Group(&[Part(&[3], Presence::Optional, 0)]);

const NONE: Given = Given::Absent;

const TRUE: Given = Given::Simple(Simple::Truth(true));

const FALSE: Given = Given::Simple(Simple::Truth(false));

const WRONG: Outcome = Outcome::Unlawful(4, Flaw::DefaultOfOtherType);

const NOT_NORMAL: Outcome = Outcome::NotNormal(4);

/// Defaults that are admitted; that spell out the default of a root component or of an addition, or have an empty
/// group; without a required part, with a part of another type, and with too few or too many parts.
const COMPONENTS: [DefaultRow; 11] = [
    DefaultRow(
        Outcome::Made,
        Value::Components(&[TRUE, NONE], &[NONE, NONE]),
    ),
    DefaultRow(
        Outcome::Made,
        Value::Components(
            &[FALSE, Given::Simple(Simple::Number(8))],
            &[FALSE, Given::First(Some(Simple::Truth(true)))],
        ),
    ),
    DefaultRow(
        NOT_NORMAL,
        Value::Components(&[TRUE, Given::Simple(Simple::Number(7))], &[NONE, NONE]),
    ),
    DefaultRow(NOT_NORMAL, Value::Components(&[TRUE, NONE], &[TRUE, NONE])),
    DefaultRow(
        NOT_NORMAL,
        Value::Components(&[TRUE, NONE], &[NONE, Given::First(None)]),
    ),
    DefaultRow(WRONG, Value::Components(&[NONE, NONE], &[NONE, NONE])),
    DefaultRow(WRONG, Value::Components(&[TRUE, TRUE], &[NONE, NONE])),
    DefaultRow(WRONG, Value::Components(&[TRUE, NONE], &[NONE, TRUE])),
    DefaultRow(WRONG, Value::Components(&[TRUE], &[NONE, NONE])),
    DefaultRow(WRONG, Value::Components(&[TRUE, NONE], &[NONE])),
    DefaultRow(WRONG, Value::Components(&[TRUE, NONE], &[NONE, NONE, NONE])),
];

/// Of a SEQUENCE, and of a SET.
const SEQUENCE: [Defaults; 1] = [Defaults(
    &[
        Node::Boolean,
        Node::Integer(None),
        GROUP,
        Node::Sequence(&ROOT, true, &ADDITIONS),
    ],
    &COMPONENTS,
)];

const SET: [Defaults; 1] = [Defaults(
    &[
        Node::Boolean,
        Node::Integer(None),
        GROUP,
        Node::Set(&ROOT, true, &ADDITIONS),
    ],
    &COMPONENTS,
)];

/// BOOLEAN, SET OF BOOLEAN, SEQUENCE {p SET OF BOOLEAN DEFAULT {TRUE, FALSE, FALSE}}, a SET OF that, and for this the
/// default {{}, {p ..}}, in which p has the same elements in any order, others, fewer, and more.
const BAGS: [Defaults; 1] = [Defaults(
    &[
        Node::Boolean,
        Node::SetOf(ANY, 0),
        Node::Sequence(
            &[Part(
                &[0],
                Presence::Default(Value::Bag(&[TRUE, FALSE, FALSE])),
                1,
            )],
            false,
            &[],
        ),
        Node::SetOf(ANY, 2),
    ],
    &[
        DefaultRow(
            NOT_NORMAL,
            Value::Bag(&[Given::First(None), Given::Truths(&[true, false, false])]),
        ),
        DefaultRow(
            NOT_NORMAL,
            Value::Bag(&[Given::First(None), Given::Truths(&[false, true, false])]),
        ),
        DefaultRow(
            Outcome::Made,
            Value::Bag(&[Given::First(None), Given::Truths(&[true, true, false])]),
        ),
        DefaultRow(
            Outcome::Made,
            Value::Bag(&[Given::First(None), Given::Truths(&[true, false])]),
        ),
        DefaultRow(
            Outcome::Made,
            Value::Bag(&[
                Given::First(None),
                Given::Truths(&[true, false, false, false]),
            ]),
        ),
        DefaultRow(
            Outcome::Made,
            Value::Bag(&[Given::First(None), Given::Truths(&[])]),
        ),
    ],
)];

#[test]
fn defaults_of_sequences(rt: HostRuntime) {
    assert!(rt; first_wrong_default(rt.alloc(), &SEQUENCE) == None);
}

#[test]
fn defaults_of_sets(rt: HostRuntime) {
    assert!(rt; first_wrong_default(rt.alloc(), &SET) == None);
}

#[test]
fn defaults_of_bags(rt: HostRuntime) {
    assert!(rt; first_wrong_default(rt.alloc(), &BAGS) == None);
}
