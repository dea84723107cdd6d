//! The tags of a CHOICE of a table.
use crate::common::{Node, nodes_of};
use asn1_schema_tags::{Tag, TagTables};
use asn1_table_types::Types;
use std::alloc::Global;

/// An extensible CHOICE with added tags that are between the root ones and less than all of them.
const NODES: [Node; 2] = [
    Node::Null,
    Node::Choice(&[(1, 0), (5, 0)], true, &[(3, 0), (0, 0)]),
];

/// Whether a context-specific tag has this index, if any.
fn has(tables: &TagTables<'_>, number: u32, index: Option<usize>) -> bool {
    tables.find(Tag::new_context(number)) == index
}

/// Whether tags are one context-specific tag and then another.
fn are(tags: &[Tag], first: u32, second: u32) -> bool {
    tags == [Tag::new_context(first), Tag::new_context(second)].as_slice()
}

/// Whether each tag is found at its index, and no other one.
fn are_found(tables: &TagTables<'_>) -> bool {
    let roots = has(tables, 1, Some(0)) && has(tables, 5, Some(1));
    let additions = has(tables, 3, Some(2)) && has(tables, 0, Some(3));
    roots && additions && has(tables, 2, None)
}

/// Whether these are the tags of that CHOICE.
fn are_those(tables: &TagTables<'_>) -> bool {
    let roots = are(tables.roots(), 1, 5);
    roots && tables.extensible() && are(tables.additions(), 3, 0)
}

/// Whether the tags are given at index 1, and none at another.
fn has_tags(types: &Types) -> bool {
    let is_right = match types.choice_tags(1) {
        Some(tables) => are_found(&tables) && are_those(&tables),
        None => false,
    };
    is_right && types.choice_tags(0).is_none() && types.choice_tags(2).is_none()
}

/// Whether a table of these types has the tags.
fn has_tags_in(alloc: Global) -> bool {
    let Ok(nodes) = nodes_of(alloc, &NODES) else {
        return false;
    };
    match Types::new(alloc, nodes) {
        Ok(types) => has_tags(&types),
        Err(_) => false,
    }
}

#[test]
fn tags_of_a_choice(rt: HostRuntime) {
    assert!(rt; has_tags_in(rt.alloc()));
}
