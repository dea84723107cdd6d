//! Tags, the names of types, and trees of tags: rows, printing, and each call once.
use crate::common::{assert_none, is_told};
use asn1_schema::{AsnType, Class, Identifier, Tag, TagTree, Variants, tag};
use std::alloc::{AllocError, Global};
use std::cmp::Ordering;
use std::ops::DerefSlice;

/// Universal tags, each with the tag of the marker of its name, and with its number.
macro_rules! universal_tags {
    ($($name:ident $number:literal)*) => {
        [$((Tag::$name, tag::$name::TAG, $number)),*]
    };
}

/// The universal tags (X.680 8.4).
fn universal() -> [(Tag, Tag, u32); 34] {
    universal_tags![
        EOC 0 BOOL 1 INTEGER 2 BIT_STRING 3 OCTET_STRING 4 NULL 5 OBJECT_IDENTIFIER 6 OBJECT_DESCRIPTOR 7
        EXTERNAL 8 REAL 9 ENUMERATED 10 EMBEDDED_PDV 11 UTF8_STRING 12 RELATIVE_OID 13 TIME 14 SEQUENCE 16
        SET 17 NUMERIC_STRING 18 PRINTABLE_STRING 19 TELETEX_STRING 20 VIDEOTEX_STRING 21 IA5_STRING 22
        UTC_TIME 23 GENERALIZED_TIME 24 GRAPHIC_STRING 25 VISIBLE_STRING 26 GENERAL_STRING 27
        UNIVERSAL_STRING 28 CHARACTER_STRING 29 BMP_STRING 30 DATE 31 TIME_OF_DAY 32 DATE_TIME 33 DURATION 34
    ]
}

/// Types, each with its name.
macro_rules! named_types {
    ($($type:ident $name:literal)*) => {
        [$((Identifier::$type, $name)),*]
    };
}

/// The types and their names.
const NAMED: [(Identifier, &'static str); 35] = named_types![
    BOOL "BOOLEAN" INTEGER "INTEGER" BIT_STRING "BIT_STRING" OCTET_STRING "OCTET_STRING" NULL "NULL"
    OBJECT_IDENTIFIER "OBJECT_IDENTIFIER" EXTERNAL "EXTERNAL" ENUMERATED "ENUMERATED" EMBEDDED_PDV "EMBEDDED_PDV"
    UTF8_STRING "UTF8String" RELATIVE_OID "RELATIVE_OID" TIME "TIME" SEQUENCE "SEQUENCE" SET "SET"
    NUMERIC_STRING "NumericString" PRINTABLE_STRING "PrintableString" TELETEX_STRING "TeletexString"
    IA5_STRING "IA5String" UTC_TIME "UTCTime" GENERALIZED_TIME "GeneralizedTime" GRAPHIC_STRING "GraphicString"
    VISIBLE_STRING "VisibleString" GENERAL_STRING "GeneralString" BMP_STRING "BMPString" DATE "DATE"
    TIME_OF_DAY "TIME_OF_DAY" DATE_TIME "DATE_TIME" DURATION "DURATION" CHOICE "CHOICE" INSTANCE_OF "INSTANCE_OF"
    IRI "IRI" RELATIVE_IRI "RELATIVE_IRI" SEQUENCE_OF "SEQUENCE_OF" SET_OF "SET_OF"
    UNRESTRICTED_CHARACTER_STRING "UNRESTRICTED_CHARACTER_STRING"
];

/// The number of the universal tag that is not the one of its name, if there is one.
fn wrong_universal() -> Option<u32> {
    for (named, told, number) in universal() {
        let found = Tag::new(Class::Universal, number);
        if named != found || told != found {
            return Some(number);
        }
    }
    None
}

/// The name that is not the one of its type, if there is one.
fn wrong_name() -> Option<&'static str> {
    for (found, name) in &NAMED {
        if *found != Identifier(Some(*name)) {
            return Some(*name);
        }
    }
    None
}

/// Two tags, and their order: by class first.
fn ordered() -> [(Tag, Tag, Ordering); 6] {
    let (near, far) = (Tag::new_context(5), Tag::new_context(444));
    [
        (Tag::new_application(9), near, Ordering::Less),
        (near, far, Ordering::Less),
        (Tag::new_private(0), far, Ordering::Greater),
        (Tag::BMP_STRING, Tag::new_application(0), Ordering::Less),
        (Tag::SET, Tag::SEQUENCE, Ordering::Greater),
        (far, far, Ordering::Equal),
    ]
}

/// Whether two tags are ordered in this way, by each comparison.
fn are_ordered(one: Tag, other: Tag, wanted: Ordering) -> bool {
    one.const_cmp(&other) == wanted
        && one.cmp(&other) == wanted
        && one.const_less_than(other) == (wanted == Ordering::Less)
        && one.const_eq(&other) == (wanted == Ordering::Equal)
        && (one == other) == (wanted == Ordering::Equal)
}

/// The first of two tags that are not ordered as their row says, if there are any.
fn wrong_order() -> Option<Tag> {
    for (one, other, wanted) in ordered() {
        if !are_ordered(one, other, wanted) {
            return Some(one);
        }
    }
    None
}

/// Whether tags are printed.
fn are_shown(alloc: Global) -> bool {
    is_told(alloc, &Tag::new_application(9), "[APPLICATION 9]")
        && is_told(alloc, &Tag::new_context(5), "[5]")
        && is_told(alloc, &Tag::INTEGER, "[UNIVERSAL 2]")
        && is_told(alloc, &Tag::new_private(3), "[PRIVATE 3]")
}

/// Whether a tag has this class and this number.
fn is_made(found: Tag, class: Class, value: u32) -> bool {
    found == Tag { class, value }
}

/// Whether tags are made from their class and their number.
fn are_made() -> bool {
    is_made(Tag::new_application(9), Class::Application, 9)
        && is_made(Tag::new_context(444), Class::Context, 444)
        && is_made(Tag::new_private(3), Class::Private, 3)
        && is_made(Tag::CHOICE, Class::Universal, 0)
        && Tag::new(Class::Context, 7) == Tag::new_context(7)
        && Tag::INTEGER.set_value(1) == Tag::BOOL
        && Tag::CHOICE.is_choice()
        && !Tag::NULL.is_choice()
        && Class::from_u8(1) == Class::Application
        && Class::from_u8(0).is_universal()
        && !Class::from_u8(3).is_universal()
}

/// Whether names replace missing ones.
fn stand_in() -> bool {
    Identifier::EMPTY.or(Identifier::BOOL) == Identifier::BOOL
        && Identifier::SET.or(Identifier::BOOL) == Identifier::SET
        && Identifier(Some("IA5String")).unwrap() == "IA5String"
        && Identifier::EMPTY.0 == None
}

/// Whether each marker of another class has the tag of its name.
fn markers_have_tags() -> bool {
    tag::Application::<9>::TAG == Tag::new_application(9)
        && tag::Context::<5>::TAG == Tag::new_context(5)
        && tag::Private::<0>::TAG == Tag::new_private(0)
}

#[test]
fn tags_and_names(rt: HostRuntime) {
    assert_none(&rt, &wrong_universal());
    assert_none(&rt, &wrong_name());
    assert_none(&rt, &wrong_order());
    assert!(rt; are_shown(rt.alloc()) && are_made() && stand_in() && markers_have_tags());
}

/// A tag of this class and this number.
macro_rules! tag_of {
    ($class:ident $value:literal) => {
        Tag {
            class: Class::$class,
            value: $value,
        }
    };
}

const FIRST: Tag = tag_of!(Context 1);

const THIRD: Tag = tag_of!(Context 3);

const INNER: [TagTree<'static>; 2] = [TagTree::Leaf(THIRD), TagTree::Leaf(Tag::NULL)];

const OUTER: [TagTree<'static>; 3] = [
    TagTree::Leaf(FIRST),
    TagTree::Choice(&INNER),
    TagTree::Choice(&[]),
];

/// Tags that repeat next to each other, and apart.
const REPEATED: [TagTree<'static>; 7] = [
    TagTree::Leaf(Tag::BIT_STRING),
    TagTree::Leaf(tag_of!(Application 0)),
    TagTree::Leaf(tag_of!(Application 0)),
    TagTree::Leaf(tag_of!(Context 0)),
    TagTree::Leaf(tag_of!(Context 0)),
    TagTree::Leaf(tag_of!(Private 0)),
    TagTree::Leaf(tag_of!(Private 0)),
];

const APART: [TagTree<'static>; 3] = [
    TagTree::Leaf(tag_of!(Context 0)),
    TagTree::Leaf(Tag::NULL),
    TagTree::Leaf(tag_of!(Context 0)),
];

/// Tags, and their indices among the leaves.
const PLACES: [(Tag, Option<usize>); 4] = [
    (FIRST, Some(0)),
    (THIRD, Some(1)),
    (Tag::NULL, Some(2)),
    (Tag::BOOL, None),
];

/// Whether the three leaves of a tree of alternatives are found.
fn are_found(tree: &TagTree<'_>) -> bool {
    let Some(count) = tree.leaf_count() else {
        return false;
    };
    for (tag, place) in &PLACES {
        let is_there = match place {
            Some(place) => tree.leaf_at(*place) == Some(*tag),
            None => true,
        };
        if !is_there || tree.leaf_position(tag) != *place {
            return false;
        }
    }
    count == 3 && tree.leaf_at(3) == None
}

/// Whether a tree of alternatives has its leaves, and one with repeated tags is not unique.
fn is_tree() -> bool {
    let tree = TagTree::Choice(&OUTER);
    are_found(&tree)
        && tree.is_unique()
        && tree.smallest_tag() == Tag::NULL
        && TagTree::empty().smallest_tag() == Tag::new_private(4294967295)
        && TagTree::tag_contains(&Tag::NULL, &OUTER)
        && !TagTree::tag_contains(&Tag::BOOL, &OUTER)
        && !TagTree::Choice(&REPEATED).is_unique()
        && !TagTree::Choice(&APART).is_unique()
}

/// Whether trees are compared by their leaves, in order.
fn are_compared() -> bool {
    let inner = [TagTree::Leaf(THIRD), TagTree::Leaf(Tag::NULL)];
    let same = [TagTree::Leaf(THIRD), TagTree::Leaf(Tag::NULL)];
    let turned = [TagTree::Leaf(Tag::NULL), TagTree::Leaf(THIRD)];
    let tree = TagTree::Choice(&inner);
    let equal = TagTree::Choice(&same);
    let other = TagTree::Choice(&turned);
    tree == equal && tree != other
}

/// Whether a leaf is different from a CHOICE of that leaf.
fn is_no_choice() -> bool {
    let leaves = [TagTree::Leaf(Tag::NULL)];
    let choice = TagTree::Choice(&leaves);
    let leaf = TagTree::Leaf(Tag::NULL);
    leaf != choice
}

/// Whether alternatives are lists of trees, borrowed, owned or empty.
fn are_lists(alloc: Global) -> Result<bool, AllocError> {
    let mut kept = Vec::new(alloc);
    kept.push(TagTree::Leaf(Tag::SET))?;
    let owned = Variants::new(kept);
    Ok(
        owned.deref().len() == 1
            && Variants::from_slice(&INNER).deref().len() == 2
            && Variants::empty().deref().len() == 0
            && Variants::from_static(&[]).deref().len() == 0,
    )
}

#[test]
fn trees_of_tags(rt: HostRuntime) {
    assert!(rt; is_tree() && are_compared() && is_no_choice());
    assert!(rt; are_lists(rt.alloc()) == Ok(true));
}
