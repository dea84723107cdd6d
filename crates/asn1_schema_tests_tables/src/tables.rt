//! Tables of components and errors: rows, and each call once.
use crate::common::is_told;
use asn1_schema::{
    Class, CodecKind, DecodeError, EncodeError, Field, FieldPresence, Fields, Tag, TagTree,
};
use std::alloc::AllocError;

const A: Tag = Tag {
    class: Class::Context,
    value: 444,
};

const B: Tag = Tag {
    class: Class::Context,
    value: 5,
};

const C: Tag = Tag {
    class: Class::Application,
    value: 9,
};

/// Whether a table is in canonical order, that of the smallest tags.
fn are_ordered() -> bool {
    let first = Field::new_optional(0, A, TagTree::Leaf(A), "a");
    let second = Field::new_optional(1, B, TagTree::Leaf(B), "b");
    let third = Field::new_optional(2, C, TagTree::Leaf(C), "c");
    !Fields::from_static(&[first, second, third]).is_canonical()
        && Fields::from_static(&[third, second, first]).is_canonical()
        && !Fields::from_static(&[second, second]).is_canonical()
        && Fields::from_static(&[]).is_canonical()
}

/// Whether four fields, the second optional and the fourth with a default, are counted, found and compared.
fn are_found(fields: &[Field<'_>; 4]) -> bool {
    let table = Fields::from_static(fields);
    let mut optional = table.optional_and_default_fields();
    let is_second = matches!(optional.next(), Some(field) if field.name == "b");
    let is_fourth = matches!(optional.next(), Some(field) if *field == fields[3]);
    let is_last = optional.next().is_none() && optional.next().is_none();
    is_second
        && is_fourth
        && is_last
        && fields[0] != fields[2]
        && table == Fields::from_static(fields)
        && table.len() == 4
        && !table.is_empty()
        && table.is_not_empty()
        && table.has_required_field()
        && table.number_of_optional_and_default_fields() == 2
        && table.iter().count() == 4
        && fields[0].is_not_optional_or_default()
        && FieldPresence::Default.is_optional_or_default()
}

/// Whether three fields, the last two optional, are counted.
fn are_counted(fields: &[Field<'_>; 3]) -> bool {
    let table = Fields::from_static(fields);
    table.len() == 3
        && table.number_of_optional_and_default_fields() == 2
        && table.iter().count() == 3
        && fields[0].is_not_optional_or_default()
}

/// Whether fields of a type have its tag.
fn are_of_types() -> bool {
    let tree = TagTree::Leaf(Tag::BOOL);
    let required = Field::new_required(0, Tag::BOOL, tree, "a");
    let optional = Field::new_optional(1, Tag::BOOL, tree, "b");
    let other = Field::new_required(2, Tag::BOOL, tree, "c");
    let default = Field::new_default(3, Tag::BOOL, tree, "d");
    Field::new_required_type::<bool>(0, "a") == required
        && Field::new_optional_type::<bool>(1, "b") == optional
        && Field::new_default_type::<bool>(3, "d") == default
        && are_found(&[required, optional, other, default])
        && are_counted(&[required, optional, default])
}

#[test]
fn tables_of_fields(rt: HostRuntime) {
    assert!(rt; are_ordered() && are_of_types());
}

/// Whether errors are distinguished, and made from an `AllocError`.
fn are_told_apart() -> bool {
    DecodeError::Incomplete != DecodeError::SurplusOctets
        && EncodeError::TooLongValue != EncodeError::AlreadyFailed
        && CodecKind::Uper != CodecKind::Aper
        && DecodeError::from(AllocError) == DecodeError::OutOfMemory
        && EncodeError::from(AllocError) == EncodeError::OutOfMemory
}

#[test]
fn errors(rt: HostRuntime) {
    let alloc = rt.alloc();
    assert!(rt; is_told(alloc, &DecodeError::Incomplete, "the input ends early"));
    assert!(rt;
        is_told(
            alloc,
            &EncodeError::TooLongValue,
            "the encoding is too long"
        )
    );
    assert!(rt; are_told_apart());
}
