//! Types without parts, and tags (X.680 8 and 17).
use crate::constraints::{write_limits, write_sizes, write_string_constraint};
use crate::labels::{Labels, is_item};
use asn1_notation_tokens::ItemKind;
use asn1_schema_constraints::{Bounded, Sizes};
use asn1_schema_tags::{Class, Tag};
use asn1_table_json_writing::number_text;
use asn1_table_types::{ItemTable, StringKind, TypeNode};
use std::alloc::AllocError;

/// The universal tag of a type (X.680 8.4), if it has one: a CHOICE has none. A type outside the table is written as
/// REAL.
fn own_tag(node: Option<&TypeNode>) -> Option<Tag> {
    match node {
        None => Some(Tag::REAL),
        Some(TypeNode::Boolean) => Some(Tag::BOOL),
        Some(TypeNode::Null) => Some(Tag::NULL),
        Some(TypeNode::Integer(_)) => Some(Tag::INTEGER),
        Some(TypeNode::Enumerated(_)) => Some(Tag::ENUMERATED),
        Some(TypeNode::BitString(_)) => Some(Tag::BIT_STRING),
        Some(TypeNode::OctetString(_)) => Some(Tag::OCTET_STRING),
        Some(TypeNode::CharacterString(table)) => Some(tag_of_string(table.kind)),
        Some(TypeNode::ObjectIdentifier) => Some(Tag::OBJECT_IDENTIFIER),
        Some(TypeNode::SequenceOf(..) | TypeNode::Sequence(_)) => Some(Tag::SEQUENCE),
        Some(TypeNode::SetOf(..) | TypeNode::Set(_)) => Some(Tag::SET),
        Some(TypeNode::Group(_) | TypeNode::Choice(_)) => None,
    }
}

/// The universal tag of a restricted character string (X.680 41.1).
fn tag_of_string(kind: StringKind) -> Tag {
    match kind {
        StringKind::Numeric => Tag::NUMERIC_STRING,
        StringKind::Printable => Tag::PRINTABLE_STRING,
        StringKind::Visible => Tag::VISIBLE_STRING,
        StringKind::Ia5 => Tag::IA5_STRING,
        StringKind::Bmp => Tag::BMP_STRING,
        StringKind::General => Tag::GENERAL_STRING,
        StringKind::Graphic => Tag::GRAPHIC_STRING,
        StringKind::Teletex => Tag::TELETEX_STRING,
        StringKind::Utf8 => Tag::UTF8_STRING,
    }
}

/// The name of a restricted character string type (X.680 41.1).
fn name_of_string(kind: StringKind) -> &'static str {
    match kind {
        StringKind::Numeric => "NumericString",
        StringKind::Printable => "PrintableString",
        StringKind::Visible => "VisibleString",
        StringKind::Ia5 => "IA5String",
        StringKind::Bmp => "BMPString",
        StringKind::General => "GeneralString",
        StringKind::Graphic => "GraphicString",
        StringKind::Teletex => "TeletexString",
        StringKind::Utf8 => "UTF8String",
    }
}

/// The tag of a part and a space, unless it is the type's own, or the part has those of a CHOICE's alternatives
/// (X.680 31).
pub fn write_tag(
    text: &mut String,
    tags: &[Tag],
    node: Option<&TypeNode>,
) -> Result<(), AllocError> {
    let [tag] = tags else {
        return Ok(());
    };
    if own_tag(node) == Some(*tag) {
        return Ok(());
    }
    let class = match tag.class {
        Class::Universal => "UNIVERSAL ",
        Class::Application => "APPLICATION ",
        Class::Context => "",
        Class::Private => "PRIVATE ",
    };
    let number = tag.value;
    write!(text, "[{class}{number}] ")
}

/// A type without parts; its index is given.
pub fn write_scalar(
    text: &mut String,
    labels: Labels<'_>,
    node: &TypeNode,
    place: usize,
) -> Result<(), AllocError> {
    match node {
        TypeNode::Boolean => text.push_str("BOOLEAN"),
        TypeNode::Null => text.push_str("NULL"),
        TypeNode::Integer(limits) => {
            text.push_str("INTEGER")?;
            write_numbers(text, labels, place)?;
            match limits {
                Some(limits) => write_limits(text, limits),
                None => Ok(()),
            }
        }
        TypeNode::Enumerated(items) => write_items(text, labels, items, place),
        TypeNode::BitString(sizes) => {
            text.push_str("BIT STRING")?;
            if is_fixed(*sizes) {
                write_numbers(text, labels, place)?;
            }
            write_sizes(text, *sizes)
        }
        TypeNode::OctetString(sizes) => {
            text.push_str("OCTET STRING")?;
            write_sizes(text, *sizes)
        }
        TypeNode::CharacterString(table) => {
            text.push_str(name_of_string(table.kind))?;
            write_string_constraint(text, table)
        }
        _ => text.push_str("OBJECT IDENTIFIER"),
    }
}

/// Whether there is one size. With others named bits have another meaning (X.680 22.7), which tables do not hold.
fn is_fixed(sizes: Sizes) -> bool {
    matches!(sizes.root, Bounded::Single(_)) && !sizes.is_extensible
}

/// The named numbers of an INTEGER, or the named bits of a BIT STRING, after a space, if there are any (X.680 19.1 and
/// 22.1).
fn write_numbers(text: &mut String, labels: Labels<'_>, place: usize) -> Result<(), AllocError> {
    let Some(names) = labels.names.types.get(place) else {
        return Ok(());
    };
    let mut is_first = true;
    for named in &names.numbers {
        let name = named.name.as_str();
        if !is_item(labels.alloc, name, ItemKind::Identifier)? {
            continue;
        }
        let digits = number_text(labels.alloc, &named.number)?;
        let digits = digits.as_str();
        let before = if is_first { " {" } else { ", " };
        write!(text, "{before}{name}({digits})")?;
        is_first = false;
    }
    if !is_first {
        text.push('}')?;
    }
    Ok(())
}

/// An ENUMERATED: its items with their numbers (X.680 20.1).
fn write_items(
    text: &mut String,
    labels: Labels<'_>,
    items: &ItemTable,
    place: usize,
) -> Result<(), AllocError> {
    text.push_str("ENUMERATED {")?;
    write_some_items(text, labels, items.root.as_slice(), place)?;
    if items.is_extensible {
        text.push_str(", ...")?;
    }
    if !items.additions.is_empty() {
        text.push_str(", ")?;
    }
    write_some_items(text, labels, items.additions.as_slice(), place)?;
    text.push('}')
}

/// Items with their numbers, separated by commas.
fn write_some_items(
    text: &mut String,
    labels: Labels<'_>,
    items: &[isize],
    place: usize,
) -> Result<(), AllocError> {
    for index in 0..items.len() {
        if index > 0 {
            text.push_str(", ")?;
        }
        let item = items[index];
        labels.write_item(text, place, item)?;
        write!(text, "({item})")?;
    }
    Ok(())
}
