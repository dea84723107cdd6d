//! The tags with which the types begin (X.680 8 and 31).
use crate::bases::{Base, base_of};
use asn1_notation_names::{Files, NotationError, Problem, Scope, TypeUse, ValueUse, number_of};
use asn1_notation_tree::{StringName, TagClass, Tagging, TypeKind, UnsupportedType};
use asn1_schema_tags::{Class, Tag};
use std::alloc::Global;

/// The tag that is written before a type (X.680 31.2).
///
/// # Errors
///
/// `TagOutOfRange` at its number. Those of `number_of`.
pub fn written_tag(
    files: &Files<'_, '_>,
    scope: Scope,
    tagging: &Tagging,
) -> Result<Tag, NotationError> {
    let index = tagging.number;
    let number = number_of(files, ValueUse { scope, index })?;
    let place = files.value_term(scope, index)?.place;
    let Ok(value) = u32::try_from(number) else {
        return Err(scope.error(place, Problem::TagOutOfRange));
    };
    Ok(Tag::new(class_of(tagging.class), value))
}

/// The class of a tag.
fn class_of(class: TagClass) -> Class {
    match class {
        TagClass::Universal => Class::Universal,
        TagClass::Application => Class::Application,
        TagClass::Context => Class::Context,
        TagClass::Private => Class::Private,
    }
}

/// The number of a kind's universal tag (X.680 8.4), if it has one: a CHOICE and an open type have none.
pub fn universal_number(kind: &TypeKind) -> Option<u32> {
    match kind {
        TypeKind::Boolean => Some(1),
        TypeKind::Integer(_) => Some(2),
        TypeKind::BitString(_) => Some(3),
        TypeKind::OctetString => Some(4),
        TypeKind::Null => Some(5),
        TypeKind::ObjectIdentifier => Some(6),
        TypeKind::Enumerated(_) => Some(10),
        TypeKind::Sequence(_) | TypeKind::SequenceOf(_) => Some(16),
        TypeKind::Set(_) | TypeKind::SetOf(_) => Some(17),
        TypeKind::CharacterString(name) => Some(string_number(*name)),
        TypeKind::Unsupported(unsupported) => unsupported_number(unsupported),
        TypeKind::Choice(_) | TypeKind::Tagged(..) => None,
        TypeKind::Reference(_) | TypeKind::Selection(..) => None,
    }
}

/// The number of a character string's universal tag (X.680 41.1).
fn string_number(name: StringName) -> u32 {
    match name {
        StringName::Utf8 => 12,
        StringName::Numeric => 18,
        StringName::Printable => 19,
        StringName::Teletex => 20,
        StringName::Videotex => 21,
        StringName::Ia5 => 22,
        StringName::Graphic => 25,
        StringName::Visible => 26,
        StringName::General => 27,
        StringName::Universal => 28,
        StringName::Bmp => 30,
    }
}

/// The number of the universal tag of a type that tables do not hold (X.680 8.4).
fn unsupported_number(unsupported: &UnsupportedType) -> Option<u32> {
    match unsupported {
        UnsupportedType::ObjectDescriptor => Some(7),
        UnsupportedType::External | UnsupportedType::InstanceOf(_) => Some(8),
        UnsupportedType::Real => Some(9),
        UnsupportedType::EmbeddedPdv => Some(11),
        UnsupportedType::RelativeObjectIdentifier => Some(13),
        UnsupportedType::Time => Some(14),
        UnsupportedType::UtcTime => Some(23),
        UnsupportedType::GeneralizedTime => Some(24),
        UnsupportedType::UnrestrictedCharacterString => Some(29),
        UnsupportedType::Date => Some(31),
        UnsupportedType::TimeOfDay => Some(32),
        UnsupportedType::DateTime => Some(33),
        UnsupportedType::Duration => Some(34),
        UnsupportedType::InternationalizedIdentifier => Some(35),
        UnsupportedType::RelativeInternationalizedIdentifier => Some(36),
        UnsupportedType::Any | UnsupportedType::Field(..) | UnsupportedType::OfObject => None,
    }
}

/// The outermost tag of a type, if it has one.
///
/// # Errors
///
/// Those of `written_tag`.
pub fn own_tag(files: &Files<'_, '_>, base: &Base<'_>) -> Result<Option<Tag>, NotationError> {
    if let Some((scope, tagging)) = base.tag {
        return Ok(Some(written_tag(files, scope, tagging)?));
    }
    let number = universal_number(&base.term.kind);
    Ok(number.map(|value| Tag::new(Class::Universal, value)))
}

/// Whether a type is written with a tag of its own.
///
/// # Errors
///
/// Those of `Files::type_term`.
pub fn is_written_tagged(files: &Files<'_, '_>, at: TypeUse) -> Result<bool, NotationError> {
    Ok(matches!(files.type_term(at)?.kind, TypeKind::Tagged(..)))
}

/// The base of a type, and its outermost tag, if it has one.
///
/// # Errors
///
/// Those of `base_of`, and of a number of a tag: `TagOutOfRange` at it, and those of `number_of`.
pub fn tagged_base<'a>(
    alloc: Global,
    files: &mut Files<'a, '_>,
    at: TypeUse,
) -> Result<(Base<'a>, Option<Tag>), NotationError> {
    let base = base_of(alloc, files, at)?;
    let tag = own_tag(files, &base)?;
    Ok((base, tag))
}
