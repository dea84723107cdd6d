//! Types without types in them (X.680 17.2).
use crate::enumerations::{read_enumeration, read_named_numbers};
use crate::parser::Parser;
use crate::references::read_class;
use crate::refusals::Parsed;
use asn1_notation_tokens::Word;
use asn1_notation_tree::{Expected, StringName, TypeKind, UnsupportedType};

/// A type without types in it, which begins with a reserved word, the next item.
pub fn read_simple(parser: &mut Parser<'_>, word: Word) -> Parsed<TypeKind> {
    if let Some(name) = string_name(word) {
        parser.advance();
        return Ok(TypeKind::CharacterString(name));
    }
    if let Some(unsupported) = unsupported_word(word) {
        parser.advance();
        return Ok(TypeKind::Unsupported(unsupported));
    }
    match word {
        Word::Boolean => {
            parser.advance();
            Ok(TypeKind::Boolean)
        }
        Word::Null => {
            parser.advance();
            Ok(TypeKind::Null)
        }
        Word::Integer => {
            parser.advance();
            Ok(TypeKind::Integer(read_named_numbers(parser)?))
        }
        Word::Enumerated => {
            parser.advance();
            Ok(TypeKind::Enumerated(read_enumeration(parser)?))
        }
        _ => read_words(parser, word),
    }
}

/// A type whose name has more than one word.
fn read_words(parser: &mut Parser<'_>, word: Word) -> Parsed<TypeKind> {
    match word {
        Word::Bit => {
            parser.advance();
            parser.expect_word(Word::String)?;
            Ok(TypeKind::BitString(read_named_numbers(parser)?))
        }
        Word::Octet => {
            parser.advance();
            parser.expect_word(Word::String)?;
            Ok(TypeKind::OctetString)
        }
        Word::Object => {
            parser.advance();
            parser.expect_word(Word::Identifier)?;
            Ok(TypeKind::ObjectIdentifier)
        }
        _ => Ok(TypeKind::Unsupported(read_unsupported(parser, word)?)),
    }
}

/// A type whose name has more than one word, and that tables do not hold.
fn read_unsupported(parser: &mut Parser<'_>, word: Word) -> Parsed<UnsupportedType> {
    match word {
        Word::Character => {
            parser.advance();
            parser.expect_word(Word::String)?;
            Ok(UnsupportedType::UnrestrictedCharacterString)
        }
        Word::Embedded => {
            parser.advance();
            parser.expect_word(Word::Pdv)?;
            Ok(UnsupportedType::EmbeddedPdv)
        }
        Word::Instance => {
            parser.advance();
            parser.expect_word(Word::Of)?;
            Ok(UnsupportedType::InstanceOf(read_class(parser)?))
        }
        Word::Any => {
            parser.advance();
            if parser.eat_word(Word::Defined) {
                parser.expect_word(Word::By)?;
                parser.identifier()?;
            }
            Ok(UnsupportedType::Any)
        }
        _ => Err(parser.expected(Expected::Type)),
    }
}

/// The restricted character string type with a name (X.680 41).
fn string_name(word: Word) -> Option<StringName> {
    match word {
        Word::BmpString => Some(StringName::Bmp),
        Word::GeneralString => Some(StringName::General),
        Word::GraphicString => Some(StringName::Graphic),
        Word::Ia5String => Some(StringName::Ia5),
        Word::NumericString => Some(StringName::Numeric),
        Word::PrintableString => Some(StringName::Printable),
        Word::TeletexString | Word::T61String => Some(StringName::Teletex),
        Word::UniversalString => Some(StringName::Universal),
        Word::Utf8String => Some(StringName::Utf8),
        Word::VideotexString => Some(StringName::Videotex),
        Word::VisibleString | Word::Iso646String => Some(StringName::Visible),
        _ => None,
    }
}

/// The type of one word that tables do not hold.
fn unsupported_word(word: Word) -> Option<UnsupportedType> {
    match word {
        Word::Real => Some(UnsupportedType::Real),
        Word::UtcTime => Some(UnsupportedType::UtcTime),
        Word::GeneralizedTime => Some(UnsupportedType::GeneralizedTime),
        Word::Time => Some(UnsupportedType::Time),
        Word::Date => Some(UnsupportedType::Date),
        Word::TimeOfDay => Some(UnsupportedType::TimeOfDay),
        Word::DateTime => Some(UnsupportedType::DateTime),
        Word::Duration => Some(UnsupportedType::Duration),
        Word::ObjectDescriptor => Some(UnsupportedType::ObjectDescriptor),
        Word::External => Some(UnsupportedType::External),
        Word::RelativeOid => Some(UnsupportedType::RelativeObjectIdentifier),
        Word::OidIri => Some(UnsupportedType::InternationalizedIdentifier),
        Word::RelativeOidIri => Some(UnsupportedType::RelativeInternationalizedIdentifier),
        _ => None,
    }
}
