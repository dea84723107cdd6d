//! The calls named after types, each once: strings of each type, open values, values with explicit tags, and
//! components that are optional or have a default.

use crate::common::{Wanted, decoder, encoder, is_kept};
use asn1_schema::records::{Item, Limits, RecordDecoder};
use asn1_schema::{
    Any, CodecKind, Constraints, Decode, DecodeError, DecodeNamed, DecodeSequence, Encode,
    EncodeError, EncodeNamed, EncodeSequence, Identifier, Tag,
};
use asn1_schema_example::measure::Zero;
use asn1_values_alphabets::{PermittedAlphabetError, StaticPermittedAlphabet};
use asn1_values_integers::Integer;
use asn1_values_strings::{
    BmpString, GeneralString, GraphicString, Ia5String, NumericString, PrintableString,
    TeletexString, VisibleString,
};
use std::alloc::Global;

/// A type of strings that has calls of its name.
trait Named: Encode + Decode + StaticPermittedAlphabet + PartialEq {
    /// Writes the string to an encoder by the name of its type.
    fn write<E: EncodeNamed>(&self, encoder: &mut E) -> Result<(), EncodeError>;

    /// Reads the string from a decoder by the name of its type.
    fn read<D: DecodeNamed>(alloc: Global, decoder: &mut D) -> Result<Self, DecodeError>;
}

impl Named for NumericString {
    fn write<E: EncodeNamed>(&self, encoder: &mut E) -> Result<(), EncodeError> {
        let (tag, identifier) = (Tag::NUMERIC_STRING, Identifier::NUMERIC_STRING);
        encoder.encode_numeric_string(tag, &Constraints::NONE, self, identifier)
    }

    fn read<D: DecodeNamed>(alloc: Global, decoder: &mut D) -> Result<Self, DecodeError> {
        decoder.decode_numeric_string(alloc, Tag::NUMERIC_STRING, &Constraints::NONE)
    }
}

impl Named for PrintableString {
    fn write<E: EncodeNamed>(&self, encoder: &mut E) -> Result<(), EncodeError> {
        let (tag, identifier) = (Tag::PRINTABLE_STRING, Identifier::PRINTABLE_STRING);
        encoder.encode_printable_string(tag, &Constraints::NONE, self, identifier)
    }

    fn read<D: DecodeNamed>(alloc: Global, decoder: &mut D) -> Result<Self, DecodeError> {
        decoder.decode_printable_string(alloc, Tag::PRINTABLE_STRING, &Constraints::NONE)
    }
}

impl Named for VisibleString {
    fn write<E: EncodeNamed>(&self, encoder: &mut E) -> Result<(), EncodeError> {
        let (tag, identifier) = (Tag::VISIBLE_STRING, Identifier::VISIBLE_STRING);
        encoder.encode_visible_string(tag, &Constraints::NONE, self, identifier)
    }

    fn read<D: DecodeNamed>(alloc: Global, decoder: &mut D) -> Result<Self, DecodeError> {
        decoder.decode_visible_string(alloc, Tag::VISIBLE_STRING, &Constraints::NONE)
    }
}

impl Named for Ia5String {
    fn write<E: EncodeNamed>(&self, encoder: &mut E) -> Result<(), EncodeError> {
        let (tag, identifier) = (Tag::IA5_STRING, Identifier::IA5_STRING);
        encoder.encode_ia5_string(tag, &Constraints::NONE, self, identifier)
    }

    fn read<D: DecodeNamed>(alloc: Global, decoder: &mut D) -> Result<Self, DecodeError> {
        decoder.decode_ia5_string(alloc, Tag::IA5_STRING, &Constraints::NONE)
    }
}

impl Named for GeneralString {
    fn write<E: EncodeNamed>(&self, encoder: &mut E) -> Result<(), EncodeError> {
        let (tag, identifier) = (Tag::GENERAL_STRING, Identifier::GENERAL_STRING);
        encoder.encode_general_string(tag, &Constraints::NONE, self, identifier)
    }

    fn read<D: DecodeNamed>(alloc: Global, decoder: &mut D) -> Result<Self, DecodeError> {
        decoder.decode_general_string(alloc, Tag::GENERAL_STRING, &Constraints::NONE)
    }
}

impl Named for GraphicString {
    fn write<E: EncodeNamed>(&self, encoder: &mut E) -> Result<(), EncodeError> {
        let (tag, identifier) = (Tag::GRAPHIC_STRING, Identifier::GRAPHIC_STRING);
        encoder.encode_graphic_string(tag, &Constraints::NONE, self, identifier)
    }

    fn read<D: DecodeNamed>(alloc: Global, decoder: &mut D) -> Result<Self, DecodeError> {
        decoder.decode_graphic_string(alloc, Tag::GRAPHIC_STRING, &Constraints::NONE)
    }
}

impl Named for TeletexString {
    fn write<E: EncodeNamed>(&self, encoder: &mut E) -> Result<(), EncodeError> {
        let (tag, identifier) = (Tag::TELETEX_STRING, Identifier::TELETEX_STRING);
        encoder.encode_teletex_string(tag, &Constraints::NONE, self, identifier)
    }

    fn read<D: DecodeNamed>(alloc: Global, decoder: &mut D) -> Result<Self, DecodeError> {
        decoder.decode_teletex_string(alloc, Tag::TELETEX_STRING, &Constraints::NONE)
    }
}

impl Named for BmpString {
    fn write<E: EncodeNamed>(&self, encoder: &mut E) -> Result<(), EncodeError> {
        let (tag, identifier) = (Tag::BMP_STRING, Identifier::BMP_STRING);
        encoder.encode_bmp_string(tag, &Constraints::NONE, self, identifier)
    }

    fn read<D: DecodeNamed>(alloc: Global, decoder: &mut D) -> Result<Self, DecodeError> {
        decoder.decode_bmp_string(alloc, Tag::BMP_STRING, &Constraints::NONE)
    }
}

/// The string of these characters, which its type permits.
fn string_of<S: StaticPermittedAlphabet>(
    alloc: Global,
    characters: &[u32],
) -> Result<S, PermittedAlphabetError> {
    let mut string = S::empty(alloc);
    for character in characters {
        string.push_char(*character)?;
    }
    Ok(string)
}

/// Whether a decoder returns this string by the name of its type.
fn is_found<S: Named>(alloc: Global, decoder: &mut RecordDecoder, string: &S) -> bool {
    match S::read(alloc, decoder) {
        Ok(read) => read == *string,
        Err(_) => false,
    }
}

/// Whether a string is read back by the name of its type.
fn is_read_by_name<S: Named>(alloc: Global, string: &S) -> bool {
    let mut kept = encoder(alloc);
    let is_written = string.write(&mut kept).is_ok();
    is_found(alloc, &mut decoder(kept), string) && is_written
}

/// Whether the string of these characters is written and read back by the name of its type.
fn is_string<S: Named>(alloc: Global, characters: &[u32]) -> Result<bool, PermittedAlphabetError> {
    let string: S = string_of(alloc, characters)?;
    Ok(is_read_by_name(alloc, &string))
}

/// Whether a string is written as its characters, and read back. (Those of the other types are in the vectors.)
fn are_characters(alloc: Global) -> Result<bool, PermittedAlphabetError> {
    let string: BmpString = string_of(alloc, &[0x20AC, 0x41])?;
    Ok(is_kept(alloc, &string, &[Wanted::Characters(&[0x20AC, 0x41])]))
}

/// Whether strings of each type are written and read back by their names.
fn are_strings(alloc: Global) -> Result<bool, PermittedAlphabetError> {
    Ok(
        is_string::<NumericString>(alloc, &[0x31, 0x20, 0x32])?
            && is_string::<PrintableString>(alloc, &[0x41, 0x3A])?
            && is_string::<VisibleString>(alloc, &[0x7E, 0x20, 0x61])?
            && is_string::<Ia5String>(alloc, &[0x00, 0x7F])?
            && is_string::<GeneralString>(alloc, &[0xFF, 0x1B])?
            && is_string::<GraphicString>(alloc, &[0xFF, 0x1B])?
            && is_string::<TeletexString>(alloc, &[0xFF, 0x1B])?
            && is_string::<BmpString>(alloc, &[0x20AC, 0x61])?
            && are_characters(alloc)?,
    )
}

/// Writes an open value to an encoder, and a number with this explicit tag.
fn write_any<E: EncodeNamed>(encoder: &mut E, any: &Any, tag: Tag) -> Result<(), EncodeError> {
    encoder.encode_any(Tag::OCTET_STRING, any, Identifier::OCTET_STRING)?;
    encoder.encode_explicit_prefix(tag, &7_u8, Identifier::INTEGER)
}

/// Whether a decoder returns this open value, and the number with this explicit tag.
fn is_any<D: DecodeNamed>(
    alloc: Global,
    decoder: &mut D,
    any: &Any,
    tag: Tag,
) -> Result<bool, DecodeError> {
    let is_same = decoder.decode_any(alloc, Tag::OCTET_STRING)? == *any;
    let number: u8 = decoder.decode_explicit_prefix(alloc, tag)?;
    Ok(is_same && number == 7)
}

/// Whether these are read back as they were written.
fn is_read_as_written(alloc: Global, any: &Any) -> Result<bool, DecodeError> {
    let tag = Tag::new_context(0);
    let mut kept = encoder(alloc);
    if write_any(&mut kept, any, tag) != Ok(()) {
        return Ok(false);
    }
    is_any(alloc, &mut decoder(kept), any, tag)
}

/// Whether some octets are read back as they were written.
fn is_any_kept(alloc: Global) -> Result<bool, DecodeError> {
    let any = Any::new(Vec::from_array(alloc, [5, 0])?);
    is_read_as_written(alloc, &any)
}

/// Writes optional components to an encoder: 1, 2, none and 4.
fn write_optional<E: EncodeSequence>(encoder: &mut E, tag: Tag) -> Result<(), EncodeError> {
    encoder.encode_some_with_tag(tag, &1_u8)?;
    encoder.encode_some_with_tag_and_constraints(tag, &2_u8, &Constraints::NONE)?;
    encoder.encode_none_with_tag::<u8>(tag)?;
    encoder.encode_some(&4_u8)
}

/// The components that a decoder returns: with a tag, with a tag and constraints, with constraints, and with an
/// explicit tag.
fn optional<D: DecodeSequence>(
    alloc: Global,
    decoder: &mut D,
    tag: Tag,
) -> Result<[Option<u8>; 4], DecodeError> {
    let under = Constraints::NONE;
    Ok([
        decoder.decode_optional_with_tag(alloc, tag)?,
        decoder.decode_optional_with_tag_and_constraints(alloc, tag, &under)?,
        decoder.decode_optional_with_constraints(alloc, &under)?,
        decoder.decode_optional_with_explicit_prefix(alloc, tag)?,
    ])
}

/// Whether these components are read back as they were written.
fn are_optional_kept(alloc: Global) -> bool {
    let tag = Tag::new_context(1);
    let mut kept = encoder(alloc);
    if write_optional(&mut kept, tag) != Ok(()) {
        return false;
    }
    optional(alloc, &mut decoder(kept), tag) == Ok([Some(1), Some(2), None, Some(4)])
}

/// Writes components with the default 0 to an encoder: the first number, and the second twice.
fn write_defaults<E: EncodeSequence>(
    encoder: &mut E,
    tag: Tag,
    (first, second): (&Integer, &Integer),
) -> Result<(), EncodeError> {
    let under = Constraints::NONE;
    encoder.encode_default_with_tag::<Zero, Integer>(tag, first)?;
    encoder.encode_default_with_constraints::<Zero, Integer>(second, &under)?;
    encoder.encode_default_with_tag_and_constraints::<Zero, Integer>(tag, second, &under)
}

/// Whether a decoder returns these numbers in such components.
fn are_defaults<D: DecodeSequence>(
    alloc: Global,
    decoder: &mut D,
    tag: Tag,
    (first, second): (&Integer, &Integer),
) -> Result<bool, DecodeError> {
    let under = Constraints::NONE;
    let is_first = decoder.decode_default_with_tag::<Zero, Integer>(alloc, tag)? == *first;
    let is_second = decoder.decode_default_with_constraints::<Zero, Integer>(alloc, &under)?
        == *second;
    let third = decoder.decode_default_with_tag_and_constraints::<Zero, Integer>(
        alloc, tag, &under,
    )?;
    Ok(is_first && is_second && third == *second)
}

/// Whether two numbers are read back from such components.
fn are_defaults_kept(alloc: Global, first: &Integer, second: &Integer) -> bool {
    let tag = Tag::new_context(1);
    let mut kept = encoder(alloc);
    if write_defaults(&mut kept, tag, (first, second)) != Ok(()) {
        return false;
    }
    are_defaults(alloc, &mut decoder(kept), tag, (first, second)) == Ok(true)
}

/// Appends the items of a default that is encoded, followed by a note of that or not.
fn push_spelled_out(items: &mut Vec<Item>, is_noted: bool) -> Result<(), DecodeError> {
    let limits = Limits {
        low: None,
        high: None,
        extensible: false,
    };
    items.push(Item::PresenceBit(true))?;
    items.push(Item::Integer(limits, Integer::zero()))?;
    if is_noted {
        items.push(Item::IsDefault)?;
    }
    Ok(())
}

/// Reads a component with the default 0 from a decoder.
fn with_default<D: DecodeSequence>(alloc: Global, decoder: &mut D) -> Result<Integer, DecodeError> {
    decoder.decode_default::<Zero, Integer>(alloc)
}

/// What is read of a default that is encoded, followed by a note of that or not.
fn spelled_out(alloc: Global, is_noted: bool) -> Result<Integer, DecodeError> {
    let mut items = Vec::new(alloc);
    push_spelled_out(&mut items, is_noted)?;
    with_default(alloc, &mut RecordDecoder::new(items, CodecKind::Uper))
}

/// Whether 0 and 5 are read back from components with a default.
fn are_zero_and_five_kept(alloc: Global) -> bool {
    are_defaults_kept(alloc, &Integer::zero(), &Integer::from(5_i64))
}

/// Whether a default that is encoded is read with the note after it, and is incomplete without it.
fn is_noted(alloc: Global) -> bool {
    spelled_out(alloc, true) == Ok(Integer::zero())
        && spelled_out(alloc, false) == Err(DecodeError::Incomplete)
}

#[test]
fn calls_by_names(rt: HostRuntime) {
    let alloc = rt.alloc();
    assert!(rt; matches!(are_strings(alloc), Ok(true)) && is_any_kept(alloc) == Ok(true));
    assert!(rt; are_optional_kept(alloc) && are_zero_and_five_kept(alloc) && is_noted(alloc));
}
