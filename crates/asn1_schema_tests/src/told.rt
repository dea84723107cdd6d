//! The tag and the name of each type, and whether it is a CHOICE.
use crate::up_to_ten::UpToTen;
use asn1_schema::{
    Any, AsnType, Constrained, Explicit, Implicit, InstanceOf, SetOf, Tag, TagTree, tag,
};
use asn1_schema_example::answer::Answer;
use asn1_schema_example::colour::Colour;
use asn1_schema_example::gauge::Gauge;
use asn1_schema_example::message::Message;
use asn1_schema_example::power::Power;
use asn1_schema_example::setting::Setting;
use asn1_values_bit_strings::{BitString, FixedBitString};
use asn1_values_bits::BitStr;
use asn1_values_identifiers::{ObjectIdentifier, Oid};
use asn1_values_integers::{ConstrainedInteger, Integer};
use asn1_values_octets::{FixedOctetString, OctetString};
use asn1_values_strings::{
    BmpString, GeneralString, GraphicString, Ia5String, NumericString, PrintableString,
    TeletexString, VisibleString,
};
use std::alloc::Global;
use std::borrow::{Cow, CowSlice, CowStr};
use std::marker::PhantomData;

/// Whether a type has this tag and this name, is a CHOICE as given, and has tags of alternatives exactly if it is one.
fn is_told<T: AsnType>(tag: Tag, name: &'static str, is_choice: bool) -> bool {
    let has_alternatives = match T::tag_tree() {
        TagTree::Leaf(_) => false,
        TagTree::Choice(_) => true,
    };
    T::TAG == tag
        && T::IDENTIFIER.0 == Some(name)
        && T::IS_CHOICE == is_choice
        && has_alternatives == is_choice
}

/// Whether a type that is not a CHOICE has this tag and this name.
fn is_plain<T: AsnType>(tag: Tag, name: &'static str) -> bool {
    is_told::<T>(tag, name, false)
}

/// Whether a CHOICE has this name.
fn is_choice<T: AsnType>(name: &'static str) -> bool {
    is_told::<T>(Tag::CHOICE, name, true)
}

/// Whether an integer type has the tag and the name of INTEGER.
fn is_integer<T: AsnType>() -> bool {
    is_plain::<T>(Tag::INTEGER, "INTEGER")
}

fn are_native_numbers() -> bool {
    let are_signed = is_integer::<i8>()
        && is_integer::<i16>()
        && is_integer::<i32>()
        && is_integer::<i64>()
        && is_integer::<i128>()
        && is_integer::<isize>();
    are_signed
        && is_integer::<u8>()
        && is_integer::<u16>()
        && is_integer::<u32>()
        && is_integer::<u64>()
        && is_integer::<u128>()
        && is_integer::<usize>()
}

fn are_other_scalars() -> bool {
    is_plain::<bool>(Tag::BOOL, "BOOLEAN")
        && is_plain::<()>(Tag::NULL, "NULL")
        && is_plain::<PhantomData<u8>>(Tag::NULL, "NULL")
        && is_integer::<Integer>()
        && is_integer::<ConstrainedInteger<1, 3>>()
        && is_plain::<ObjectIdentifier>(Tag::OBJECT_IDENTIFIER, "OBJECT_IDENTIFIER")
        && is_plain::<Oid<'static>>(Tag::OBJECT_IDENTIFIER, "OBJECT_IDENTIFIER")
        && is_plain::<Colour>(Tag::ENUMERATED, "Colour")
        && is_plain::<Answer>(Tag::ENUMERATED, "Answer")
}

fn are_strings() -> bool {
    is_plain::<BitString>(Tag::BIT_STRING, "BIT_STRING")
        && is_plain::<FixedBitString<4>>(Tag::BIT_STRING, "BIT_STRING")
        && is_plain::<BitStr<'static>>(Tag::BIT_STRING, "BIT_STRING")
        && is_plain::<OctetString>(Tag::OCTET_STRING, "OCTET_STRING")
        && is_plain::<FixedOctetString<3>>(Tag::OCTET_STRING, "OCTET_STRING")
        && is_plain::<Any>(Tag::OCTET_STRING, "OCTET_STRING")
}

fn are_texts() -> bool {
    let are_utf8 = is_plain::<String>(Tag::UTF8_STRING, "UTF8String")
        && is_plain::<&'static str>(Tag::UTF8_STRING, "UTF8String")
        && is_plain::<CowStr<'static, Global>>(Tag::UTF8_STRING, "UTF8String");
    are_utf8
        && is_plain::<NumericString>(Tag::NUMERIC_STRING, "NumericString")
        && is_plain::<PrintableString>(Tag::PRINTABLE_STRING, "PrintableString")
        && is_plain::<VisibleString>(Tag::VISIBLE_STRING, "VisibleString")
        && is_plain::<Ia5String>(Tag::IA5_STRING, "IA5String")
        && is_plain::<GeneralString>(Tag::GENERAL_STRING, "GeneralString")
        && is_plain::<GraphicString>(Tag::GRAPHIC_STRING, "GraphicString")
        && is_plain::<TeletexString>(Tag::TELETEX_STRING, "TeletexString")
        && is_plain::<BmpString>(Tag::BMP_STRING, "BMPString")
}

fn are_lists_and_sequences() -> bool {
    is_plain::<Vec<Power>>(Tag::SEQUENCE, "SEQUENCE_OF")
        && is_plain::<[bool; 2]>(Tag::SEQUENCE, "SEQUENCE_OF")
        && is_plain::<CowSlice<'static, u8, Global>>(Tag::SEQUENCE, "SEQUENCE_OF")
        && is_plain::<SetOf<bool>>(Tag::SET, "SET_OF")
        && is_plain::<Setting>(Tag::SEQUENCE, "Setting")
        && is_plain::<Gauge>(Tag::SET, "Gauge")
        && is_plain::<InstanceOf<u8>>(Tag::EXTERNAL, "INSTANCE_OF")
}

fn are_around_others() -> bool {
    is_choice::<Power>("Power")
        && is_choice::<Message>("Message")
        && is_choice::<Box<Power>>("Power")
        && is_choice::<&'static Power>("Power")
        && is_choice::<Cow<'static, Power>>("Power")
        && is_integer::<Constrained<UpToTen, u8>>()
        && is_plain::<Explicit<tag::Context<1>, Power>>(Tag::new_context(1), "Power")
        && is_plain::<Implicit<tag::Private<2>, u8>>(Tag::new_private(2), "INTEGER")
        && is_plain::<tag::Universal<2>>(Tag::INTEGER, "NULL")
}

#[test]
fn tags_names_and_choices(rt: HostRuntime) {
    assert!(rt; are_native_numbers() && are_other_scalars());
    assert!(rt; are_strings() && are_texts());
    assert!(rt; are_lists_and_sequences() && are_around_others());
}
