//! Readers and writers of tags and length determinants, and of NULL.
use crate::common::assert_none;
use asn1_schema_errors::{DecodeError, EncodeError};
use asn1_schema_tags::{Class, Tag};
use oer_codec_reading::boolean::read_null;
use oer_codec_reading::length::{read_counted, read_length};
use oer_codec_reading::{Cursor, EncodingRules, read_tag};
use oer_codec_writing::push_tag;
use std::alloc::Global;
use std::test::Fail;

/// Octets, and the tag that each set of rules finds at their start.
#[derive(Drop)]
struct Row {
    octets: &'static [u8],
    basic: Result<Tag, DecodeError>,
    canonical: Result<Tag, DecodeError>,
}

/// The tag [2].
const TWO: Tag = Tag {
    class: Class::Context,
    value: 2,
};

/// The tag [5].
const FIVE: Tag = Tag {
    class: Class::Context,
    value: 5,
};

/// In one octet and in more, and numbers past 32 bits or after a group of zeros.
const TAGS: [Row; 6] = [
    Row {
        octets: &[0x82],
        basic: Ok(TWO),
        canonical: Ok(TWO),
    },
    Row {
        octets: &[0x01],
        basic: Ok(Tag::BOOL),
        canonical: Ok(Tag::BOOL),
    },
    Row {
        octets: &[0xBF, 0x05],
        basic: Ok(FIVE),
        canonical: Err(DecodeError::NotValidCanonicalEncoding),
    },
    Row {
        octets: &[0xBF, 0x90, 0x80, 0x80, 0x80, 0x00],
        basic: Err(DecodeError::InvalidTagNumberOnChoice),
        canonical: Err(DecodeError::InvalidTagNumberOnChoice),
    },
    Row {
        octets: &[0xBF, 0x80, 0x01],
        basic: Err(DecodeError::InvalidTagNumberOnChoice),
        canonical: Err(DecodeError::InvalidTagNumberOnChoice),
    },
    Row {
        octets: &[0xBF, 0x00],
        basic: Err(DecodeError::InvalidTagNumberOnChoice),
        canonical: Err(DecodeError::InvalidTagNumberOnChoice),
    },
];

/// Whether each set of rules finds the tag that it should.
fn is_right(row: &Row) -> bool {
    read_tag(&mut Cursor::new(row.octets), EncodingRules::Oer) == row.basic
        && read_tag(&mut Cursor::new(row.octets), EncodingRules::Coer) == row.canonical
}

/// Whether the context-specific tags 62 and 63 have one octet and two.
fn greatest_of_one_octet(alloc: Global) -> Result<bool, EncodeError> {
    let mut octets = Vec::new(alloc);
    for value in [62, 63] {
        let class = Class::Context;
        push_tag(&mut octets, Tag { class, value })?;
    }
    Ok(octets.as_slice() == [0xBE, 0xBF, 0x3F].as_slice())
}

/// The first octets whose tag is not found as their row says, if there are any.
fn wrong_tag() -> Option<&'static [u8]> {
    for row in &TAGS {
        if !is_right(row) {
            return Some(row.octets);
        }
    }
    None
}

#[test]
fn tags(rt: HostRuntime) -> Result<(), Fail> {
    assert_none(&rt, &wrong_tag());
    assert!(rt; greatest_of_one_octet(rt.alloc())?);
    Ok(())
}

/// Whether two octets after their length determinant are borrowed, and the one after them is too few for its own.
fn lends_two(cursor: &mut Cursor<'_>) -> bool {
    read_counted(cursor, EncodingRules::Coer) == Ok([0xAA, 0xBB].as_slice())
        && cursor.remaining() == [0xCC].as_slice()
        && read_counted(cursor, EncodingRules::Coer) == Err(DecodeError::Incomplete)
}

/// Whether NULL takes none of these octets.
fn takes_nothing(cursor: &mut Cursor<'_>) -> bool {
    let length = cursor.len();
    read_null(cursor, EncodingRules::Coer) == Ok(()) && cursor.len() == length
}

#[test]
fn cursors(rt: HostRuntime) {
    let greatest = [0x88, 0xFF, 0xFF, 0xFF, 0xFF, 0xFF, 0xFF, 0xFF, 0xFF];
    let length = read_length(&mut Cursor::new(&greatest), EncodingRules::Coer);
    assert!(rt; length == Ok(usize::MAX));
    assert!(rt; lends_two(&mut Cursor::new(&[0x02, 0xAA, 0xBB, 0xCC])));
    let mut one = Cursor::new(&[0x01]);
    assert!(rt; takes_nothing(&mut one) && one.len() == 1 && !one.is_empty());
}

#[test]
fn rules_are_told_apart(rt: HostRuntime) {
    let (oer, coer) = (EncodingRules::Oer, EncodingRules::Coer);
    assert!(rt; oer.is_oer() && !oer.is_coer() && coer.is_coer() && oer < coer);
}
