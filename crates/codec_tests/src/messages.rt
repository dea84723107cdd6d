//! Values call by call, in each set of rules: optional components, SET OF, many additions, many alternatives, and long
//! open types (X.691 11.2, 11.5 to 11.9, 19, 21 and 23, X.696 8.7, 16.4 and 20).
use crate::common::assert_none;
use crate::spelled::octets;
use crate::steps::{Choice, Lent, Step, are_found, places_of, put_all, tags};
use asn1_schema_errors::{DecodeError, EncodeError};
use asn1_schema_tags::{Chosen, Tag, TagPlace};
use oer_codec::coer;
use per_codec::uper;
use std::alloc::{AllocError, Global};
use std::test::Fail;

/// SEQUENCE {a BOOLEAN, ..., and a number of additions INTEGER (0..255) OPTIONAL}: a true, and 7 only in the last
/// addition.
macro_rules! last_of {
    ($count:literal) => {
        &[
            Step::Sequence(true, 0),
            Step::Truth(true),
            Step::Additions($count),
            Step::AbsentOf($count),
            Step::Addition(true),
            Step::Octet(7),
            Step::EndOfAddition,
            Step::End,
        ]
    };
}

/// SEQUENCE {..., and a number of additions NULL OPTIONAL}: only the last addition.
macro_rules! null_of {
    ($count:literal) => {
        &[
            Step::Sequence(true, 0),
            Step::Additions($count),
            Step::AbsentOf($count),
            Step::Addition(true),
            Step::Null,
            Step::EndOfAddition,
            Step::End,
        ]
    };
}

/// CHOICE {[0] INTEGER, ..., and 300 added alternatives of INTEGER}: 333 in the added one with this index.
macro_rules! addition {
    ($place:literal) => {
        &[
            Step::Choice(
                Choice::WithAdditions,
                Chosen {
                    added: true,
                    place: $place,
                },
            ),
            Step::Number(333),
            Step::End,
        ]
    };
}

/// A choice of 300 alternatives, each a BOOLEAN: TRUE in the one with this index.
macro_rules! root {
    ($place:literal) => {
        &[
            Step::Choice(
                Choice::Of300,
                Chosen {
                    added: false,
                    place: $place,
                },
            ),
            Step::Truth(true),
            Step::End,
        ]
    };
}

/// SEQUENCE {..., and 65 additions INTEGER (0..255) OPTIONAL}: 7 only in the last addition.
const LAST_OF_65: [Step; 7] = [
    Step::Sequence(true, 0),
    Step::Additions(65),
    Step::AbsentOf(65),
    Step::Addition(true),
    Step::Octet(7),
    Step::EndOfAddition,
    Step::End,
];

/// SEQUENCE {a BOOLEAN, ..., b OCTET STRING (SIZE (n)) OPTIONAL}: a true, and in b the string.
const SIZED: [Step; 7] = [
    Step::Sequence(true, 0),
    Step::Truth(true),
    Step::Additions(1),
    Step::Addition(true),
    Step::String(true),
    Step::EndOfAddition,
    Step::End,
];

/// SEQUENCE {..., s OCTET STRING}: in s the string.
const UNSIZED: [Step; 6] = [
    Step::Sequence(true, 0),
    Step::Additions(1),
    Step::Addition(true),
    Step::String(false),
    Step::EndOfAddition,
    Step::End,
];

/// SEQUENCE {a INTEGER (0..65535) OPTIONAL, b BOOLEAN OPTIONAL}: only a.
const OPTIONAL: [Step; 5] = [
    Step::Sequence(false, 2),
    Step::Present(true),
    Step::Word(0x1234),
    Step::Present(false),
    Step::End,
];

/// A choice with the added alternative [2] OCTET STRING: the string in it.
pub const ADDED: [Step; 3] = [
    Step::Choice(
        Choice::OfThree,
        Chosen {
            added: true,
            place: 0,
        },
    ),
    Step::String(false),
    Step::End,
];

/// SEQUENCE {INTEGER, SEQUENCE {INTEGER DEFAULT 0, BOOLEAN OPTIONAL}}: 5, 7 and true; and after it SET {BOOLEAN
/// OPTIONAL}: true.
const BOTH: [Step; 13] = [
    Step::Sequence(false, 0),
    Step::Number(5),
    Step::Sequence(false, 2),
    Step::Present(true),
    Step::Number(7),
    Step::Present(true),
    Step::Truth(true),
    Step::End,
    Step::End,
    Step::Set(false, 1),
    Step::Present(true),
    Step::Truth(true),
    Step::End,
];

/// The rules in which a message is written and read. COER messages are also read in OER.
#[derive(Clone, Copy)]
enum Rules {
    Uper,
    Aper,
    Oer,
    Coer,
}

const UPER: Rules = Rules::Uper;

const APER: Rules = Rules::Aper;

const OER: Rules = Rules::Oer;

const COER: Rules = Rules::Coer;

/// Rules, calls, the octets of the message's string, and those of the message.
type Row = (Rules, &'static [Step], &'static str, &'static str);

/// In PER, up to 64 additions are counted in six bits after a zero bit, and 65 or more with a length determinant
/// after a one bit, which has two octets from 128 on. The index of an added alternative has six bits up to 63; from
/// 64 on it follows a length determinant. From 16384 octets on, an open type is in fragments, followed by the length
/// of the rest, even if that is zero. In OER, a bitmap follows a length determinant, which also counts the octet of
/// the unused bits, and an open type of any length is in one piece.
const ROWS: [Row; 62] = [
    (UPER, &OPTIONAL, "", "84 8D 00"),
    (UPER, last_of!(7), "", "C3 01*2 07"),
    (UPER, last_of!(8), "", "C3 80*2 83 80"),
    (UPER, last_of!(63), "", "DF 00*7 01 01 07"),
    (UPER, last_of!(64), "", "DF 80 00*7 80 83 80"),
    (UPER, last_of!(65), "", "E8 20 00*7 10 10 70"),
    (UPER, last_of!(255), "", "F0 1F E0 00*31 40 41 C0"),
    (UPER, last_of!(256), "", "F0 20 00*32 20 20 E0"),
    (UPER, last_of!(257), "", "F0 20 20 00*31 10 10 70"),
    (UPER, addition!(63), "", "BF 03 02 01 4D"),
    (UPER, addition!(64), "", "C0 50 00 C0 80 53 40"),
    (UPER, addition!(255), "", "C0 7F C0 C0 80 53 40"),
    (UPER, addition!(256), "", "C0 80 40 00 C0 80 53 40"),
    (UPER, &SIZED, "FF*16384", "C0 70 7F FF*16383 C0 00"),
    (UPER, &SIZED, "FF*16385", "C0 70 7F FF*16383 C0 7F C0"),
    (UPER, &SIZED, "FF*16383 A5", "C0 70 7F FF*16382 E9 40 00"),
    (UPER, &SIZED, "FF*16384 A5", "C0 70 7F FF*16383 C0 69 40"),
    (UPER, root!(0), "", "00 40"),
    (UPER, root!(127), "", "3F C0"),
    (UPER, root!(255), "", "7F C0"),
    (UPER, root!(256), "", "80 40"),
    (UPER, root!(299), "", "95 C0"),
    (APER, &OPTIONAL, "", "80 12 34"),
    (APER, last_of!(7), "", "C3 01*2 07"),
    (APER, last_of!(8), "", "C3 80*2 01 07"),
    (APER, last_of!(63), "", "DF 00*7 01 01 07"),
    (APER, last_of!(64), "", "DF 80 00*7 80 01 07"),
    (APER, last_of!(65), "", "E0 41 00*8 80 01 07"),
    (APER, last_of!(255), "", "E0 80 FF 00*31 02 01 07"),
    (APER, last_of!(256), "", "E0 81 00 00*31 01 01 07"),
    (APER, last_of!(257), "", "E0 81 01 00*32 80 01 07"),
    (APER, addition!(63), "", "BF 03 02 01 4D"),
    (APER, addition!(64), "", "C0 01 40 03 02 01 4D"),
    (APER, addition!(255), "", "C0 01 FF 03 02 01 4D"),
    (APER, addition!(256), "", "C0 02 01 00 03 02 01 4D"),
    (APER, &SIZED, "FF*16384", "C0 40 C1 FF*16384 00"),
    (APER, &SIZED, "FF*16385", "C0 40 C1 FF*16384 01 FF"),
    (APER, &SIZED, "FF*16383 A5", "C0 40 C1 FF*16383 A5 00"),
    (APER, &SIZED, "FF*16384 A5", "C0 40 C1 FF*16384 01 A5"),
    (APER, &UNSIZED, "5A*16382", "80 80 C1 BF FE 5A*16382 00"),
    (APER, root!(0), "", "00 00 80"),
    (APER, root!(127), "", "00 7F 80"),
    (APER, root!(255), "", "00 FF 80"),
    (APER, root!(256), "", "01 00 80"),
    (APER, root!(299), "", "01 2B 80"),
    (COER, null_of!(7), "", "80 02 01 02 00"),
    (COER, null_of!(8), "", "80 02 00 01 00"),
    (COER, null_of!(63), "", "80 09 01 00*7 02 00"),
    (COER, null_of!(64), "", "80 09 00 00*7 01 00"),
    (COER, null_of!(65), "", "80 0A 07 00*8 80 00"),
    (COER, null_of!(255), "", "80 21 01 00*31 02 00"),
    (COER, null_of!(256), "", "80 21 00 00*31 01 00"),
    (COER, null_of!(257), "", "80 22 07 00*32 80 00"),
    (COER, &LAST_OF_65, "", "80 0A 07 00*8 80 01 07"),
    (COER, &ADDED, "FF*16381", "82 82 40 00 82 3F FD FF*16381"),
    (COER, &ADDED, "FF*16382", "82 82 40 01 82 3F FE FF*16382"),
    (COER, &BOTH, "", "01 05 C0 01 07 FF 80 FF"),
    (COER, root!(0), "", "80 FF"),
    (COER, root!(127), "", "BF 7F FF"),
    (COER, root!(255), "", "BF 81 7F FF"),
    (COER, root!(256), "", "BF 82 00 FF"),
    (COER, root!(299), "", "BF 82 2B FF"),
];

/// The octets that UPER or APER writes in these calls.
fn packed(
    alloc: Global,
    options: uper::EncoderOptions,
    steps: &[Step],
    lent: Lent<'_>,
) -> Result<Vec<u8>, EncodeError> {
    let mut encoder = uper::Encoder::new(alloc, options);
    put_all(&mut encoder, steps, lent)?;
    encoder.output()
}

/// Adds the octets that COER writes in these calls.
pub fn add(
    alloc: Global,
    buffer: &mut Vec<u8>,
    worker: &mut Vec<u8>,
    steps: &[Step],
    lent: Lent<'_>,
) -> Result<(), EncodeError> {
    let options = coer::EncoderOptions::coer();
    let mut encoder = coer::Encoder::from_buffer(alloc, options, buffer, worker);
    put_all(&mut encoder, steps, lent)
}

/// The octets that COER writes in these calls.
fn in_octets(alloc: Global, steps: &[Step], lent: Lent<'_>) -> Result<Vec<u8>, EncodeError> {
    let mut buffer = Vec::new(alloc);
    let mut worker = Vec::new(alloc);
    add(alloc, &mut buffer, &mut worker, steps, lent)?;
    Ok(buffer)
}

/// The octets that are written in these calls.
fn written(
    alloc: Global,
    rules: Rules,
    steps: &[Step],
    lent: Lent<'_>,
) -> Result<Vec<u8>, EncodeError> {
    match rules {
        Rules::Uper => packed(alloc, uper::EncoderOptions::unaligned(), steps, lent),
        Rules::Aper => packed(alloc, uper::EncoderOptions::aligned(), steps, lent),
        Rules::Oer | Rules::Coer => in_octets(alloc, steps, lent),
    }
}

/// Whether these octets are written.
fn are_written(
    alloc: Global,
    rules: Rules,
    (steps, lent): (&[Step], Lent<'_>),
    octets: &[u8],
) -> Result<bool, EncodeError> {
    let written = written(alloc, rules, steps, lent)?;
    Ok(written.as_slice() == octets)
}

/// Whether a PER decoder finds what these calls write, and nothing after it.
fn are_all_packed(
    alloc: Global,
    decoder: &mut uper::Decoder<'_>,
    steps: &[Step],
    lent: Lent<'_>,
) -> Result<bool, DecodeError> {
    let are_found = are_found(alloc, decoder, steps, lent)?;
    decoder.finish()?;
    Ok(are_found && decoder.input().is_empty())
}

/// Whether UPER or APER reads these octets as these calls.
fn are_packed(
    alloc: Global,
    options: uper::DecoderOptions,
    (steps, lent): (&[Step], Lent<'_>),
    octets: &[u8],
) -> Result<bool, DecodeError> {
    let mut decoder = uper::Decoder::new(alloc, octets, options);
    are_all_packed(alloc, &mut decoder, steps, lent)
}

/// Whether an OER decoder finds what these calls write, and nothing after it.
fn are_all_in_octets(
    alloc: Global,
    decoder: &mut coer::Decoder<'_>,
    steps: &[Step],
    lent: Lent<'_>,
) -> Result<bool, DecodeError> {
    Ok(are_found(alloc, decoder, steps, lent)? && decoder.remaining().is_empty())
}

/// Whether OER or COER reads these octets as these calls.
pub fn are_in_octets(
    alloc: Global,
    options: coer::DecoderOptions,
    (steps, lent): (&[Step], Lent<'_>),
    octets: &[u8],
) -> Result<bool, DecodeError> {
    let mut decoder = coer::Decoder::new(alloc, octets, options);
    are_all_in_octets(alloc, &mut decoder, steps, lent)
}

/// Whether these octets are read as these calls.
fn are_read(
    alloc: Global,
    rules: Rules,
    calls: (&[Step], Lent<'_>),
    octets: &[u8],
) -> Result<bool, DecodeError> {
    match rules {
        Rules::Uper => {
            let is_lenient = are_packed(alloc, uper::DecoderOptions::unaligned(), calls, octets)?;
            let strict = uper::DecoderOptions::unaligned_strict();
            Ok(is_lenient && are_packed(alloc, strict, calls, octets)?)
        }
        Rules::Aper => {
            let is_lenient = are_packed(alloc, uper::DecoderOptions::aligned(), calls, octets)?;
            let strict = uper::DecoderOptions::aligned_strict();
            Ok(is_lenient && are_packed(alloc, strict, calls, octets)?)
        }
        Rules::Oer => are_in_octets(alloc, coer::DecoderOptions::oer(), calls, octets),
        Rules::Coer => {
            let is_basic = are_in_octets(alloc, coer::DecoderOptions::oer(), calls, octets)?;
            Ok(is_basic && are_in_octets(alloc, coer::DecoderOptions::coer(), calls, octets)?)
        }
    }
}

/// The tables of tags of all choices.
type Tables<'a> = (&'a [Tag], &'a [TagPlace]);

/// Whether a message is encoded as the octets of its row.
fn is_right(
    alloc: Global,
    (tags, places): Tables<'_>,
    (rules, steps, string, spelled): Row,
) -> Result<bool, Fail> {
    let string = octets(alloc, string)?;
    let octets = octets(alloc, spelled)?;
    let lent = Lent {
        tags,
        places,
        string: string.as_slice(),
    };
    let is_written = are_written(alloc, rules, (steps, lent), &octets)?;
    Ok(is_written && are_read(alloc, rules, (steps, lent), &octets)?)
}

/// The octets of the first row that is wrong, if one is.
fn wrong_row(alloc: Global, tables: Tables<'_>) -> Result<Option<&'static str>, Fail> {
    for row in &ROWS {
        if !is_right(alloc, tables, *row)? {
            return Ok(Some(row.3));
        }
    }
    Ok(None)
}

/// Indexes without an alternative, after 300 additions and after 300 root alternatives.
const BEHIND_THE_LAST: [(Rules, &[Step], &str); 6] = [
    (UPER, addition!(300), "C0 80 4B 00 C0 80 53 40"),
    (APER, addition!(300), "C0 02 01 2C 03 02 01 4D"),
    (UPER, root!(300), "96 40"),
    (APER, root!(300), "01 2C 80"),
    (OER, root!(300), "BF 82 2C FF"),
    (COER, root!(300), "BF 82 2C FF"),
];

/// The octets of the first row whose index is not refused, if there is one.
fn wrong_place(alloc: Global, (tags, places): Tables<'_>) -> Result<Option<&'static str>, Fail> {
    let lent = Lent {
        tags,
        places,
        string: &[],
    };
    for (rules, steps, spelled) in &BEHIND_THE_LAST {
        if !is_place_refused(alloc, *rules, (*steps, lent), spelled)? {
            return Ok(Some(*spelled));
        }
    }
    Ok(None)
}

/// Whether the index of an alternative in these octets is refused.
fn is_place_refused(
    alloc: Global,
    rules: Rules,
    calls: (&[Step], Lent<'_>),
    spelled: &str,
) -> Result<bool, Fail> {
    let octets = octets(alloc, spelled)?;
    let answer = are_read(alloc, rules, calls, &octets);
    Ok(answer == Err(DecodeError::InvalidTagVariantOnChoice))
}

/// The octets of the first row of either table that is wrong, if one is.
fn wrong_row_by(alloc: Global, tables: Tables<'_>) -> Result<Option<&'static str>, Fail> {
    match wrong_row(alloc, tables)? {
        None => wrong_place(alloc, tables),
        wrong => Ok(wrong),
    }
}

/// The octets of the first row that is wrong, if one is.
fn first_wrong(alloc: Global) -> Result<Option<&'static str>, Fail> {
    let tags = tags(alloc)?;
    let places = places_of(alloc, &tags)?;
    wrong_row_by(alloc, (&tags, &places))
}

#[test]
fn messages(rt: HostRuntime) -> Result<(), Fail> {
    assert_none(&rt, &first_wrong(rt.alloc())?);
    Ok(())
}

/// SEQUENCE {a BOOLEAN, b SET (SIZE (1..2)) OF SEQUENCE {c BOOLEAN, d INTEGER (0..65535)}}: a true, and in b a number
/// of elements.
macro_rules! bag {
    ($count:literal, $(($c:literal, $d:literal)),*) => {
        &[
            Step::Sequence(false, 0),
            Step::Truth(true),
            Step::Bag($count),
            $(
                Step::Further(true),
                Step::Sequence(false, 0),
                Step::Truth($c),
                Step::Word($d),
                Step::End,
            )*
            Step::Further(false),
            Step::End,
            Step::End,
        ]
    };
}

/// For steps that refer to nothing else.
pub const NOTHING: Lent<'static> = Lent {
    tags: &[],
    places: &[],
    string: &[],
};

const OF_TWO: &[Step] = bag!(2, (true, 1), (false, 2));

const OF_THREE: &[Step] = bag!(3, (true, 1), (false, 2), (false, 3));

/// The elements of a SET OF are in order, also after other bits, and are padded at their final position. Three are too
/// many here.
#[test]
fn bags_behind_a_bit(rt: HostRuntime) -> Result<(), Fail> {
    let alloc = rt.alloc();
    let octets = [0xC0, 0x00, 0x50, 0x00, 0x10];
    assert!(rt; are_written(alloc, UPER, (OF_TWO, NOTHING), &octets)?);
    let octets = [0xC0, 0x00, 0x02, 0x80, 0x00, 0x01];
    assert!(rt; are_written(alloc, APER, (OF_TWO, NOTHING), &octets)?);
    let refused = are_written(alloc, APER, (OF_THREE, NOTHING), &[]);
    assert!(rt; refused == Err(EncodeError::SizeConstraintNotSatisfied));
    Ok(())
}
