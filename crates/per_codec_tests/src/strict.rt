//! What decoders accept leniently and reject strictly, and what both accept.
use crate::spelled::octets;
use asn1_schema_decode::{Decode, Decoder as _};
use asn1_schema_errors::DecodeError;
use asn1_schema_tags::Tag;
use per_codec::uper::{Decoder, DecoderOptions};
use per_codec::{aper, aper_strict, uper, uper_strict};
use std::alloc::Global;
use std::test::Fail;

/// Why there is no value, if there is none.
fn refusal<T: Drop>(answer: Result<T, DecodeError>) -> Option<DecodeError> {
    match answer {
        Ok(_) => None,
        Err(error) => Some(error),
    }
}

/// Whether these octets are decoded leniently, and strictly rejected for this reason or also decoded, in both variants.
fn is_strictly<T: Decode + Drop>(alloc: Global, input: &[u8], reason: Option<DecodeError>) -> bool {
    refusal(uper::decode::<T>(alloc, input)).is_none()
        && refusal(aper::decode::<T>(alloc, input)).is_none()
        && refusal(uper_strict::decode::<T>(alloc, input)) == reason
        && refusal(aper_strict::decode::<T>(alloc, input)) == reason
}

#[test]
fn padding_behind_a_value(rt: HostRuntime) -> Result<(), Fail> {
    let alloc = rt.alloc();
    assert!(rt; is_strictly::<bool>(alloc, &[0x80], None));
    assert!(rt; is_strictly::<bool>(alloc, &[0x81], Some(DecodeError::InvalidPadding)));
    Ok(())
}

/// Fragments of a list, the largest ones first and others (X.691 11.9.3.8).
const LISTS: [(&str, bool); 6] = [
    ("C2 A5*32768 00", true),
    ("C1 A5*16384 C1 A5*16384 00", false),
    ("C4 A5*65536 C1 A5*16384 01 3C", true),
    ("C1 A5*16384 C4 A5*65536 01 3C", false),
    ("81 00 A5*256", true),
    ("80 01 A5", false),
];

#[test]
fn fragments_of_lists(rt: HostRuntime) -> Result<(), Fail> {
    let alloc = rt.alloc();
    for (spelled, is_canonical) in LISTS {
        let input = octets(alloc, spelled)?;
        let reason = if is_canonical {
            None
        } else {
            Some(DecodeError::NotValidCanonicalEncoding)
        };
        assert!(rt; is_strictly::<Vec<u8>>(alloc, &input, reason), "{spelled}");
    }
    Ok(())
}

/// Reads one addition of a sequence, which has no other component: a BOOLEAN in an open type.
fn reads_an_addition(decoder: &mut Decoder<'_>) -> Result<bool, DecodeError> {
    decoder.begin_sequence(Tag::SEQUENCE, true, 0)?;
    decoder.begin_additions(1)?;
    if !decoder.get_addition()? {
        decoder.end()?;
        return Ok(false);
    }
    let value = decoder.decode_bool(Tag::BOOL)?;
    decoder.end_addition()?;
    decoder.end()?;
    Ok(value)
}

/// Octets of UPER, and their results, lenient and strict: a presence bitmap without a set bit, one without bits, octets
/// and bits after the value in the open type, and none of these.
const ADDITIONS: [(&[u8], Result<bool, DecodeError>, Result<bool, DecodeError>); 5] = [
    (
        &[0x80, 0x00],
        Ok(false),
        Err(DecodeError::NotValidCanonicalEncoding),
    ),
    (
        &[0xC0, 0x00],
        Ok(false),
        Err(DecodeError::NotValidCanonicalEncoding),
    ),
    (
        &[0x80, 0x81, 0x40, 0x00, 0x00],
        Ok(true),
        Err(DecodeError::SurplusOctets),
    ),
    (
        &[0x80, 0x80, 0xC0, 0x80],
        Ok(true),
        Err(DecodeError::InvalidPadding),
    ),
    (&[0x80, 0x80, 0xC0, 0x00], Ok(true), Ok(true)),
];

#[test]
fn additions_and_open_types(rt: HostRuntime) {
    let alloc = rt.alloc();
    for (input, lenient, strict) in ADDITIONS {
        let mut decoder = Decoder::new(alloc, input, DecoderOptions::unaligned());
        assert!(rt; reads_an_addition(&mut decoder) == lenient, "{input:?}");
        let mut decoder = Decoder::new(alloc, input, DecoderOptions::unaligned_strict());
        assert!(rt; reads_an_addition(&mut decoder) == strict, "{input:?}");
    }
}

#[test]
fn defaults_and_empty_groups(rt: HostRuntime) {
    let alloc = rt.alloc();
    let refused = Err(DecodeError::NotValidCanonicalEncoding);
    assert!(rt; Decoder::new(alloc, &[], DecoderOptions::aligned()).note_default() == Ok(()));
    assert!(rt; Decoder::new(alloc, &[], DecoderOptions::aligned()).note_empty() == Ok(()));
    assert!(rt;
        Decoder::new(alloc, &[], DecoderOptions::aligned_strict()).note_default() == refused
    );
    assert!(rt; Decoder::new(alloc, &[], DecoderOptions::aligned_strict()).note_empty() == refused);
}
