//! Decoders of OER and COER, call by call.
ghost use Rattle.std.specs.Prelude.{◌≡◌, IfErr};

use crate::common::assert_none;
use crate::messages::{NOTHING, are_in_octets};
use crate::steps::{Choice, Step};
use asn1_schema_constraints::{Bounded, Constraints};
use asn1_schema_decode::Decoder as Reading;
use asn1_schema_errors::DecodeError;
use asn1_schema_tags::{Chosen, Tag};
use oer_codec::coer::{Decoder, DecoderOptions};
use std::alloc::Global;

/// TRUE by an alternative of CHOICE {[0] BOOLEAN, [5] BOOLEAN, ..., [2] BOOLEAN}.
macro_rules! by {
    ($added:literal $place:literal) => {
        &[
            Step::Choice(
                Choice::OfThree,
                Chosen {
                    added: $added,
                    place: $place,
                },
            ),
            Step::Truth(true),
            Step::End,
        ]
    };
}

/// The alternative [5].
const ROOT: &[Step] = by!(false 1);

/// The alternative [2].
const ADDITION: &[Step] = by!(true 0);

/// Whether what comes next matches the calls.
type Answer = Result<bool, DecodeError>;

const NO_NUMBER: Answer = Err(DecodeError::InvalidTagNumberOnChoice);

/// Calls, octets, and the results in OER and COER.
const CHOICES: [(&[Step], &[u8], Answer, Answer); 7] = [
    (ROOT, &[0x85, 0xFF], Ok(true), Ok(true)),
    (ADDITION, &[0x82, 0x01, 0xFF], Ok(true), Ok(true)),
    (
        ADDITION,
        &[0x82, 0x02, 0xFF, 0xAA],
        Ok(true),
        Err(DecodeError::SurplusOctets),
    ),
    (
        ROOT,
        &[0xBF, 0x05, 0xFF],
        Ok(true),
        Err(DecodeError::NotValidCanonicalEncoding),
    ),
    (
        ROOT,
        &[0x81, 0xFF],
        Err(DecodeError::InvalidTagVariantOnChoice),
        Err(DecodeError::InvalidTagVariantOnChoice),
    ),
    (
        ROOT,
        &[0xBF, 0x90, 0x80, 0x80, 0x80, 0x00, 0x01, 0x07],
        NO_NUMBER,
        NO_NUMBER,
    ),
    (ROOT, &[0xBF, 0x80, 0x01, 0x01, 0x07], NO_NUMBER, NO_NUMBER),
];

/// The first octets that are not read as their row says, if there are any.
fn wrong_choice(alloc: Global) -> Option<&'static [u8]> {
    for (steps, octets, basic, canonical) in &CHOICES {
        let calls = (*steps, NOTHING);
        if are_in_octets(alloc, DecoderOptions::oer(), calls, octets) != *basic
            || are_in_octets(alloc, DecoderOptions::coer(), calls, octets) != *canonical
        {
            return Some(*octets);
        }
    }
    None
}

#[test]
fn choices(rt: HostRuntime) {
    assert_none(&rt, &wrong_choice(rt.alloc()));
}

/// Decodes a BOOLEAN at the start with a new decoder, which has not failed.
fn truth_in_front(
    alloc: Global,
    octets: &[u8],
    options: DecoderOptions,
) -> Result<bool, DecodeError>
    ensures fresh { IfErr result (λ e. e ≡ DecodeError.AlreadyFailed → ⊥) }
{
    let mut decoder = Decoder::new(alloc, octets, options);
    decoder.decode_bool(Tag::BOOL)
}

#[test]
fn a_decoder_that_has_not_failed(rt: HostRuntime) {
    let alloc = rt.alloc();
    let (basic, canonical) = (DecoderOptions::oer(), DecoderOptions::coer());
    assert!(rt; truth_in_front(alloc, &[0xFF], canonical) == Ok(true));
    assert!(rt; truth_in_front(alloc, &[0x05], canonical) == Err(DecodeError::InvalidBool));
    assert!(rt; truth_in_front(alloc, &[], basic) == Err(DecodeError::Incomplete));
}

/// Whether the first octet is refused, and the next one is then not read either.
fn fails_for_good(decoder: &mut Decoder<'_>) -> bool {
    decoder.decode_bool(Tag::BOOL) == Err(DecodeError::InvalidBool)
        && decoder.decode_bool(Tag::BOOL) == Err(DecodeError::AlreadyFailed)
}

/// Whether TRUE comes first, and one octet after it.
fn is_true_before(decoder: &mut Decoder<'_>, octet: u8) -> bool {
    decoder.decode_bool(Tag::BOOL) == Ok(true) && *decoder.remaining() == *[octet].as_slice()
}

/// Whether COER refuses an octet for good.
fn canonical_rules_refuse(alloc: Global, octets: &[u8]) -> bool {
    let mut decoder = Decoder::new(alloc, octets, DecoderOptions::coer());
    fails_for_good(&mut decoder)
}

/// Whether OER accepts it.
fn basic_rules_take(alloc: Global, octets: &[u8]) -> bool {
    let mut decoder = Decoder::new(alloc, octets, DecoderOptions::oer());
    is_true_before(&mut decoder, 0xFF)
}

#[test]
fn a_decoder_that_has_failed(rt: HostRuntime) {
    let alloc = rt.alloc();
    assert!(rt; canonical_rules_refuse(alloc, &[0x05, 0xFF]));
    assert!(rt; basic_rules_take(alloc, &[0x05, 0xFF]));
}

/// Begins a SEQUENCE OF.
fn begin_list(decoder: &mut Decoder<'_>) -> Result<(), DecodeError> {
    decoder.begin_list(Tag::SEQUENCE, &Constraints::NONE, Bounded::None)
}

/// Begins 128 nested SEQUENCE OF. Returns whether each of them has an element, and one more is refused.
fn is_full_of_lists(decoder: &mut Decoder<'_>) -> Result<bool, DecodeError> {
    for _ in 0..128u8 {
        begin_list(decoder)?;
        if !decoder.get_further()? {
            return Ok(false);
        }
    }
    Ok(
        decoder.levels_left() == 0
            && begin_list(decoder) == Err(DecodeError::ExceedsMaxParseDepth)
            && decoder.get_further() == Err(DecodeError::AlreadyFailed),
    )
}

/// Begins 128 nested SEQUENCEs. Returns whether one more is refused.
fn is_full_of_sequences(decoder: &mut Decoder<'_>) -> Result<bool, DecodeError> {
    for _ in 0..128u8 {
        decoder.begin_sequence(Tag::SEQUENCE, false, 0)?;
    }
    let past = Err(DecodeError::ExceedsMaxParseDepth);
    Ok(
        decoder.levels_left() == 0
            && decoder.begin_sequence(Tag::SEQUENCE, false, 0) == past
            && decoder.end() == Err(DecodeError::AlreadyFailed),
    )
}

/// Whether the SEQUENCE OF at level 129 of these octets is refused.
fn are_full_of_lists(alloc: Global, octets: &[u8]) -> Result<bool, DecodeError> {
    let mut decoder = Decoder::new(alloc, octets, DecoderOptions::coer());
    is_full_of_lists(&mut decoder)
}

/// Whether the SEQUENCE at level 129, without octets, is refused.
fn none_are_full_of_sequences(alloc: Global) -> Result<bool, DecodeError> {
    let mut decoder = Decoder::new(alloc, &[], DecoderOptions::coer());
    is_full_of_sequences(&mut decoder)
}

#[test]
fn the_level_past_128(rt: HostRuntime) {
    let alloc = rt.alloc();
    assert!(rt; are_full_of_lists(alloc, &[0x01; 258]) == Ok(true));
    assert!(rt; none_are_full_of_sequences(alloc) == Ok(true));
}
