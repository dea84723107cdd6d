//! What readers and a decoder leave, borrow and reject.
ghost use Rattle.std.specs.Prelude.{◌<◌, ◌≡◌, IfErr};

use asn1_schema_constraints::{Bounded, Constraints};
use asn1_schema_decode::{Decoder as _, ReadOctets};
use asn1_schema_errors::{CodecKind, DecodeError};
use asn1_schema_tags::{Class, Tag, TagPlace, TagTables};
use per_codec::uper::{Decoder, DecoderOptions};
use per_codec_reading::boolean::{read_boolean, read_null};
use per_codec_reading::length::{Length, read_length};
use per_codec_reading::numbers::read_constrained;
use per_codec_reading::{Cursor, InputOctets, PackedRules};
use std::alloc::{AllocError, Global};
use std::test::Fail;

/// Both variants, read leniently and strictly.
pub const PACKED: [PackedRules; 4] = [
    PackedRules::Uper,
    PackedRules::Aper,
    PackedRules::UperStrict,
    PackedRules::AperStrict,
];

/// Whether two BOOLEANs are read from two bits of an octet, which leaves six.
fn leaves_six_bits(cursor: &mut Cursor<'_>) -> Result<bool, DecodeError> {
    let first = read_boolean(cursor, PackedRules::Aper)?;
    let second = read_boolean(cursor, PackedRules::Uper)?;
    Ok(first && !second && cursor.len() == 6)
}

/// Whether NULL, and a number in a range of one value, take no bits.
fn takes_no_bits(input: &[u8]) -> Result<bool, DecodeError> {
    let mut cursor = Cursor::new(input);
    read_null(&mut cursor, PackedRules::Uper)?;
    let number = read_constrained(&mut cursor, PackedRules::Uper, 0)?;
    Ok(number == 0 && cursor.len() == input.len().saturating_mul(8))
}

#[test]
fn bits_that_are_left(rt: HostRuntime) -> Result<(), Fail> {
    assert!(rt; leaves_six_bits(&mut Cursor::new(&[0x80]))?);
    assert!(rt; takes_no_bits(&[0x01])?);
    assert!(rt; takes_no_bits(&[])?);
    let empty = read_boolean(&mut Cursor::new(&[]), PackedRules::Uper);
    assert!(rt; empty == Err(DecodeError::Incomplete));
    Ok(())
}

/// Whether a length determinant is read after a number of bits: immediately in the unaligned variant, and at the next
/// octet boundary in the aligned one.
fn is_length_behind(used: u32) -> Result<bool, DecodeError>
    requires { used < 8 }
{
    let mut unaligned = Cursor::new(&[0x00, 0x05]);
    unaligned.take(used as usize)?;
    let near = read_length(&mut unaligned, PackedRules::Uper)?;
    let mut aligned = Cursor::new(&[0xFF, 0x05, 0x05]);
    aligned.take(used as usize + 1)?;
    let far = read_length(&mut aligned, PackedRules::Aper)?;
    let shifted = Length::Short(5 >> (8 - used));
    Ok(near == shifted && far == Length::Short(5) && aligned.position() == 16)
}

#[test]
fn lengths_behind_bits(rt: HostRuntime) -> Result<(), Fail> {
    for used in 0..8u32 {
        assert!(rt; is_length_behind(used)?);
    }
    Ok(())
}

/// Reads a BOOLEAN at the start with a new decoder, which has not failed.
fn truth_in_front(alloc: Global, rules: PackedRules, octets: &[u8]) -> Result<bool, DecodeError>
    ensures fresh { IfErr result (λ e. e ≡ DecodeError.AlreadyFailed → ⊥) }
{
    let mut decoder = Decoder::new(alloc, octets, DecoderOptions { rules });
    decoder.decode_bool(Tag::BOOL)
}

#[test]
fn decoders_that_have_not_failed(rt: HostRuntime) {
    for rules in PACKED {
        assert!(rt; truth_in_front(rt.alloc(), rules, &[0x80]) == Ok(true));
        assert!(rt; truth_in_front(rt.alloc(), rules, &[]) == Err(DecodeError::Incomplete));
    }
}

/// Whether a decoder lacks a bit, and has failed from then on.
fn fails_for_good(decoder: &mut Decoder<'_>) -> bool {
    decoder.decode_bool(Tag::BOOL) == Err(DecodeError::Incomplete)
        && decoder.decode_bool(Tag::BOOL) == Err(DecodeError::AlreadyFailed)
}

const FIRST: Tag = Tag {
    class: Class::Context,
    value: 0,
};

const SECOND: Tag = Tag {
    class: Class::Context,
    value: 1,
};

const THIRD: Tag = Tag {
    class: Class::Context,
    value: 2,
};

/// The tags [0] to [2], with their numbers as indexes.
const PLACES: [TagPlace; 3] = [
    TagPlace {
        tag: FIRST,
        place: 0,
    },
    TagPlace {
        tag: SECOND,
        place: 1,
    },
    TagPlace {
        tag: THIRD,
        place: 2,
    },
];

/// Whether none of three alternatives is read, and the decoder has failed then.
fn lacks_an_alternative(decoder: &mut Decoder<'_>) -> bool {
    let Some(tables) = TagTables::checked(&[FIRST, SECOND, THIRD], false, &[], &PLACES) else {
        return false;
    };
    let chosen = decoder.begin_choice(Tag::EOC, &tables);
    chosen == Err(DecodeError::InvalidTagVariantOnChoice)
        && decoder.end() == Err(DecodeError::AlreadyFailed)
}

/// Whether 128 nested sequences may begin, and no more.
fn nests_128_levels(decoder: &mut Decoder<'_>) -> Result<bool, DecodeError> {
    for _ in 0..128 {
        decoder.begin_sequence(Tag::SEQUENCE, false, 0)?;
    }
    let left = decoder.levels_left();
    let further = decoder.begin_sequence(Tag::SEQUENCE, false, 0);
    Ok(
        left == 0
            && further == Err(DecodeError::ExceedsMaxParseDepth)
            && decoder.finish() == Err(DecodeError::AlreadyFailed),
    )
}

/// What a decoder must do.
#[derive(Clone, Copy, Debug)]
enum Duty {
    /// Fail at a missing bit.
    Bit,
    /// Fail at an index that none of three alternatives has.
    Alternative,
    /// Accept 128 levels, and not one more.
    Levels,
    /// Return the rules in which it reads.
    Rules,
}

/// Whether a decoder does it.
fn does(decoder: &mut Decoder<'_>, duty: Duty) -> bool {
    match duty {
        Duty::Bit => fails_for_good(decoder),
        Duty::Alternative => lacks_an_alternative(decoder),
        Duty::Levels => nests_128_levels(decoder) == Ok(true),
        Duty::Rules => decoder.codec() == CodecKind::Aper,
    }
}

/// Whether a decoder of these octets does it.
fn is_done(alloc: Global, rules: PackedRules, octets: &[u8], duty: Duty) -> bool {
    let mut decoder = Decoder::new(alloc, octets, DecoderOptions { rules });
    does(&mut decoder, duty)
}

#[test]
fn decoders_that_have_failed(rt: HostRuntime) {
    let alloc = rt.alloc();
    let rows: [(PackedRules, &[u8], Duty); 6] = [
        (PackedRules::Uper, &[], Duty::Bit),
        (PackedRules::UperStrict, &[], Duty::Bit),
        (PackedRules::Uper, &[0xC0], Duty::Alternative),
        (PackedRules::Aper, &[0x00], Duty::Levels),
        (PackedRules::Aper, &[], Duty::Rules),
        (PackedRules::AperStrict, &[], Duty::Rules),
    ];
    for (rules, octets, duty) in rows {
        assert!(rt; is_done(alloc, rules, octets, duty), "{duty:?}");
    }
}

/// Whether a string is borrowed, and has these octets.
fn is_lent(found: &InputOctets<'_>, octets: &[u8]) -> bool {
    match found {
        InputOctets::Lent(found) => *found == octets,
        InputOctets::Few(_) | InputOctets::Owned(_) => false,
    }
}

/// Whether the OCTET STRING that comes next is borrowed from the message, and has these octets.
fn lends(alloc: Global, decoder: &mut Decoder<'_>, octets: &[u8]) -> Result<bool, DecodeError> {
    let tag = Tag::OCTET_STRING;
    let found = decoder.decode_octet_string(alloc, tag, &Constraints::NONE, Bounded::None)?;
    Ok(is_lent(&found.octets, octets))
}

/// Whether TRUE comes next, and a borrowed OCTET STRING after it.
fn lends_behind_true(
    alloc: Global,
    decoder: &mut Decoder<'_>,
    octets: &[u8],
) -> Result<bool, DecodeError> {
    let first = decoder.decode_bool(Tag::BOOL)?;
    Ok(lends(alloc, decoder, octets)? && first)
}

/// Whether an OCTET STRING is borrowed after one bit.
fn lends_behind_a_bit(alloc: Global, input: &[u8], octets: &[u8]) -> Result<bool, DecodeError> {
    let mut decoder = Decoder::new(alloc, input, DecoderOptions::aligned());
    lends_behind_true(alloc, &mut decoder, octets)
}

/// Begins a choice of the alternatives [0] and, after its extension marker, [1].
fn begin_extensible(decoder: &mut Decoder<'_>) -> Result<(), DecodeError> {
    let Some(tables) = TagTables::checked(&[FIRST], true, &[SECOND], &PLACES[..2]) else {
        return Err(DecodeError::OutOfMemory);
    };
    decoder.begin_choice(Tag::EOC, &tables)?;
    Ok(())
}

/// Whether an OCTET STRING is borrowed in the open type of an added alternative, and another one after it.
fn lends_both(
    alloc: Global,
    decoder: &mut Decoder<'_>,
    (inside, behind): (&[u8], &[u8]),
) -> Result<bool, DecodeError> {
    begin_extensible(decoder)?;
    let first = lends(alloc, decoder, inside)?;
    decoder.end()?;
    Ok(lends(alloc, decoder, behind)? && first)
}

/// Whether both are in a message.
fn lends_in_an_open_type(
    alloc: Global,
    rules: PackedRules,
    input: &[u8],
    strings: (&[u8], &[u8]),
) -> Result<bool, DecodeError> {
    let mut decoder = Decoder::new(alloc, input, DecoderOptions { rules });
    lends_both(alloc, &mut decoder, strings)
}

#[test]
fn an_aligned_message_lends_its_octets(rt: HostRuntime) -> Result<(), Fail> {
    let alloc = rt.alloc();
    let lent = lends_behind_a_bit(alloc, &[0x80, 0x03, 0x01, 0x02, 0x03], &[1, 2, 3]);
    assert!(rt; lent == Ok(true));
    Ok(())
}

/// The extension bit and the index of an added alternative have eight bits (X.691 11.6 and 23.8), so that its open
/// type (11.2) begins at an octet boundary in each variant.
#[test]
fn octets_in_open_types_are_lent(rt: HostRuntime) {
    let input = [0x80, 0x04, 0x03, 0x01, 0x02, 0x03, 0x02, 0x04, 0x05];
    for rules in PACKED {
        let strings: (&[u8], &[u8]) = (&[1, 2, 3], &[4, 5]);
        assert!(rt; lends_in_an_open_type(rt.alloc(), rules, &input, strings) == Ok(true));
    }
}

/// Whether these are the octets, borrowed and as a vector.
fn holds<O: ReadOctets>(alloc: Global, found: O, octets: &[u8]) -> Result<bool, AllocError> {
    let is_there = found.octets() == octets;
    Ok(is_there && found.into_vec(alloc)?.as_slice() == octets)
}

/// Whether an OCTET STRING with these octets comes after one bit.
fn holds_behind_a_bit(alloc: Global, input: &[u8], octets: &[u8]) -> Result<bool, DecodeError> {
    let mut decoder = Decoder::new(alloc, input, DecoderOptions::unaligned());
    let first = decoder.decode_bool(Tag::BOOL)?;
    let tag = Tag::OCTET_STRING;
    let found = decoder.decode_octet_string(alloc, tag, &Constraints::NONE, Bounded::None)?;
    Ok(holds(alloc, found, octets)? && first)
}

#[test]
fn octets_behind_a_bit_are_copied(rt: HostRuntime) -> Result<(), Fail> {
    let input = [0x81, 0x80, 0x81, 0x01, 0x80];
    assert!(rt; holds_behind_a_bit(rt.alloc(), &input, &[1, 2, 3]) == Ok(true));
    Ok(())
}
