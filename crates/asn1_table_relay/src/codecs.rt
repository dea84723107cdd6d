//! Values of the types of a table are read and written by each set of encoding rules.
#![tactic(auto, using(std::proofs::lemmas::Grind::common_steps))]

ghost use Rattle.std.specs.Prelude.{◌≡◌, [], ◌∷◌, IfOk, IfErr};
ghost use Rattle.asn1_model.specs.Rules.{uper, aper, uper_strict, aper_strict, oer, coer};
ghost use Rattle.asn1_relay_core.specs.Coding.{rules_of};
ghost use Rattle.asn1_schema_decode.specs.Messages.{NeedsMore, NoMessage};
ghost use Rattle.asn1_schema_encode.specs.Written.{IsOfValue};
ghost use Rattle.asn1_table_nodes.specs.Meaning.{type_at};
ghost use Rattle.asn1_table_tape.specs.Records.{records_of};
ghost use Rattle.asn1_table_walker.specs.Fronts.{TellsOnto};
ghost use Rattle.asn1_table_walker.specs.Texts.{EncodedIn, NotEncodedIn};

use crate::oer::{decode_oer, encode_oer_in};
use crate::per::{decode_per, encode_per_in};
use asn1_relay_core::Codec;
use asn1_schema_decode::Refusal;
use asn1_schema_errors::{DecodeError, EncodeError};
use asn1_table_tape::Event;
use asn1_table_types::Types;
use oer_codec::oer::EncodingRules;
use per_codec_encoder::EncoderOptions;
use per_codec_reading::PackedRules;
use std::alloc::Global;

/// For how many octets there is room before the first one is written.
pub(crate) const FIRST_CAPACITY: usize = 128;

/// Reads the value of the type at this index of a table with whose encoding in these rules the input begins: the
/// records of its normal form, and the octets after it.
///
/// # Errors
///
/// `OutOfMemory` if memory runs out. Otherwise only if no prefix of the input that is shorter than 2^60 octets is an
/// encoding of a value of the type with at most 128 nested levels. The error also says how many more octets are needed
/// at least.
pub fn read_front<'input>(
    alloc: Global,
    types: &Types,
    place: usize,
    from: Codec,
    input: &'input [u8],
) -> Result<(Vec<Event>, &'input [u8]), Refusal>
    ensures ok { IfOk result (λ x. TellsOnto (rules_of from) (type_at types.now.nodes.items 128 place)
        (records_of types.now.nodes.items x.0.items) input.now x.1.now) }
    ensures only { IfErr result
        (λ r. NoMessage (rules_of from) (λ _. type_at types.now.nodes.items 128 place) input.now r.error) }
    ensures needed { IfErr result (λ r. NeedsMore (rules_of from)
        (λ _. type_at types.now.nodes.items 128 place) input.now r.needed r.error) }
    ensures fresh { IfErr result (λ r. r.error ≡ DecodeError.AlreadyFailed → ⊥) }
{
    match from {
        Codec::Uper => decode_per(alloc, types, place, input, PackedRules::Uper),
        Codec::Aper => decode_per(alloc, types, place, input, PackedRules::Aper),
        Codec::UperStrict => decode_per(alloc, types, place, input, PackedRules::UperStrict),
        Codec::AperStrict => decode_per(alloc, types, place, input, PackedRules::AperStrict),
        Codec::Oer => decode_oer(alloc, types, place, input, EncodingRules::Oer),
        Codec::Coer => decode_oer(alloc, types, place, input, EncodingRules::Coer),
    }
}

/// The canonical encoding by these rules of the value with these records, in the capacity of `room`, which is cleared.
///
/// # Errors
///
/// `TooLongValue` for an encoding of 2^60 octets or more and for nothing else, `OutOfMemory`, and others if the value
/// has no encoding of any length.
pub fn write(
    alloc: Global,
    types: &Types,
    to: Codec,
    tape: &[Event],
    room: Vec<u8>,
) -> Result<Vec<u8>, EncodeError>
    ensures ok { IfOk result
        (λ octets. EncodedIn (rules_of to ∷ []) (records_of types.now.nodes.items tape.now) octets.items) }
    ensures only { IfErr result
        (NotEncodedIn (rules_of to ∷ []) (records_of types.now.nodes.items tape.now)) }
    ensures kinds { IfErr result IsOfValue }
{
    match to {
        Codec::Uper => write_unaligned(alloc, types, tape, room),
        Codec::Aper => write_aligned(alloc, types, tape, room),
        Codec::UperStrict => write_unaligned(alloc, types, tape, room),
        Codec::AperStrict => write_aligned(alloc, types, tape, room),
        Codec::Oer => write_octets(alloc, types, tape, room),
        Codec::Coer => write_octets(alloc, types, tape, room),
    }
}

// UPER, lenient or strict: what is written is the same.
fn write_unaligned(
    alloc: Global,
    types: &Types,
    tape: &[Event],
    room: Vec<u8>,
) -> Result<Vec<u8>, EncodeError>
    ensures ok { IfOk result
        (λ octets. EncodedIn (uper ∷ []) (records_of types.now.nodes.items tape.now) octets.items) }
    ensures same { IfOk result
        (λ octets. EncodedIn (uper_strict ∷ []) (records_of types.now.nodes.items tape.now) octets.items) }
    ensures only { IfErr result (NotEncodedIn (uper ∷ []) (records_of types.now.nodes.items tape.now)) }
    ensures same_only { IfErr result
        (NotEncodedIn (uper_strict ∷ []) (records_of types.now.nodes.items tape.now)) }
    ensures kinds { IfErr result IsOfValue }
{
    match encode_per_in(alloc, types, tape, EncoderOptions::unaligned(), room) {
        Ok(octets) => Ok(octets),
        Err(error) => Err(error),
    }
}

// The same of APER.
fn write_aligned(
    alloc: Global,
    types: &Types,
    tape: &[Event],
    room: Vec<u8>,
) -> Result<Vec<u8>, EncodeError>
    ensures ok { IfOk result
        (λ octets. EncodedIn (aper ∷ []) (records_of types.now.nodes.items tape.now) octets.items) }
    ensures same { IfOk result
        (λ octets. EncodedIn (aper_strict ∷ []) (records_of types.now.nodes.items tape.now) octets.items) }
    ensures only { IfErr result (NotEncodedIn (aper ∷ []) (records_of types.now.nodes.items tape.now)) }
    ensures same_only { IfErr result
        (NotEncodedIn (aper_strict ∷ []) (records_of types.now.nodes.items tape.now)) }
    ensures kinds { IfErr result IsOfValue }
{
    match encode_per_in(alloc, types, tape, EncoderOptions::aligned(), room) {
        Ok(octets) => Ok(octets),
        Err(error) => Err(error),
    }
}

// OER and COER: what is written is the same.
fn write_octets(
    alloc: Global,
    types: &Types,
    tape: &[Event],
    room: Vec<u8>,
) -> Result<Vec<u8>, EncodeError>
    ensures ok { IfOk result
        (λ octets. EncodedIn (oer ∷ []) (records_of types.now.nodes.items tape.now) octets.items) }
    ensures same { IfOk result
        (λ octets. EncodedIn (coer ∷ []) (records_of types.now.nodes.items tape.now) octets.items) }
    ensures only { IfErr result (NotEncodedIn (oer ∷ []) (records_of types.now.nodes.items tape.now)) }
    ensures same_only { IfErr result
        (NotEncodedIn (coer ∷ []) (records_of types.now.nodes.items tape.now)) }
    ensures kinds { IfErr result IsOfValue }
{
    match encode_oer_in(alloc, types, tape, room) {
        Ok(octets) => Ok(octets),
        Err(error) => Err(error),
    }
}
