//! The octet encoding rules (X.696): values of the types of a table are read and written.
#![tactic(auto, using(std::proofs::lemmas::Grind::common_steps))]

ghost use Rattle.std.specs.Prelude.{◌≡◌, IfOk, IfErr};
ghost use Rattle.asn1_schema_decode.specs.Messages.{NeedsMore, NoMessage};
ghost use Rattle.asn1_schema_encode.specs.Written.{IsOfValue};
ghost use Rattle.asn1_table_walker.specs.Fronts.{TellsOnto};
ghost use Rattle.asn1_table_walker.specs.Texts.{EncodedIn, NotEncodedIn};
ghost use Rattle.asn1_table_nodes.specs.Meaning.{type_at};
ghost use Rattle.asn1_table_tape.specs.Records.{records_of};
ghost use Rattle.oer_codec.specs.Messages.{rules_of};
ghost use Rattle.oer_codec_encoder.specs.Written.{octet_rules};

use crate::codecs::FIRST_CAPACITY;
use asn1_schema_decode::Refusal;
use asn1_schema_errors::{DecodeError, EncodeError, refusal, within_limit};
use asn1_table_tape::{Event, replay};
use asn1_table_types::Types;
use asn1_table_walker::read_onto;
use oer_codec::oer::{Decoder, DecoderOptions, Encoder, EncoderOptions, EncodingRules};
use std::alloc::Global;

/// Reads the value of the type at this index of a table with whose encoding (X.696) the input begins: the records of
/// its normal form, and the octets after it.
///
/// # Errors
///
/// `OutOfMemory` if memory runs out. Otherwise only if no prefix of the input that is shorter than 2^60 octets is an
/// encoding of a value of the type with at most 128 nested levels. The error also says how many more octets are needed
/// at least.
pub fn decode_oer<'input>(
    alloc: Global,
    types: &Types,
    place: usize,
    input: &'input [u8],
    rules: EncodingRules,
) -> Result<(Vec<Event>, &'input [u8]), Refusal>
    ensures ok { IfOk result (λ x. TellsOnto (rules_of rules) (type_at types.now.nodes.items 128 place)
        (records_of types.now.nodes.items x.0.items) input.now x.1.now) }
    ensures only { IfErr result
        (λ r. NoMessage (rules_of rules) (λ _. type_at types.now.nodes.items 128 place) input.now r.error) }
    ensures needed { IfErr result (λ r. NeedsMore (rules_of rules)
        (λ _. type_at types.now.nodes.items 128 place) input.now r.needed r.error) }
    ensures fresh { IfErr result (λ r. r.error ≡ DecodeError.AlreadyFailed → ⊥) }
{
    let mut decoder = Decoder::new(alloc, input, DecoderOptions { rules });
    let looked_at = decoder.remaining().len();
    let mut tape = Vec::new(alloc);
    match read_onto(alloc, &mut decoder, types, place, &mut tape) {
        Ok(()) => {
            let taken = looked_at - decoder.remaining().len();
            let (_, rest) = input.split_at(taken);
            Ok((tape, rest))
        }
        Err(error) => {
            let needed = decoder.needed();
            Err(Refusal { error, needed })
        }
    }
}

/// The canonical encoding (X.696) of the value with these records.
///
/// # Errors
///
/// `TooLongValue` for an encoding of 2^60 octets or more and for nothing else, `OutOfMemory`, and others if the value
/// has no encoding of any length.
pub fn encode_oer(alloc: Global, types: &Types, tape: &[Event]) -> Result<Vec<u8>, EncodeError>
    ensures ok { IfOk result
        (λ octets. EncodedIn octet_rules (records_of types.now.nodes.items tape.now) octets.items) }
    ensures only { IfErr result (NotEncodedIn octet_rules (records_of types.now.nodes.items tape.now)) }
    ensures kinds { IfErr result IsOfValue }
{
    let room = Vec::with_capacity(alloc, FIRST_CAPACITY)?;
    encode_oer_in(alloc, types, tape, room)
}

/// As `encode_oer`, in the capacity of `room`, which is cleared.
pub(crate) fn encode_oer_in(
    alloc: Global,
    types: &Types,
    tape: &[Event],
    room: Vec<u8>,
) -> Result<Vec<u8>, EncodeError>
    ensures ok { IfOk result
        (λ octets. EncodedIn octet_rules (records_of types.now.nodes.items tape.now) octets.items) }
    ensures only { IfErr result (NotEncodedIn octet_rules (records_of types.now.nodes.items tape.now)) }
    ensures kinds { IfErr result IsOfValue }
{
    let mut output = room;
    output.clear();
    let mut worker = Vec::new(alloc);
    let options = EncoderOptions::coer();
    let mut encoder = Encoder::from_buffer(alloc, options, &mut output, &mut worker);
    match replay(&mut encoder, types, tape) {
        Ok(()) => within_limit(encoder.into_output()),
        Err(error) => Err(refusal(error)),
    }
}
