//! The packed encoding rules (X.691): values of the types of a table are read and written.
#![tactic(auto, using(std::proofs::lemmas::Grind::common_steps))]

ghost use Rattle.std.specs.Prelude.{◌≡◌, IfOk, IfErr};
ghost use Rattle.asn1_schema_decode.specs.Messages.{NeedsMore, NoMessage};
ghost use Rattle.asn1_table_nodes.specs.Meaning.{type_at};
ghost use Rattle.asn1_table_tape.specs.Records.{records_of};
ghost use Rattle.asn1_schema_encode.specs.Written.{IsOfValue};
ghost use Rattle.asn1_table_walker.specs.Fronts.{TellsOnto};
ghost use Rattle.asn1_table_walker.specs.Texts.{EncodedIn, NotEncodedIn};
ghost use Rattle.per_codec.specs.Messages.{rules_of};
ghost use Rattle.per_codec_encoder.specs.Stepping.{variant_of};
ghost use Rattle.per_codec_encoder.specs.Written.{packed_rules};
ghost use Rattle.per_codec_rules.specs.Variants.{is_aligned};

use crate::codecs::FIRST_CAPACITY;
use asn1_schema_decode::Refusal;
use asn1_schema_errors::{DecodeError, EncodeError, refusal, within_limit};
use asn1_table_tape::{Event, replay};
use asn1_table_types::Types;
use asn1_table_walker::read_onto;
use per_codec_decoder::{Decoder, DecoderOptions};
use per_codec_encoder::{Encoder, EncoderOptions};
use per_codec_reading::PackedRules;
use std::alloc::Global;

/// Reads the value of the type at this index of a table with whose encoding (X.691) the input begins: the records of
/// its normal form, and the octets after it.
///
/// # Errors
///
/// `OutOfMemory` if memory runs out. Otherwise only if no prefix of the input that is shorter than 2^60 octets is an
/// encoding of a value of the type with at most 128 nested levels. The error also says how many more octets are needed
/// at least.
pub fn decode_per<'input>(
    alloc: Global,
    types: &Types,
    place: usize,
    input: &'input [u8],
    rules: PackedRules,
) -> Result<(Vec<Event>, &'input [u8]), Refusal>
    ensures ok { IfOk result (λ x. TellsOnto (rules_of rules) (type_at types.now.nodes.items 128 place)
        (records_of types.now.nodes.items x.0.items) input.now x.1.now) }
    ensures only { IfErr result
        (λ r. NoMessage (rules_of rules) (λ _. type_at types.now.nodes.items 128 place) input.now r.error) }
    ensures needed { IfErr result (λ r. NeedsMore (rules_of rules)
        (λ _. type_at types.now.nodes.items 128 place) input.now r.needed r.error) }
    ensures fresh { IfErr result (λ r. r.error ≡ DecodeError.AlreadyFailed → ⊥) }
{
    let mut decoder = Decoder::new(alloc, input, DecoderOptions { rules });
    let mut tape = Vec::new(alloc);
    match read_onto(alloc, &mut decoder, types, place, &mut tape) {
        Ok(()) => {}
        Err(error) => {
            let needed = decoder.needed();
            return Err(Refusal { error, needed });
        }
    }
    match decoder.finish() {
        Ok(()) => {}
        Err(error) => return Err(Refusal { error, needed: 1 }),
    }
    let taken = decoder.position() / 8;
    decoder.let_go();
    let (_, rest) = input.split_at(taken);
    Ok((tape, rest))
}

/// The canonical encoding (X.691) of the value with these records, in the variant that the options name.
///
/// # Errors
///
/// `TooLongValue` for an encoding of 2^60 octets or more and for nothing else, `OutOfMemory`, and others if the value
/// has no encoding of any length.
pub fn encode_per(
    alloc: Global,
    types: &Types,
    tape: &[Event],
    options: EncoderOptions,
) -> Result<Vec<u8>, EncodeError>
    ensures ok { IfOk result (λ octets. EncodedIn (packed_rules (is_aligned (variant_of options)))
        (records_of types.now.nodes.items tape.now) octets.items) }
    ensures only { IfErr result (NotEncodedIn (packed_rules (is_aligned (variant_of options)))
        (records_of types.now.nodes.items tape.now)) }
    ensures kinds { IfErr result IsOfValue }
{
    let room = Vec::with_capacity(alloc, FIRST_CAPACITY)?;
    encode_per_in(alloc, types, tape, options, room)
}

/// As `encode_per`, in the capacity of `room`, which is cleared.
pub(crate) fn encode_per_in(
    alloc: Global,
    types: &Types,
    tape: &[Event],
    options: EncoderOptions,
    room: Vec<u8>,
) -> Result<Vec<u8>, EncodeError>
    ensures ok { IfOk result (λ octets. EncodedIn (packed_rules (is_aligned (variant_of options)))
        (records_of types.now.nodes.items tape.now) octets.items) }
    ensures only { IfErr result (NotEncodedIn (packed_rules (is_aligned (variant_of options)))
        (records_of types.now.nodes.items tape.now)) }
    ensures kinds { IfErr result IsOfValue }
{
    let mut encoder = Encoder::new_with_output(alloc, options, room);
    match replay(&mut encoder, types, tape) {
        Ok(()) => {
            let octets = encoder.output_into_vec()?;
            within_limit(octets)
        }
        Err(error) => Err(refusal(error)),
    }
}
