//! Encodes a value.
ghost use Rattle.std.specs.Prelude.{◌≡◌, [], length, OnOk, OnErr, IfOk, IfErr, MatchResult, ◌<◌, ◌≤◌, ◌^◌};
ghost use Rattle.per_codec_encoder.specs.Stepping.{variant_of};
ghost use Rattle.asn1_schema_constraints.specs.Terms.{meant};
ghost use Rattle.per_codec.specs.Encoded.{IsEncoded, NotEncoded};
ghost use Rattle.asn1_schema_encode.specs.Written.{IsOfValue};

use asn1_schema_constraints::Constraints;
use asn1_schema_encode::Encode;
use asn1_schema_errors::{EncodeError, refusal, within_limit};
use per_codec_encoder::{Encoder, EncoderOptions};
use std::alloc::Global;
use std::mem;

/// The capacity, in octets, that is reserved before the first octet is written.
const FIRST_CAPACITY: usize = 128;

/// An empty vector with capacity for the encoding of a small value.
fn with_room(alloc: Global) -> Result<Vec<u8>, EncodeError>
    ensures { MatchResult result (λ octets. octets.items ≡ []) (λ e. e ≡ EncodeError.OutOfMemory) }
{
    let octets = Vec::with_capacity(alloc, FIRST_CAPACITY)?;
    Ok(octets)
}

/// The canonical encoding of a value (X.691), in the variant that the options give: at least one octet.
///
/// # Errors
///
/// `TooLongValue` for an encoding of 2^60 octets or more and for nothing else, `OutOfMemory`, and, if the value has no
/// encoding of any length, the errors of its type. `TooLongValue` and `LengthExceedsPlatformSize` of the type are
/// returned as `SizeConstraintNotSatisfied`, `CallOutOfPlace` of the type as `ValueConstraintNotSatisfied`.
pub fn encode<T: Encode>(
    alloc: Global,
    options: EncoderOptions,
    value: &T,
) -> Result<Vec<u8>, EncodeError>
    ensures ok { IfOk result (λ octets. IsEncoded (variant_of options) T.schema (T.meaning value.now) octets.items) }
    ensures only { IfErr result (NotEncoded (variant_of options) T.schema (T.meaning value.now)) }
    ensures kinds { IfErr result IsOfValue }
{
    let room = with_room(alloc)?;
    encode_into(alloc, options, value, room)
}

/// As `encode`, with the capacity of these octets, which are cleared.
#[inline(always)]
fn encode_into<T: Encode>(
    alloc: Global,
    options: EncoderOptions,
    value: &T,
    room: Vec<u8>,
) -> Result<Vec<u8>, EncodeError>
    ensures ok { IfOk result (λ octets. IsEncoded (variant_of options) T.schema (T.meaning value.now) octets.items) }
    ensures only { IfErr result (NotEncoded (variant_of options) T.schema (T.meaning value.now)) }
    ensures kinds { IfErr result IsOfValue }
{
    let mut encoder = Encoder::new_with_output(alloc, options, room);
    match value.encode(&mut encoder) {
        Ok(()) => {
            let octets = encoder.output_into_vec()?;
            within_limit(octets)
        }
        Err(error) => Err(refusal(error)),
    }
}

/// The canonical encoding of a value (X.691) by its type under these constraints, which replace its own.
///
/// # Errors
///
/// Those of `encode`.
pub fn encode_with_constraints<T: Encode>(
    alloc: Global,
    options: EncoderOptions,
    constraints: &Constraints,
    value: &T,
) -> Result<Vec<u8>, EncodeError>
    ensures ok { IfOk result
        (λ octets. IsEncoded (variant_of options) (T.under (meant constraints.now))
        (T.meaning value.now) octets.items) }
    ensures only { IfErr result
        (NotEncoded (variant_of options) (T.under (meant constraints.now)) (T.meaning value.now)) }
    ensures kinds { IfErr result IsOfValue }
{
    let room = with_room(alloc)?;
    let mut encoder = Encoder::new_with_output(alloc, options, room);
    match value.encode_with_constraints(&mut encoder, constraints) {
        Ok(()) => {
            let octets = encoder.output_into_vec()?;
            within_limit(octets)
        }
        Err(error) => Err(refusal(error)),
    }
}

/// Replaces the contents of the buffer by the canonical encoding of a value (X.691), using its capacity.
///
/// # Errors
///
/// Those of `encode`; the buffer is then empty.
pub fn encode_buf<T: Encode>(
    alloc: Global,
    options: EncoderOptions,
    value: &T,
    buffer: &mut Vec<u8>,
) -> Result<(), EncodeError>
    ensures ok { OnOk result (IsEncoded (variant_of options) T.schema (T.meaning value.now) buffer.new.items) }
    ensures only { IfErr result (NotEncoded (variant_of options) T.schema (T.meaning value.now)) }
    ensures kinds { IfErr result IsOfValue }
    ensures none { OnErr result (buffer.new.items ≡ []) }
{
    let room = mem::replace(buffer, Vec::new(alloc));
    *buffer = encode_into(alloc, options, value, room)?;
    Ok(())
}
