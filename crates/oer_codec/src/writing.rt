//! Encodes a value.
ghost use Rattle.std.specs.Prelude.{◌≡◌, ◌++◌, [], List, ℕ, length, OnOk, OnErr, IfOk, IfErr, MatchResult, ◌<◌, ◌≤◌};
ghost use Rattle.std.specs.Prelude.{◌^◌, take, drop};
ghost use Rattle.asn1_schema_constraints.specs.Terms.{meant};
ghost use Rattle.oer_codec.specs.Encoded.{IsEncoded, NotEncoded};
ghost use Rattle.asn1_schema_encode.specs.Written.{IsOfValue};

use asn1_schema_constraints::Constraints;
use asn1_schema_encode::Encode;
use asn1_schema_errors::{EncodeError, MOST_OCTETS, refusal, within_limit};
use oer_codec_encoder::{Encoder, EncoderOptions};
use std::alloc::{AllocError, Global};

/// The capacity, in octets, that is reserved before the first octet is written.
const FIRST_CAPACITY: usize = 128;

/// The canonical encoding of a value (X.696).
///
/// # Errors
///
/// `TooLongValue` for an encoding of 2^60 octets or more and for nothing else, `OutOfMemory`, and, if the value has no
/// encoding of any length, the errors of its type. `TooLongValue` and `LengthExceedsPlatformSize` of the type are
/// returned as `SizeConstraintNotSatisfied`, `CallOutOfPlace` of the type as `ValueConstraintNotSatisfied`.
pub fn encode<T: Encode>(alloc: Global, value: &T) -> Result<Vec<u8>, EncodeError>
    ensures ok { IfOk result (λ octets. IsEncoded T.schema (T.meaning value.now) octets.items) }
    ensures only { IfErr result (NotEncoded T.schema (T.meaning value.now)) }
    ensures kinds { IfErr result IsOfValue }
{
    let mut octets = Vec::new(alloc);
    encode_buf(alloc, value, &mut octets)?;
    Ok(octets)
}

/// The canonical encoding of a value (X.696) by its type under these constraints, which replace its own.
///
/// # Errors
///
/// Those of `encode`.
pub fn encode_with_constraints<T: Encode>(
    alloc: Global,
    constraints: &Constraints,
    value: &T,
) -> Result<Vec<u8>, EncodeError>
    ensures ok { IfOk result
        (λ octets. IsEncoded (T.under (meant constraints.now)) (T.meaning value.now) octets.items) }
    ensures only { IfErr result (NotEncoded (T.under (meant constraints.now)) (T.meaning value.now)) }
    ensures kinds { IfErr result IsOfValue }
{
    let mut output = Vec::with_capacity(alloc, FIRST_CAPACITY)?;
    let mut worker = Vec::new(alloc);
    let options = EncoderOptions::coer();
    let mut encoder = Encoder::from_buffer(alloc, options, &mut output, &mut worker);
    match value.encode_with_constraints(&mut encoder, constraints) {
        Ok(()) => within_limit(encoder.into_output()),
        Err(error) => Err(refusal(error)),
    }
}

/// Removes the octets after the first `front` ones, if they are too many for an encoding.
///
/// # Errors
///
/// `TooLongValue` if they are 2^60 or more.
fn cut_at_limit(octets: &mut Vec<u8>, front: usize) -> Result<(), EncodeError>
    ensures { MatchResult result
        (λ _. (octets.new.items ≡ octets.old.items) × (length (drop front octets.old.items) < 2 ^ 60))
        (λ e. (e ≡ EncodeError.TooLongValue) × (2 ^ 60 ≤ length (drop front octets.old.items))
        × (octets.new.items ≡ take front octets.old.items)) }
{
    if octets.len().saturating_sub(front) > MOST_OCTETS {
        octets.truncate(front);
        return Err(EncodeError::TooLongValue);
    }
    Ok(())
}

/// Reserves capacity for the first octets in a buffer that has none. The only error is that memory runs out.
#[inline(always)]
fn make_room(buffer: &mut Vec<u8>) -> Result<(), AllocError>
    ensures { buffer.new.items ≡ buffer.old.items }
{
    if buffer.capacity() == 0 {
        buffer.reserve(FIRST_CAPACITY)?;
    }
    Ok(())
}

/// Appends the canonical encoding of a value (X.696) to the octets in the buffer, using its capacity.
///
/// # Errors
///
/// Those of `encode`; the buffer then has its previous contents.
#[inline(always)]
pub fn encode_buf<T: Encode>(
    alloc: Global,
    value: &T,
    buffer: &mut Vec<u8>,
) -> Result<(), EncodeError>
    ensures ok { OnOk result
        ((octets : List ℕ)
        × IsEncoded T.schema (T.meaning value.now) octets × (buffer.new.items ≡ buffer.old.items ++ octets)) }
    ensures only { IfErr result (NotEncoded T.schema (T.meaning value.now)) }
    ensures kinds { IfErr result IsOfValue }
    ensures same { OnErr result (buffer.new.items ≡ buffer.old.items) }
{
    let front = buffer.len();
    make_room(buffer)?;
    let mut worker = Vec::new(alloc);
    let options = EncoderOptions::coer();
    let mut encoder = Encoder::from_buffer(alloc, options, buffer, &mut worker);
    match value.encode(&mut encoder) {
        Ok(()) => {
            *buffer = encoder.into_output();
            cut_at_limit(buffer, front)
        }
        Err(error) => {
            *buffer = encoder.into_front();
            Err(refusal(error))
        }
    }
}
