//! The unaligned packed encoding rules, UPER (X.691): encodes and decodes values.
ghost use Rattle.std.specs.Prelude.{◌≡◌, ◌≤◌, [], ℕ, List, OnOk, OnErr, IfOk, IfErr};
ghost use Rattle.asn1_model.specs.Lawful.{IsLawful};
ghost use Rattle.asn1_model.specs.Rules.{uper};
ghost use Rattle.asn1_schema_constraints.specs.Terms.{meant};
ghost use Rattle.asn1_schema_decode.specs.Messages.{NeedsMore, NoMessage, Tells};
ghost use Rattle.per_codec.specs.Encoded.{IsEncoded, NotEncoded};
ghost use Rattle.asn1_schema_encode.specs.Written.{IsOfValue};

use asn1_schema_constraints::Constraints;
use asn1_schema_decode::{Decode, Refusal};
use asn1_schema_encode::Encode;
use asn1_schema_errors::{DecodeError, EncodeError};
pub use per_codec_decoder::{Decoder, DecoderOptions};
pub use per_codec_encoder::{Encoder, EncoderOptions};
use per_codec_reading::PackedRules;
use per_codec_rules::Variant;
use std::alloc::Global;

/// The canonical encoding of a value (X.691 11.1): at least one octet.
///
/// # Errors
///
/// `OutOfMemory` if memory runs out. Otherwise only if the value has no encoding: `ValueConstraintNotSatisfied`,
/// `SizeConstraintNotSatisfied`, `AlphabetConstraintNotSatisfied`, or `TooLongValue` for an encoding of 2^60 octets or
/// more and for nothing else.
pub fn encode<T: Encode>(alloc: Global, value: &T) -> Result<Vec<u8>, EncodeError>
    ensures ok { IfOk result (λ octets. IsEncoded Variant.Unaligned T.schema (T.meaning value.now) octets.items) }
    ensures only { IfErr result (NotEncoded Variant.Unaligned T.schema (T.meaning value.now)) }
    ensures kinds { IfErr result IsOfValue }
{
    let octets = crate::writing::encode(alloc, EncoderOptions::unaligned(), value)?;
    Ok(octets)
}

/// Replaces the contents of the buffer by the canonical encoding of a value (X.691 11.1).
///
/// # Errors
///
/// Those of `encode`; the buffer is then empty.
pub fn encode_buf<T: Encode>(
    alloc: Global,
    value: &T,
    buffer: &mut Vec<u8>,
) -> Result<(), EncodeError>
    ensures ok { OnOk result (IsEncoded Variant.Unaligned T.schema (T.meaning value.now) buffer.new.items) }
    ensures only { IfErr result (NotEncoded Variant.Unaligned T.schema (T.meaning value.now)) }
    ensures kinds { IfErr result IsOfValue }
    ensures empty { OnErr result (buffer.new.items ≡ []) }
{
    crate::writing::encode_buf(alloc, EncoderOptions::unaligned(), value, buffer)?;
    Ok(())
}

/// The canonical encoding of a value (X.691 11.1) under these constraints, which replace those of its type.
///
/// # Errors
///
/// Those of `encode`.
pub fn encode_with_constraints<T: Encode>(
    alloc: Global,
    constraints: &Constraints,
    value: &T,
) -> Result<Vec<u8>, EncodeError>
    ensures ok { IfOk result
        (λ octets. IsEncoded Variant.Unaligned (T.under (meant constraints.now)) (T.meaning value.now) octets.items) }
    ensures only { IfErr result
        (NotEncoded Variant.Unaligned (T.under (meant constraints.now)) (T.meaning value.now)) }
    ensures kinds { IfErr result IsOfValue }
{
    let options = EncoderOptions::unaligned();
    let octets = crate::writing::encode_with_constraints(alloc, options, constraints, value)?;
    Ok(octets)
}

/// Decodes the value with whose encoding (X.691 11.1) the input begins, and ignores the octets after it.
///
/// # Errors
///
/// `OutOfMemory` if memory runs out. Otherwise only if no prefix of the input that is shorter than 2^60 octets is an
/// encoding of a value with at most 128 nested levels.
pub fn decode<T: Decode>(alloc: Global, input: &[u8]) -> Result<T, DecodeError>
    ensures ok { IfOk result (λ x. (rest : List ℕ) × Tells uper T.schema (T.meaning x) input.now rest) }
    ensures only { IfErr result (NoMessage uper T.schema input.now) }
    ensures fresh { IfErr result (λ e. e ≡ DecodeError.AlreadyFailed → ⊥) }
{
    let value = crate::reading::decode(alloc, input, PackedRules::Uper)?;
    Ok(value)
}

/// Decodes the value with whose encoding (X.691 11.1) the input begins, and returns the octets after it as well.
///
/// # Errors
///
/// Those of `decode`.
pub fn decode_with_remainder<'input, T: Decode>(
    alloc: Global,
    input: &'input [u8],
) -> Result<(T, &'input [u8]), DecodeError>
    ensures ok { IfOk result (λ x. Tells uper T.schema (T.meaning x.0) input.now x.1.now) }
    ensures only { IfErr result (NoMessage uper T.schema input.now) }
    ensures fresh { IfErr result (λ e. e ≡ DecodeError.AlreadyFailed → ⊥) }
{
    let (value, rest) = crate::reading::decode_with_remainder(alloc, input, PackedRules::Uper)?;
    Ok((value, rest))
}

/// As `decode_with_remainder`; an error also says how many more octets are needed at least. With fewer octets appended,
/// the input does not begin with an encoding either, unless the error was `OutOfMemory`.
///
/// # Errors
///
/// Those of `decode`.
pub fn decode_or_need<'input, T: Decode>(
    alloc: Global,
    input: &'input [u8],
) -> Result<(T, &'input [u8]), Refusal>
    ensures ok { IfOk result (λ x. Tells uper T.schema (T.meaning x.0) input.now x.1.now) }
    ensures only { IfErr result (λ r. NoMessage uper T.schema input.now r.error) }
    ensures needed { IfErr result (λ r. NeedsMore uper T.schema input.now r.needed r.error) }
    ensures fresh { IfErr result (λ r. r.error ≡ DecodeError.AlreadyFailed → ⊥) }
    ensures some { IfErr result (λ r. 1 ≤ r.needed) }
{
    crate::reading::decode_or_need(alloc, input, PackedRules::Uper)
}

/// Decodes the value with whose encoding (X.691 11.1) under these constraints, which replace those of the type, the
/// input begins.
///
/// # Errors
///
/// Those of `decode`, if the type under these constraints is well-formed.
pub fn decode_with_constraints<T: Decode>(
    alloc: Global,
    constraints: &Constraints,
    input: &[u8],
) -> Result<T, DecodeError>
    ensures ok { IfOk result
        (λ x. (rest : List ℕ) × Tells uper (T.under (meant constraints.now)) (T.meaning x) input.now rest) }
    ensures only { IfErr result
        (λ error. IsLawful (T.under (meant constraints.now) 128)
        → NoMessage uper (T.under (meant constraints.now)) input.now error) }
    ensures fresh { IfErr result (λ e. e ≡ DecodeError.AlreadyFailed → ⊥) }
{
    let value = crate::reading::decode_with_constraints(
        alloc,
        constraints,
        input,
        PackedRules::Uper,
    )?;
    Ok(value)
}
