//! The basic octet encoding rules, OER (X.696): encodes and decodes values.
ghost use Rattle.std.specs.Prelude.{◌≡◌, ◌++◌, ◌≤◌, ℕ, List, OnOk, OnErr, IfOk, IfErr};
ghost use Rattle.asn1_model.specs.Lawful.{IsLawful};
ghost use Rattle.asn1_model.specs.Rules.{oer};
ghost use Rattle.asn1_schema_constraints.specs.Terms.{meant};
ghost use Rattle.asn1_schema_decode.specs.Messages.{NeedsMore, NoMessage, Tells};
ghost use Rattle.oer_codec.specs.Encoded.{IsEncoded, NotEncoded};
ghost use Rattle.asn1_schema_encode.specs.Written.{IsOfValue};

use asn1_schema_constraints::Constraints;
use asn1_schema_decode::{Decode, Refusal};
use asn1_schema_encode::Encode;
use asn1_schema_errors::{DecodeError, EncodeError};
pub use oer_codec_decoder::{Decoder, DecoderOptions};
pub use oer_codec_encoder::{Encoder, EncoderOptions};
pub use oer_codec_reading::EncodingRules;
use std::alloc::Global;

/// The canonical encoding of a value (X.696), which OER and COER have in common.
///
/// # Errors
///
/// `OutOfMemory` if memory runs out. Otherwise only if the value has no encoding: `ValueConstraintNotSatisfied`,
/// `SizeConstraintNotSatisfied`, or `TooLongValue` for an encoding of 2^60 octets or more and for nothing else.
pub fn encode<T: Encode>(alloc: Global, value: &T) -> Result<Vec<u8>, EncodeError>
    ensures ok { IfOk result (λ octets. IsEncoded T.schema (T.meaning value.now) octets.items) }
    ensures only { IfErr result (NotEncoded T.schema (T.meaning value.now)) }
    ensures kinds { IfErr result IsOfValue }
{
    crate::writing::encode(alloc, value)
}

/// Appends the canonical encoding of a value (X.696) to the octets in the buffer, using its capacity.
///
/// # Errors
///
/// Those of `encode`; the buffer then has its previous contents.
pub fn encode_buf<T: Encode>(
    alloc: Global,
    value: &T,
    buffer: &mut Vec<u8>,
) -> Result<(), EncodeError>
    ensures ok { OnOk result
        ((octets : List ℕ)
        × IsEncoded T.schema (T.meaning value.now) octets × (buffer.new.items ≡ buffer.old.items ++ octets)) }
    ensures only { IfErr result (NotEncoded T.schema (T.meaning value.now)) }
    ensures kinds { IfErr result IsOfValue }
    ensures same { OnErr result (buffer.new.items ≡ buffer.old.items) }
{
    crate::writing::encode_buf(alloc, value, buffer)
}

/// The canonical encoding of a value (X.696) under these constraints, which replace those of its type.
///
/// # Errors
///
/// Those of `encode`.
pub fn encode_with_constraints<T: Encode>(
    alloc: Global,
    constraints: &Constraints,
    value: &T,
) -> Result<Vec<u8>, EncodeError>
    ensures ok { IfOk result
        (λ octets. IsEncoded (T.under (meant constraints.now)) (T.meaning value.now) octets.items) }
    ensures only { IfErr result (NotEncoded (T.under (meant constraints.now)) (T.meaning value.now)) }
    ensures kinds { IfErr result IsOfValue }
{
    crate::writing::encode_with_constraints(alloc, constraints, value)
}

/// Decodes the value with whose encoding (X.696) the input begins, and ignores the octets after it.
///
/// # Errors
///
/// `OutOfMemory` if memory runs out. Otherwise only if no prefix of the input that is shorter than 2^60 octets is an
/// encoding of a value with at most 128 nested levels.
pub fn decode<T: Decode>(alloc: Global, input: &[u8]) -> Result<T, DecodeError>
    ensures ok { IfOk result (λ x. (rest : List ℕ) × Tells oer T.schema (T.meaning x) input.now rest) }
    ensures only { IfErr result (NoMessage oer T.schema input.now) }
    ensures fresh { IfErr result (λ e. e ≡ DecodeError.AlreadyFailed → ⊥) }
{
    crate::reading::decode(alloc, input, EncodingRules::Oer)
}

/// Decodes the value with whose encoding (X.696) the input begins, and returns the octets after it as well.
///
/// # Errors
///
/// Those of `decode`.
pub fn decode_with_remainder<'input, T: Decode>(
    alloc: Global,
    input: &'input [u8],
) -> Result<(T, &'input [u8]), DecodeError>
    ensures ok { IfOk result (λ x. Tells oer T.schema (T.meaning x.0) input.now x.1.now) }
    ensures only { IfErr result (NoMessage oer T.schema input.now) }
    ensures fresh { IfErr result (λ e. e ≡ DecodeError.AlreadyFailed → ⊥) }
{
    crate::reading::decode_with_remainder(alloc, input, EncodingRules::Oer)
}

/// As `decode_with_remainder`; an error also says how many more octets are needed at least. With fewer octets appended,
/// the input does not begin with an encoding either, unless the error was `OutOfMemory`.
///
/// # Errors
///
/// Those of `decode`.
pub fn decode_or_need<'input, T: Decode>(
    alloc: Global,
    input: &'input [u8],
) -> Result<(T, &'input [u8]), Refusal>
    ensures ok { IfOk result (λ x. Tells oer T.schema (T.meaning x.0) input.now x.1.now) }
    ensures only { IfErr result (λ r. NoMessage oer T.schema input.now r.error) }
    ensures needed { IfErr result (λ r. NeedsMore oer T.schema input.now r.needed r.error) }
    ensures fresh { IfErr result (λ r. r.error ≡ DecodeError.AlreadyFailed → ⊥) }
    ensures some { IfErr result (λ r. 1 ≤ r.needed) }
{
    crate::reading::decode_or_need(alloc, input, EncodingRules::Oer)
}

/// Decodes the value with whose encoding (X.696) under these constraints, which replace those of the type, the input
/// begins.
///
/// # Errors
///
/// Those of `decode`, if the type under these constraints is well-formed.
pub fn decode_with_constraints<T: Decode>(
    alloc: Global,
    constraints: &Constraints,
    input: &[u8],
) -> Result<T, DecodeError>
    ensures ok { IfOk result
        (λ x. (rest : List ℕ) × Tells oer (T.under (meant constraints.now)) (T.meaning x) input.now rest) }
    ensures only { IfErr result
        (λ error. IsLawful (T.under (meant constraints.now) 128)
        → NoMessage oer (T.under (meant constraints.now)) input.now error) }
    ensures fresh { IfErr result (λ e. e ≡ DecodeError.AlreadyFailed → ⊥) }
{
    crate::reading::decode_with_constraints(alloc, constraints, input, EncodingRules::Oer)
}
