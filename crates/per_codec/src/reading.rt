//! Decodes the value with whose encoding octets begin.
ghost use Rattle.std.specs.Prelude.{◌≡◌, ◌≤◌, ℕ, List, IfOk, IfErr};
ghost use Rattle.asn1_model.specs.Lawful.{IsLawful};
ghost use Rattle.asn1_schema_constraints.specs.Terms.{meant};
ghost use Rattle.asn1_schema_decode.specs.Messages.{Tells, NeedsMore, NoMessage};
ghost use Rattle.per_codec.specs.Messages.{rules_of};

use asn1_schema_constraints::Constraints;
use asn1_schema_decode::{Decode, Refusal};
use asn1_schema_errors::DecodeError;
use per_codec_decoder::{Decoder, DecoderOptions};
use per_codec_reading::PackedRules;
use std::alloc::Global;

/// Decodes the value with whose encoding (X.691) the input begins, and ignores the octets after it.
///
/// # Errors
///
/// `OutOfMemory` if memory runs out. Otherwise only if no prefix of the input that is shorter than 2^60 octets is an
/// encoding of a value of the type with at most 128 nested levels.
#[inline(always)]
pub fn decode<T: Decode>(alloc: Global, input: &[u8], rules: PackedRules) -> Result<T, DecodeError>
    ensures ok { IfOk result (λ x. (rest : List ℕ) × Tells (rules_of rules) T.schema (T.meaning x) input.now rest) }
    ensures only { IfErr result (NoMessage (rules_of rules) T.schema input.now) }
    ensures fresh { IfErr result (λ e. e ≡ DecodeError.AlreadyFailed → ⊥) }
{
    let (value, _rest) = decode_with_remainder(alloc, input, rules)?;
    Ok(value)
}

/// Decodes the value with whose encoding (X.691) the input begins, and returns the octets after it as well.
///
/// # Errors
///
/// As `decode`.
#[inline(always)]
pub fn decode_with_remainder<'input, T: Decode>(
    alloc: Global,
    input: &'input [u8],
    rules: PackedRules,
) -> Result<(T, &'input [u8]), DecodeError>
    ensures ok { IfOk result (λ x. Tells (rules_of rules) T.schema (T.meaning x.0) input.now x.1.now) }
    ensures only { IfErr result (NoMessage (rules_of rules) T.schema input.now) }
    ensures fresh { IfErr result (λ e. e ≡ DecodeError.AlreadyFailed → ⊥) }
{
    let mut decoder = Decoder::new(alloc, input, DecoderOptions { rules });
    let value = T::decode(alloc, &mut decoder)?;
    decoder.finish()?;
    let taken = decoder.position() / 8;
    decoder.let_go();
    let (_, rest) = input.split_at(taken);
    Ok((value, rest))
}

/// As `decode_with_remainder`; an error also says how many more octets are needed at least. With fewer octets appended,
/// the input does not begin with an encoding either, unless the error was `OutOfMemory`.
///
/// # Errors
///
/// As `decode`.
#[inline(always)]
pub fn decode_or_need<'input, T: Decode>(
    alloc: Global,
    input: &'input [u8],
    rules: PackedRules,
) -> Result<(T, &'input [u8]), Refusal>
    ensures ok { IfOk result (λ x. Tells (rules_of rules) T.schema (T.meaning x.0) input.now x.1.now) }
    ensures only { IfErr result (λ r. NoMessage (rules_of rules) T.schema input.now r.error) }
    ensures needed { IfErr result (λ r. NeedsMore (rules_of rules) T.schema input.now r.needed r.error) }
    ensures fresh { IfErr result (λ r. r.error ≡ DecodeError.AlreadyFailed → ⊥) }
    ensures some { IfErr result (λ r. 1 ≤ r.needed) }
{
    let mut decoder = Decoder::new(alloc, input, DecoderOptions { rules });
    let value = match T::decode(alloc, &mut decoder) {
        Ok(value) => value,
        Err(error) => {
            let needed = decoder.needed();
            return Err(Refusal { error, needed });
        }
    };
    match decoder.finish() {
        Ok(()) => {}
        Err(error) => return Err(Refusal { error, needed: 1 }),
    }
    let taken = decoder.position() / 8;
    decoder.let_go();
    let (_, rest) = input.split_at(taken);
    Ok((value, rest))
}

/// Decodes the value with whose encoding (X.691) under these constraints, which replace those of the type, the input
/// begins, and ignores the octets after it.
///
/// # Errors
///
/// `OutOfMemory` if memory runs out. Otherwise, if the type under these constraints is well-formed, only if no prefix
/// of the input that is shorter than 2^60 octets is an encoding of a value of it with at most 128 nested levels.
pub fn decode_with_constraints<T: Decode>(
    alloc: Global,
    constraints: &Constraints,
    input: &[u8],
    rules: PackedRules,
) -> Result<T, DecodeError>
    ensures ok { IfOk result
        (λ x. (rest : List ℕ)
        × Tells (rules_of rules) (T.under (meant constraints.now)) (T.meaning x) input.now rest) }
    ensures only { IfErr result
        (λ error. IsLawful (T.under (meant constraints.now) 128)
        → NoMessage (rules_of rules) (T.under (meant constraints.now)) input.now error) }
    ensures fresh { IfErr result (λ e. e ≡ DecodeError.AlreadyFailed → ⊥) }
{
    let mut decoder = Decoder::new(alloc, input, DecoderOptions { rules });
    let value = T::decode_with_constraints(alloc, &mut decoder, constraints)?;
    decoder.finish()?;
    decoder.let_go();
    Ok(value)
}
