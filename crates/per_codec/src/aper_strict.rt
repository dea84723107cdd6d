//! The aligned packed encoding rules, APER (X.691), decoded strictly: only the forms that an encoder writes are
//! accepted. Padding bits are zero (X.691 11.1), lengths and numbers have their shortest form (X.691 11.5 to 11.9), the
//! largest fragments come first (X.691 11.9.3.8), and a value of the root is not encoded as outside it. Components that
//! are equal to their default are absent (X.691 19.5), a presence bitmap of extension additions has a bit set (X.691
//! 19.7), and only padding follows the value in an open type (X.691 11.2). Three things are free: the width of a
//! presence bitmap, the octets of unknown additions (X.691 19.8), and the order of the elements of a SET OF.
ghost use Rattle.std.specs.Prelude.{◌≡◌, ◌≤◌, ℕ, List, IfOk, IfErr};
ghost use Rattle.asn1_model.specs.Lawful.{IsLawful};
ghost use Rattle.asn1_model.specs.Rules.{aper_strict};
ghost use Rattle.asn1_schema_constraints.specs.Terms.{meant};
ghost use Rattle.asn1_schema_decode.specs.Messages.{NeedsMore, NoMessage, Tells};

use asn1_schema_constraints::Constraints;
use asn1_schema_decode::{Decode, Refusal};
use asn1_schema_errors::DecodeError;
use per_codec_reading::PackedRules;
use std::alloc::Global;

/// Decodes the value with whose strict encoding (X.691 11.1) the input begins, and ignores the octets after it.
///
/// # Errors
///
/// `OutOfMemory` if memory runs out. Otherwise only if no prefix of the input that is shorter than 2^60 octets is a
/// strict encoding of a value with at most 128 nested levels.
pub fn decode<T: Decode>(alloc: Global, input: &[u8]) -> Result<T, DecodeError>
    ensures ok { IfOk result (λ x. (rest : List ℕ) × Tells aper_strict T.schema (T.meaning x) input.now rest) }
    ensures only { IfErr result (NoMessage aper_strict T.schema input.now) }
    ensures fresh { IfErr result (λ e. e ≡ DecodeError.AlreadyFailed → ⊥) }
{
    let value = crate::reading::decode(alloc, input, PackedRules::AperStrict)?;
    Ok(value)
}

/// Decodes the value with whose strict encoding (X.691 11.1) the input begins, and returns the octets after it as well.
///
/// # Errors
///
/// Those of `decode`.
pub fn decode_with_remainder<'input, T: Decode>(
    alloc: Global,
    input: &'input [u8],
) -> Result<(T, &'input [u8]), DecodeError>
    ensures ok { IfOk result (λ x. Tells aper_strict T.schema (T.meaning x.0) input.now x.1.now) }
    ensures only { IfErr result (NoMessage aper_strict T.schema input.now) }
    ensures fresh { IfErr result (λ e. e ≡ DecodeError.AlreadyFailed → ⊥) }
{
    let (value, rest) = crate::reading::decode_with_remainder(
        alloc,
        input,
        PackedRules::AperStrict,
    )?;
    Ok((value, rest))
}

/// As `decode_with_remainder`; an error also says how many more octets are needed at least. With fewer octets appended,
/// the input does not begin with a strict encoding either, unless the error was `OutOfMemory`.
///
/// # Errors
///
/// Those of `decode`.
pub fn decode_or_need<'input, T: Decode>(
    alloc: Global,
    input: &'input [u8],
) -> Result<(T, &'input [u8]), Refusal>
    ensures ok { IfOk result (λ x. Tells aper_strict T.schema (T.meaning x.0) input.now x.1.now) }
    ensures only { IfErr result (λ r. NoMessage aper_strict T.schema input.now r.error) }
    ensures needed { IfErr result (λ r. NeedsMore aper_strict T.schema input.now r.needed r.error) }
    ensures fresh { IfErr result (λ r. r.error ≡ DecodeError.AlreadyFailed → ⊥) }
    ensures some { IfErr result (λ r. 1 ≤ r.needed) }
{
    crate::reading::decode_or_need(alloc, input, PackedRules::AperStrict)
}

/// Decodes the value with whose encoding (X.691 11.1) under these constraints, which replace those of the type, the
/// input begins.
///
/// # Errors
///
/// Those of `decode`, if the type under these constraints is well-formed.
pub fn decode_with_constraints<T: Decode>(
    alloc: Global,
    constraints: &Constraints,
    input: &[u8],
) -> Result<T, DecodeError>
    ensures ok { IfOk result
        (λ x. (rest : List ℕ) × Tells aper_strict (T.under (meant constraints.now)) (T.meaning x) input.now rest) }
    ensures only { IfErr result
        (λ error. IsLawful (T.under (meant constraints.now) 128)
        → NoMessage aper_strict (T.under (meant constraints.now)) input.now error) }
    ensures fresh { IfErr result (λ e. e ≡ DecodeError.AlreadyFailed → ⊥) }
{
    let value = crate::reading::decode_with_constraints(
        alloc,
        constraints,
        input,
        PackedRules::AperStrict,
    )?;
    Ok(value)
}
