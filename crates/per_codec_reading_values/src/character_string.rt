//! Character strings (X.691 30).
ghost use Rattle.std.specs.Prelude.{◌≡◌, ◌*◌, ◌≤◌, ◌⊎◌, true, false, length, IfOk, OnOk, IfErr};
ghost use Rattle.asn1_model.specs.Strings.{is_of_octets as holds_octets};
ghost use Rattle.asn1_values_alphabets.specs.Permitted.{permits_all};
ghost use Rattle.per_codec_alphabets.specs.Octets.{is_encoded_as_octets as as_octets};
ghost use Rattle.per_codec_reading.specs.Fronts.{is_aligned};
ghost use Rattle.per_codec_reading_values.specs.CharacterCodes.{Spells, IsRefused};
ghost use Rattle.per_codec_reading_values.specs.CharacterStrings.{Stands, MissesString};
ghost use Rattle.per_codec_reading.specs.Fronts.{IsFresh};
ghost use Rattle.per_codec_reading.specs.Runs.{bits_in};

use crate::codes::string_of;
use asn1_schema_constraints::{Bounded, Constraints};
use asn1_schema_errors::DecodeError;
use asn1_values_alphabets::{PermittedAlphabetError, StaticPermittedAlphabet};
use per_codec_alphabets::{EffectiveAlphabet, is_encoded_as_octets, is_of_octets};
use per_codec_reading::{
    Contents, Cursor, PackedRules, Run, RunBits, read_counted_octets, read_sized,
};
use std::alloc::Global;

/// The string of these octets, each of which is a character.
fn string_of_octets<S: StaticPermittedAlphabet>(
    alloc: Global,
    octets: &[u8],
) -> Result<S, DecodeError>
    ensures characters { IfOk result (λ s. S.characters s ≡ octets.now) }
    ensures refused { IfErr result (λ e. e ≡ DecodeError.OutOfMemory) }
{
    let Ok(string) = S::from_octets(alloc, octets) else {
        return Err(DecodeError::OutOfMemory);
    };
    Ok(string)
}

/// Reads the octets of a string whose characters have no fixed width, after a length determinant (X.691 30).
fn read_octets<S: StaticPermittedAlphabet>(
    alloc: Global,
    cursor: &mut Cursor<'_>,
    rules: PackedRules,
    _constraints: &Constraints,
) -> Result<S, DecodeError>
    requires kind { holds_octets S.kind ≡ true }
    ensures ok { IfOk result (λ s. Stands rules S.kind _constraints.now (S.characters s) cursor.old cursor.new) }
    ensures only { IfErr result (MissesString rules S.kind _constraints.now cursor.old) }
{
    let octets = read_counted_octets(alloc, cursor, rules)?;
    match string_of_octets(alloc, octets.as_slice()) {
        Ok(string) => Ok(string),
        Err(_) => Err(DecodeError::OutOfMemory),
    }
}

/// The string of these octets, if each is a character of the string type.
fn string_of_characters<S: StaticPermittedAlphabet>(
    alloc: Global,
    octets: &[u8],
) -> Result<S, DecodeError>
    ensures characters { IfOk result (λ s. S.characters s ≡ octets.now) }
    ensures permitted { OnOk result (permits_all S.kind octets.now ≡ true) }
    ensures refused { IfErr result (λ e. (e ≡ DecodeError.OutOfMemory) ⊎ (permits_all S.kind octets.now ≡ false)) }
    ensures fresh { IfErr result IsFresh }
{
    match S::from_octets(alloc, octets) {
        Ok(string) => Ok(string),
        Err(PermittedAlphabetError::InvalidRestrictedString(_)) => {
            Err(DecodeError::PermittedAlphabet)
        }
        Err(_) => Err(DecodeError::OutOfMemory),
    }
}

/// Reads a string that is encoded as the octets of its characters, after a length determinant (X.691 30.5).
fn read_octet_codes<S: StaticPermittedAlphabet>(
    alloc: Global,
    cursor: &mut Cursor<'_>,
    rules: PackedRules,
    _constraints: &Constraints,
) -> Result<S, DecodeError>
    requires codes { as_octets (is_aligned rules) S.kind _constraints.now.size _constraints.now.permitted_alphabet
        ≡ true }
    ensures ok { IfOk result (λ s. Stands rules S.kind _constraints.now (S.characters s) cursor.old cursor.new) }
    ensures only { IfErr result (MissesString rules S.kind _constraints.now cursor.old) }
{
    let octets = read_counted_octets(alloc, cursor, rules)?;
    match string_of_characters(alloc, octets.as_slice()) {
        Ok(string) => Ok(string),
        Err(error) => Err(error),
    }
}

/// The string of the characters whose codes were read.
#[inline(always)]
fn string_of_run<S: StaticPermittedAlphabet>(
    alloc: Global,
    alphabet: &EffectiveAlphabet,
    run: &Run<'_>,
) -> Result<S, DecodeError>
    requires narrow { alphabet.now.code_bits ≤ 32 }
    requires whole { length (bits_in run.now.bits) ≡ run.now.count * alphabet.now.code_bits }
    ensures count { IfOk result (λ s. length (S.characters s) ≡ run.now.count) }
    ensures codes { IfOk result (λ s. Spells S.kind alphabet.now (S.characters s) (bits_in run.now.bits)) }
    ensures refused { IfErr result (IsRefused S.kind alphabet.now run.now.count (bits_in run.now.bits)) }
    ensures fresh { IfErr result IsFresh }
{
    let codes = match &run.bits {
        RunBits::Lent(bits) => *bits,
        RunBits::Joined(bits) => bits.as_bitslice(),
    };
    string_of(alloc, alphabet, codes, run.count)
}

/// Reads the characters of a string by their codes, after a length determinant (X.691 30.5).
#[inline(always)]
fn read_codes<S: StaticPermittedAlphabet>(
    alloc: Global,
    cursor: &mut Cursor<'_>,
    rules: PackedRules,
    constraints: &Constraints,
) -> Result<S, DecodeError>
    requires kind { holds_octets S.kind ≡ false }
    ensures ok { IfOk result (λ s. Stands rules S.kind constraints.now (S.characters s) cursor.old cursor.new) }
    ensures only { IfErr result (MissesString rules S.kind constraints.now cursor.old) }
    ensures fresh { IfErr result IsFresh }
{
    let alphabet = EffectiveAlphabet::new::<S>(
        alloc,
        rules.variant(),
        constraints.permitted_alphabet,
    )?;
    let run = read_sized(
        alloc,
        cursor,
        rules,
        constraints.sizes(),
        Bounded::None,
        alphabet.width(),
        Contents::Characters,
    )?;
    match string_of_run(alloc, &alphabet, &run) {
        Ok(string) => Ok(string),
        Err(error) => Err(error),
    }
}

/// Reads a restricted character string other than UTF8String (X.691 30), under a size constraint, which counts its
/// characters, and a permitted-alphabet constraint.
///
/// # Errors
///
/// `PermittedAlphabet` if a code has no permitted character, `SizeConstraintNotSatisfied` if the size does not admit
/// the number of characters, `Incomplete` if the bits end early, `NotValidCanonicalEncoding` if another form is
/// canonical, in strict rules, the errors of a constrained whole number and of a length determinant, and
/// `OutOfMemory`.
#[inline(always)]
pub fn read_characters<S: StaticPermittedAlphabet>(
    alloc: Global,
    cursor: &mut Cursor<'_>,
    rules: PackedRules,
    constraints: &Constraints,
) -> Result<S, DecodeError>
    ensures ok { IfOk result (λ s. Stands rules S.kind constraints.now (S.characters s) cursor.old cursor.new) }
    ensures only { IfErr result (MissesString rules S.kind constraints.now cursor.old) }
    ensures fresh { IfErr result IsFresh }
{
    if is_of_octets::<S>() {
        return read_octets(alloc, cursor, rules, constraints);
    }
    if is_encoded_as_octets::<S>(rules.variant(), constraints) {
        return read_octet_codes(alloc, cursor, rules, constraints);
    }
    read_codes(alloc, cursor, rules, constraints)
}
