//! Restricted character strings other than UTF8String (X.696 27).
ghost use Rattle.std.specs.Prelude.{◌≡◌, ◌<◌, ◌/◌, ◌⊎◌, true, false, length, slice_index, IfOk, IfErr, OnOk};
ghost use Rattle.asn1_model.specs.Schema as Asn1;
ghost use Rattle.asn1_model.specs.Schema.{any_count};
ghost use Rattle.asn1_model.specs.Value as Asn1Value;
ghost use Rattle.asn1_schema_constraints.specs.Terms.{sizes_of, alphabet_of};
ghost use Rattle.asn1_values_alphabets.specs.Permitted.{permits_all};
ghost use Rattle.oer_codec_reading.specs.Fronts.{freedoms, FrontOf, Misses, NoFront, Stands};
ghost use Rattle.oer_codec_reading.specs.Sized.{sized};
ghost use Rattle.oer_codec_reading.specs.Characters as Characters;

use crate::octet_string::read_sized;
use crate::{Cursor, EncodingRules};
use asn1_schema_constraints::{Bounded, Constraints};
use asn1_schema_errors::DecodeError;
use asn1_values_alphabets::StaticPermittedAlphabet;
use std::alloc::Global;

/// The number of octets of a character: two if the type has characters above 0xFF, else one.
#[inline(always)]
fn octets_each(wide: bool) -> usize
    ensures { result ≡ Characters.width wide }
{
    if wide { 2 } else { 1 }
}

/// Reads the octets of `size` characters, or of a string after its length determinant if the size is not fixed, and
/// returns them borrowed.
#[inline(always)]
fn read_spelled<'input>(
    cursor: &mut Cursor<'input>,
    rules: EncodingRules,
    size: Option<usize>,
    wide: bool,
) -> Result<&'input [u8], DecodeError>
    ensures ok { IfOk result (λ octets. Stands (freedoms rules) (sized (Characters.octet_size wide size) octets.now)
        cursor.old cursor.new) }
    ensures only { IfErr result (Misses (freedoms rules) (sized (Characters.octet_size wide size)) cursor.old) }
{
    match size {
        Some(count) => {
            if count > cursor.len() {
                return Err(DecodeError::Incomplete);
            }
            let octets = read_sized(cursor, rules, Some(count * octets_each(wide)))?;
            Ok(octets)
        }
        None => {
            let octets = read_sized(cursor, rules, None)?;
            Ok(octets)
        }
    }
}

/// The character at an index in the octets, from 0.
#[inline(always)]
fn character_at(octets: &[u8], wide: bool, place: usize) -> u32
    requires { place < length octets.now / Characters.width wide }
    ensures { result ≡ slice_index (Characters.characters_in wide octets.now) place }
{
    if wide {
        u32::from(octets[place * 2]) * 256 + u32::from(octets[place * 2 + 1])
    } else {
        u32::from(octets[place])
    }
}

/// The string of the characters in the octets.
#[inline(always)]
fn string_of<S: StaticPermittedAlphabet>(
    alloc: Global,
    octets: &[u8],
    wide: bool,
) -> Result<S, DecodeError>
    ensures characters { IfOk result (λ s. S.characters s ≡ Characters.characters_in wide octets.now) }
    ensures permitted { OnOk result (permits_all S.kind (Characters.characters_in wide octets.now) ≡ true) }
    ensures refused { IfErr result (λ e. (e ≡ DecodeError.OutOfMemory)
        ⊎ (permits_all S.kind (Characters.characters_in wide octets.now) ≡ false)) }
    ensures fresh { IfErr result (λ e. e ≡ DecodeError.AlreadyFailed → ⊥) }
{
    let count = octets.len() / octets_each(wide);
    let Ok(mut string) = S::with_capacity(alloc, count) else {
        return Err(DecodeError::OutOfMemory);
    };
    for place in 0..count {
        let character = character_at(octets, wide, place);
        if !S::contains_char(character) {
            return Err(DecodeError::PermittedAlphabet);
        }
        let Ok(()) = string.push_char(character) else {
            return Err(DecodeError::OutOfMemory);
        };
    }
    Ok(string)
}

/// Reads a restricted character string other than UTF8String (X.696 27) under a size constraint, which counts its
/// characters: each has two octets in a BMPString, else one.
///
/// # Errors
///
/// `StringConversionFailed` if a BMPString has an odd number of octets, `SizeConstraintNotSatisfied` if the
/// constraint does not admit the number of characters, `PermittedAlphabet` if the type does not have one of them,
/// `Incomplete` if the octets end early, the errors of a length determinant, and `OutOfMemory`.
#[inline(always)]
pub fn read_characters<S: StaticPermittedAlphabet>(
    alloc: Global,
    cursor: &mut Cursor<'_>,
    rules: EncodingRules,
    constraints: &Constraints,
) -> Result<S, DecodeError>
    ensures ok { IfOk result (λ x. FrontOf (freedoms rules)
        (Asn1.character_string S.kind (sizes_of constraints.now.size)
        (alphabet_of constraints.now.permitted_alphabet) any_count) (Asn1Value.text (S.characters x)) cursor.old
        cursor.new) }
    ensures only { IfErr result (NoFront (freedoms rules)
        (Asn1.character_string S.kind (sizes_of constraints.now.size)
        (alphabet_of constraints.now.permitted_alphabet) any_count) cursor.old) }
{
    let wide = S::contains_char(0x100);
    let sizes = constraints.sizes();
    let octets = read_spelled(cursor, rules, sizes.fixed(), wide)?;
    let width = octets_each(wide);
    if octets.len() % width != 0 {
        return Err(DecodeError::StringConversionFailed);
    }
    if !sizes.admits(Bounded::None, octets.len() / width) {
        return Err(DecodeError::SizeConstraintNotSatisfied);
    }
    let string = string_of(alloc, octets, wide)?;
    Ok(string)
}
