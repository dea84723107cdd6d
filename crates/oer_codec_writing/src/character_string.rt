//! Character strings (X.696 27).
ghost use Rattle.std.specs.Prelude.{◌≡◌, ◌++◌, IsTrue, MatchResult, flat_map, OnErr};
ghost use Rattle.asn1_model.specs.Form.{written};
ghost use Rattle.asn1_model.specs.Numbers.{digits};
ghost use Rattle.asn1_model.specs.Oer.{form, octets_form};
ghost use Rattle.asn1_model.specs.Schema.{character_string, utf8};
ghost use Rattle.asn1_model.specs.Strings.{is_octet};
ghost use Rattle.std.specs.List.{list_all};
ghost use Rattle.asn1_model.specs.Schema.{any_count};
ghost use Rattle.asn1_model.specs.Value.{text};
ghost use Rattle.asn1_model.specs.Versions.{Begins};
ghost use Rattle.asn1_schema_constraints.specs.Terms.{sizes_of, alphabet_of};
ghost use Rattle.oer_codec_writing.specs.Writing.{Adds, Refuses};

use crate::length::push_length;
use crate::octet_string::push_sized;
use asn1_schema_constraints::{Bounded, Constraints};
use asn1_schema_errors::EncodeError;
use asn1_values_alphabets::StaticPermittedAlphabet;

/// Adds a UTF8String (X.696 27).
///
/// # Errors
///
/// `OutOfMemory`; any other only if the value has no encoding.
pub fn push_utf8(
    octets: &mut Vec<u8>,
    constraints: &Constraints,
    value: &str,
) -> Result<(), EncodeError>
    ensures text { MatchResult result (λ _. Adds
        (written (form (character_string utf8 (sizes_of constraints.now.size)
        (alphabet_of constraints.now.permitted_alphabet) any_count) (text value.now)) 0) octets.old.items
        octets.new.items) (Refuses (written
        (form (character_string utf8 (sizes_of constraints.now.size)
        (alphabet_of constraints.now.permitted_alphabet) any_count) (text value.now)) 0)) }
    ensures kept { OnErr result (Begins octets.old.items octets.new.items) }
{
    let sizes = constraints.sizes();
    if !sizes.admits(Bounded::None, value.len()) {
        return Err(EncodeError::SizeConstraintNotSatisfied);
    }
    push_sized(octets, sizes.is_fixed(), value.as_bytes())?;
    Ok(())
}

/// Adds the characters, one octet each: in one copy if the string stores them so.
#[inline(always)]
fn push_narrow<S: StaticPermittedAlphabet>(
    octets: &mut Vec<u8>,
    value: &S,
) -> Result<(), EncodeError>
    requires { IsTrue (list_all is_octet (S.characters value.now)) }
    ensures text { MatchResult result (λ _. octets.new.items ≡ octets.old.items ++ S.characters value.now)
        (λ e. e ≡ EncodeError.OutOfMemory) }
    ensures kept { OnErr result (Begins octets.old.items octets.new.items) }
{
    if let Some(characters) = value.char_octets() {
        octets.extend_from_slice(characters)?;
        return Ok(());
    }
    let count = value.char_count();
    for place in 0..count {
        octets.push(value.char_at(place) as u8)?;
    }
    Ok(())
}

/// Adds the characters, two octets each, most significant first.
fn push_wide<S: StaticPermittedAlphabet>(octets: &mut Vec<u8>, value: &S) -> Result<(), EncodeError>
    ensures text { MatchResult result (λ _. octets.new.items ≡ octets.old.items
        ++ flat_map (digits 256 2) (S.characters value.now)) (λ e. e ≡ EncodeError.OutOfMemory) }
    ensures kept { OnErr result (Begins octets.old.items octets.new.items) }
{
    let count = value.char_count();
    for place in 0..count {
        let character = value.char_at(place);
        octets.push((character >> 8 & 0xFF) as u8)?;
        octets.push((character & 0xFF) as u8)?;
    }
    Ok(())
}

/// Adds a string of one octet per character, after a length determinant unless the size is fixed.
#[inline(always)]
fn push_narrow_string<S: StaticPermittedAlphabet>(
    octets: &mut Vec<u8>,
    fixed: bool,
    value: &S,
) -> Result<(), EncodeError>
    requires { IsTrue (list_all is_octet (S.characters value.now)) }
    ensures text { MatchResult result
        (λ _. Adds (written (octets_form fixed (S.characters value.now)) 0) octets.old.items octets.new.items)
        (λ e. e ≡ EncodeError.OutOfMemory) }
    ensures kept { OnErr result (Begins octets.old.items octets.new.items) }
{
    if fixed {
        push_narrow(octets, value)?;
        return Ok(());
    }
    push_length(octets, value.char_count())?;
    push_narrow(octets, value)?;
    Ok(())
}

/// Adds a string of two octets per character, after a length determinant unless the size is fixed.
fn push_wide_string<S: StaticPermittedAlphabet>(
    octets: &mut Vec<u8>,
    fixed: bool,
    value: &S,
) -> Result<(), EncodeError>
    ensures text { MatchResult result (λ _. Adds
        (written (octets_form fixed (flat_map (digits 256 2) (S.characters value.now))) 0) octets.old.items
        octets.new.items) (λ e. e ≡ EncodeError.OutOfMemory) }
    ensures kept { OnErr result (Begins octets.old.items octets.new.items) }
{
    if fixed {
        push_wide(octets, value)?;
        return Ok(());
    }
    let Some(length) = value.char_count().checked_mul(2) else {
        return Err(EncodeError::OutOfMemory);
    };
    push_length(octets, length)?;
    push_wide(octets, value)?;
    Ok(())
}

/// Adds a restricted character string other than UTF8String (X.696 27).
///
/// # Errors
///
/// `OutOfMemory`; any other only if the value has no encoding.
#[inline(always)]
pub fn push_characters<S: StaticPermittedAlphabet>(
    octets: &mut Vec<u8>,
    constraints: &Constraints,
    value: &S,
) -> Result<(), EncodeError>
    ensures text { MatchResult result (λ _. Adds
        (written (form (character_string S.kind (sizes_of constraints.now.size)
        (alphabet_of constraints.now.permitted_alphabet) any_count) (text (S.characters value.now))) 0)
        octets.old.items octets.new.items)
        (Refuses (written (form (character_string S.kind (sizes_of constraints.now.size)
        (alphabet_of constraints.now.permitted_alphabet) any_count) (text (S.characters value.now))) 0)) }
    ensures kept { OnErr result (Begins octets.old.items octets.new.items) }
{
    let sizes = constraints.sizes();
    if !sizes.admits(Bounded::None, value.char_count()) {
        return Err(EncodeError::SizeConstraintNotSatisfied);
    }
    let fixed = sizes.is_fixed();
    if S::contains_char(0x100) {
        push_wide_string(octets, fixed, value)?;
        return Ok(());
    }
    push_narrow_string(octets, fixed, value)?;
    Ok(())
}
