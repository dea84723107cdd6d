//! Characters from their codes.
ghost use Rattle.std.specs.Prelude.{◌≡◌, ◌*◌, ◌^◌, ◌<◌, ◌≤◌, ◌⊎◌, ℕ, ltb, true, false, Some, length};
ghost use Rattle.std.specs.Prelude.{IfSome, IfOk, IfErr};
ghost use Rattle.asn1_model.specs.Numbers.{octet_bits};
ghost use Rattle.asn1_model.specs.Strings.{largest};
ghost use Rattle.asn1_values_alphabets.specs.Permitted.{permits};
ghost use Rattle.asn1_values_bits.specs.BitStr.{bits_of};
ghost use Rattle.per_codec_alphabets.specs.Codes.{code_of, code_in};
ghost use Rattle.per_codec_reading.specs.Fronts.{IsFresh};
ghost use Rattle.per_codec_reading_values.specs.CharacterCodes.{Spells, Stuck, IsFitting};

use asn1_schema_errors::DecodeError;
use asn1_values_alphabets::StaticPermittedAlphabet;
use asn1_values_bits::BitStr;
use per_codec_alphabets::{CodedRun, EffectiveAlphabet};
use per_codec_reading::unread::UnreadCodes;
use std::alloc::Global;

/// The permitted character with this code, if there is one.
#[inline(always)]
fn permitted_character<S: StaticPermittedAlphabet>(
    alphabet: &EffectiveAlphabet,
    code: u32,
) -> Option<u32>
    ensures found { IfSome result (λ character. code_of alphabet.now character ≡ Some code) }
    ensures permitted { IfSome result (λ character. permits S.kind character ≡ true) }
    ensures alone { (character : ℕ) → code_of alphabet.now character ≡ Some code → permits S.kind character ≡ true
        → result ≡ Some character }
{
    let character = alphabet.character(code)?;
    if S::contains_char(character) {
        Some(character)
    } else {
        None
    }
}

/// The permitted character in a run with this code, if there is one.
#[inline(always)]
fn character_in_run<S: StaticPermittedAlphabet>(run: CodedRun, code: u32) -> Option<u32>
    requires { run.base ≤ run.first }
    ensures found { IfSome result (λ character. code_in run character ≡ Some code) }
    ensures within { IfSome result (λ character. character ≤ run.last) }
    ensures permitted { IfSome result (λ character. permits S.kind character ≡ true) }
    ensures alone { (character : ℕ) → code_in run character ≡ Some code → permits S.kind character ≡ true
        → result ≡ Some character }
{
    let character = run.character(code)?;
    if S::contains_char(character) {
        Some(character)
    } else {
        None
    }
}

/// Whether each octet is the code of a permitted character in a run, if codes are the characters' numbers.
#[inline(always)]
fn are_in_run<S: StaticPermittedAlphabet>(
    _alphabet: &EffectiveAlphabet,
    run: CodedRun,
    octets: &[u8],
) -> bool
    requires octet { _alphabet.now.code_bits ≡ 8 }
    requires by_number { ltb (largest _alphabet.now.runs) (2 ^ _alphabet.now.code_bits) ≡ true }
    requires codes { (c : ℕ) → code_of _alphabet.now c ≡ code_in run c }
    requires base { run.base ≤ run.first }
    ensures spelled { result ≡ true → Spells S.kind _alphabet.now octets.now (octet_bits octets.now) }
    ensures stuck { result ≡ false → IsFitting _alphabet.now
        → Stuck S.kind _alphabet.now (length octets.now) (octet_bits octets.now) }
{
    for octet in octets {
        let Some(_character) = character_in_run::<S>(run, u32::from(*octet)) else {
            return false;
        };
    }
    true
}

/// Whether each octet is the code of a permitted character, if codes are the characters' numbers.
#[inline(always)]
fn are_characters<S: StaticPermittedAlphabet>(alphabet: &EffectiveAlphabet, octets: &[u8]) -> bool
    requires octet { alphabet.now.code_bits ≡ 8 }
    requires by_number { ltb (largest alphabet.now.runs) (2 ^ alphabet.now.code_bits) ≡ true }
    ensures spelled { result ≡ true → Spells S.kind alphabet.now octets.now (octet_bits octets.now) }
    ensures stuck { result ≡ false → IsFitting alphabet.now
        → Stuck S.kind alphabet.now (length octets.now) (octet_bits octets.now) }
{
    if let Some(run) = alphabet.single_run() {
        return are_in_run::<S>(alphabet, run, octets);
    }
    for octet in octets {
        let Some(_character) = permitted_character::<S>(alphabet, u32::from(*octet)) else {
            return false;
        };
    }
    true
}

/// The string of the characters with these octets as codes, which are their numbers.
#[inline(always)]
fn string_of_octet_codes<S: StaticPermittedAlphabet>(
    alloc: Global,
    alphabet: &EffectiveAlphabet,
    octets: &[u8],
) -> Result<S, DecodeError>
    requires octet { alphabet.now.code_bits ≡ 8 }
    requires by_number { ltb (largest alphabet.now.runs) (2 ^ alphabet.now.code_bits) ≡ true }
    ensures count { IfOk result (λ s. length (S.characters s) ≡ length octets.now) }
    ensures codes { IfOk result (λ s. Spells S.kind alphabet.now (S.characters s) (octet_bits octets.now)) }
    ensures refused { IfErr result (λ e. (e ≡ DecodeError.OutOfMemory)
        ⊎ (IsFitting alphabet.now → Stuck S.kind alphabet.now (length octets.now) (octet_bits octets.now))) }
    ensures fresh { IfErr result IsFresh }
{
    if !are_characters::<S>(alphabet, octets) {
        return Err(DecodeError::PermittedAlphabet);
    }
    let Ok(string) = S::from_octets(alloc, octets) else {
        return Err(DecodeError::OutOfMemory);
    };
    Ok(string)
}

/// The string of `count` characters in a run, all below 256, whose codes are in sequence from any bit on.
#[inline(always)]
fn string_in_run<S: StaticPermittedAlphabet>(
    alloc: Global,
    alphabet: &EffectiveAlphabet,
    run: CodedRun,
    codes: BitStr<'_>,
    count: usize,
) -> Result<S, DecodeError>
    requires narrow { alphabet.now.code_bits ≤ 8 }
    requires octets { run.last < 256 }
    requires whole { length (bits_of codes) ≡ count * alphabet.now.code_bits }
    requires codes { (c : ℕ) → code_of alphabet.now c ≡ code_in run c }
    requires base { run.base ≤ run.first }
    ensures count { IfOk result (λ s. length (S.characters s) ≡ count) }
    ensures codes { IfOk result (λ s. Spells S.kind alphabet.now (S.characters s) (bits_of codes.entry)) }
    ensures refused { IfErr result (λ e. (e ≡ DecodeError.OutOfMemory)
        ⊎ (IsFitting alphabet.now → Stuck S.kind alphabet.now count (bits_of codes.entry))) }
    ensures fresh { IfErr result IsFresh }
{
    let width = alphabet.width();
    let Ok(mut octets) = Vec::with_capacity(alloc, count) else {
        return Err(DecodeError::OutOfMemory);
    };
    let mut unread = UnreadCodes::new(codes);
    for place in 0..count {
        let (code, others) = unread.next_code(width, count - place);
        let Some(character) = character_in_run::<S>(run, code) else {
            return Err(DecodeError::PermittedAlphabet);
        };
        let Ok(()) = octets.push(character as u8) else {
            return Err(DecodeError::OutOfMemory);
        };
        unread = others;
    }
    let Ok(string) = S::from_octet_vec(octets) else {
        return Err(DecodeError::OutOfMemory);
    };
    Ok(string)
}

/// The string of `count` characters, whose codes are in sequence from any bit on.
#[inline(always)]
fn string_of_bits<S: StaticPermittedAlphabet>(
    alloc: Global,
    alphabet: &EffectiveAlphabet,
    codes: BitStr<'_>,
    count: usize,
) -> Result<S, DecodeError>
    requires narrow { alphabet.now.code_bits ≤ 32 }
    requires whole { length (bits_of codes) ≡ count * alphabet.now.code_bits }
    ensures count { IfOk result (λ s. length (S.characters s) ≡ count) }
    ensures codes { IfOk result (λ s. Spells S.kind alphabet.now (S.characters s) (bits_of codes.entry)) }
    ensures refused { IfErr result (λ e. (e ≡ DecodeError.OutOfMemory)
        ⊎ (IsFitting alphabet.now → Stuck S.kind alphabet.now count (bits_of codes.entry))) }
    ensures fresh { IfErr result IsFresh }
{
    let width = alphabet.width();
    let Ok(mut string) = S::with_capacity(alloc, count) else {
        return Err(DecodeError::OutOfMemory);
    };
    let mut rest = codes;
    for place in 0..count {
        let code = rest.first_number(width) as u32;
        let Some(character) = permitted_character::<S>(alphabet, code) else {
            return Err(DecodeError::PermittedAlphabet);
        };
        let Ok(()) = string.push_char(character) else {
            return Err(DecodeError::OutOfMemory);
        };
        rest = rest.split_at(width as usize).1;
    }
    Ok(string)
}

/// The string of `count` characters, whose codes are in sequence. Octets that are the characters' numbers, as mostly
/// in the aligned variant, are copied in one run.
///
/// # Errors
///
/// `PermittedAlphabet` if one of the codes has no character, and `OutOfMemory`.
#[inline(always)]
pub fn string_of<S: StaticPermittedAlphabet>(
    alloc: Global,
    alphabet: &EffectiveAlphabet,
    codes: BitStr<'_>,
    count: usize,
) -> Result<S, DecodeError>
    requires narrow { alphabet.now.code_bits ≤ 32 }
    requires whole { length (bits_of codes) ≡ count * alphabet.now.code_bits }
    ensures count { IfOk result (λ s. length (S.characters s) ≡ count) }
    ensures codes { IfOk result (λ s. Spells S.kind alphabet.now (S.characters s) (bits_of codes.entry)) }
    ensures refused { IfErr result (λ e. (e ≡ DecodeError.OutOfMemory)
        ⊎ (IsFitting alphabet.now → Stuck S.kind alphabet.now count (bits_of codes.entry))) }
    ensures fresh { IfErr result IsFresh }
{
    if alphabet.width() == 8 && alphabet.is_by_number() {
        if let Some(octets) = codes.aligned_octets() {
            return string_of_octet_codes(alloc, alphabet, octets);
        }
    }
    if let Some(run) = alphabet.single_run() {
        if run.last < 256 && alphabet.width() <= 8 {
            return string_in_run(alloc, alphabet, run, codes, count);
        }
    }
    string_of_bits(alloc, alphabet, codes, count)
}
