//! String types with a permitted alphabet, and how such a string is made from a `str`.
ghost use Rattle.std.specs.Prelude.{◌≡◌, ◌<◌, ℕ, List, [], ◌∷◌, ◌++◌, length, slice_index, IsTrue, IfOk, IfErr, OnOk};
ghost use Rattle.std.specs.Prelude.{IfSome, OnErr};
ghost use Rattle.std.specs.Str.{chars};
ghost use Rattle.asn1_model.specs.Schema.{StringKind};
ghost use Rattle.asn1_model.specs.Strings.{may_hold};
ghost use Rattle.asn1_values_alphabets.specs.Permitted.{first_refused, permits, permits_all, IsRefusalOf};
ghost use Rattle.asn1_values_alphabets.specs.declared.error.InvalidRestrictedString.{InvalidRestrictedString as Reason};

use crate::error::{InvalidRestrictedString, PermittedAlphabetError};
use std::alloc::{AllocError, Global};

/// A character string type with a permitted alphabet (X.680 41).
pub trait StaticPermittedAlphabet: Drop {
    ghost kind: { StringKind };

    ghost refused: { ℕ → Reason };

    ghost characters: { Self → List ℕ };

    /// The empty string. Allocates nothing.
    fn empty(alloc: Global) -> Self
        ensures { characters result ≡ [] };

    /// The empty string, with room for `count` characters.
    fn with_capacity(alloc: Global, count: usize) -> Result<Self, AllocError>
        ensures { IfOk result (λ s. characters s ≡ []) };

    /// Whether a string of this type may hold the character.
    fn contains_char(character: u32) -> bool
        ensures { result ≡ permits kind character };

    /// The error for a character that a string of this type may not hold.
    fn refuse(character: u32) -> InvalidRestrictedString
        ensures { result ≡ refused character };

    /// Appends a character. After an error the string is unchanged.
    fn push_char(&mut self, character: u32) -> Result<(), PermittedAlphabetError>
        ensures pushed { OnOk result (characters self.new ≡ characters self.old ++ character ∷ []) }
        ensures permitted { OnOk result (IsTrue (permits kind character)) }
        ensures refused { IfErr result (IsRefusalOf kind refused (character ∷ [])) }
        ensures unchanged { OnErr result (self.new ≡ self.old) };

    /// The number of characters.
    fn char_count(&self) -> usize
        ensures count { result ≡ length (characters self.now) }
        ensures permitted { IsTrue (permits_all kind (characters self.now)) };

    /// The character at index `place`, counted from 0.
    fn char_at(&self, place: usize) -> u32
        requires { place < length (characters self.now) }
        ensures { result ≡ slice_index (characters self.now) place };

    /// The characters as octets, if the type stores each character in one octet.
    fn char_octets(&self) -> Option<&[u8]>
        ensures { IfSome result (λ octets. octets.now ≡ characters self.now) };

    /// The string whose characters are these octets. A type that stores each character in one octet copies them at
    /// once. Allocates once, and not at all if a character is not permitted.
    fn from_octets(alloc: Global, octets: &[u8]) -> Result<Self, PermittedAlphabetError>
        ensures characters { IfOk result (λ s. characters s ≡ octets.now) }
        ensures permitted { OnOk result (IsTrue (permits_all kind octets.now)) }
        ensures refused { IfErr result (IsRefusalOf kind refused octets.now) };

    /// The string whose characters are these octets. A type that stores each character in one octet does not copy
    /// them; another type allocates from the vector's allocator.
    fn from_octet_vec(octets: Vec<u8>) -> Result<Self, PermittedAlphabetError>
        ensures characters { IfOk result (λ s. characters s ≡ octets.items) }
        ensures permitted { OnOk result (IsTrue (permits_all kind octets.items)) }
        ensures refused { IfErr result (IsRefusalOf kind refused octets.items) };

    // a string may hold exactly the characters that its kind permits
    ghost holds: { (cs : List ℕ) → may_hold kind cs ≡ permits_all kind cs };
}

/// The string of a text's characters. Allocates once, and not at all if a character is not permitted.
///
/// # Errors
///
/// The error for the first character that the type does not permit, or `Memory` if memory runs out.
pub fn string_of_text<S: StaticPermittedAlphabet>(
    alloc: Global,
    text: &str,
) -> Result<S, PermittedAlphabetError>
    ensures characters { IfOk result (λ s. S.characters s ≡ chars text.now) }
    ensures permitted { OnOk result (IsTrue (permits_all S.kind (chars text.now))) }
    ensures refused { IfErr result (IsRefusalOf S.kind S.refused (chars text.now)) }
{
    ensure_permitted_text::<S>(text)?;
    let mut string = S::with_capacity(alloc, text.chars().count()).map_err(
        PermittedAlphabetError::Memory,
    )?;
    for character in text.chars() {
        string.push_char(u32::from(character))?;
    }
    Ok(string)
}

/// The error for the first character of a text that a string of the type may not hold, if there is one.
fn ensure_permitted_text<S: StaticPermittedAlphabet>(
    text: &str,
) -> Result<(), PermittedAlphabetError>
    ensures permitted { OnOk result (IsTrue (permits_all S.kind (chars text.now))) }
    ensures refused { IfErr result (IsRefusalOf S.kind S.refused (chars text.now)) }
{
    match first_outside::<S>(text) {
        Some(character) => Err(PermittedAlphabetError::InvalidRestrictedString(S::refuse(
            character,
        ))),
        None => Ok(()),
    }
}

/// The first character of a text that a string of the type may not hold.
fn first_outside<S: StaticPermittedAlphabet>(text: &str) -> Option<u32>
    ensures { result ≡ first_refused S.kind (chars text.now) }
{
    text.chars()
        .map(|character| u32::from(character))
        .find(|character| !S::contains_char(*character))
}
