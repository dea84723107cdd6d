//! The character string type with two octets per character.
ghost use Rattle.std.specs.Prelude.{◌≡◌, ◌+◌, ◌*◌, ◌%◌, ◌<◌, ◌≤◌, ◌^◌, ℕ, [], ◌∷◌, ◌++◌, flat_map, length, Some};
ghost use Rattle.std.specs.Prelude.{refl, nat_eq, ◌↔◌, IsTrue, IfOk, IfErr, OnOk, OnErr, MatchResult, string_bytes};
ghost use Rattle.std.specs.Ordering.{nat_cmp};
ghost use Rattle.std.specs.Hash as fed;
ghost use Rattle.std.specs.Cmp.Lexicographic.{pointwise, slice_cmp, nat_list_eq_equiv, nat_list_cmp_total};
ghost use Rattle.std.specs.Cmp.Lexicographic.{texts_ties, texts_po};
ghost use Rattle.std.specs.Cmp.{partial_equiv_from_equiv};
ghost use Rattle.std.specs.Cmp.Rules.{hashing};
ghost use Rattle.std.specs.Str.{chars};
ghost use Rattle.std.proofs.Common.{rules};
ghost use Rattle.asn1_model.specs.Numbers.{digits, octet_bits};
ghost use Rattle.asn1_model.specs.Schema.{bmp};
ghost use Rattle.asn1_values_alphabets.specs.Permitted.{permits, permits_all, IsRefusalOf};
ghost use Rattle.asn1_values_strings.specs.Pairs.{IsRefusalOfPairs, IsRefusalOfPairBits};
ghost use Rattle.asn1_values_alphabets.specs.declared.error.InvalidRestrictedString.TheVariants as outside;

use crate::wide_characters::BmpCharacters;
use asn1_values_alphabets::{
    InvalidBmpString, InvalidRestrictedString, PermittedAlphabetError, StaticPermittedAlphabet,
    string_of_text,
};
use asn1_values_bit_strings::BitString;
use asn1_values_octets::OctetString;
use std::alloc::{AllocError, Global};
use std::cmp::Ordering;
use std::convert::AsSlice;
use std::default::MadeWith;
use std::fmt;
use std::hash::{Hash, Hasher};
use std::marker::Model;
use std::ops::DerefSlice;

/// A BMPString, of characters from 0 to 65535 (X.680 41).
///
/// As octets, each character takes two, the most significant first.
#[derive(Drop)]
pub struct BmpString {
    characters: Vec<u16>,
}

impl Model for BmpString {
    ghost use Rattle.std.specs.Prelude.{List, ℕ};

    ghost Value = { List ℕ };

    ghost view = { λ s. s.characters.items };
}

impl BmpString {
    /// The empty string. Allocates nothing.
    pub fn new(alloc: Global) -> Self
        ensures { result ≡ [] }
    {
        BmpString {
            characters: Vec::new(alloc),
        }
    }

    /// The string of octets, two for each character.
    ///
    /// # Errors
    ///
    /// `InvalidData` if the number of octets is odd, and `Memory` if memory runs out.
    pub fn from_bytes(alloc: Global, bytes: &[u8]) -> Result<Self, PermittedAlphabetError>
        ensures characters { IfOk result (λ s. flat_map (digits 256 2) s ≡ bytes.now) }
        ensures even { OnOk result (length bytes.now % 2 ≡ 0) }
        ensures refused { IfErr result (IsRefusalOfPairs bytes.now) }
    {
        if bytes.len() % 2 != 0 {
            return Err(PermittedAlphabetError::InvalidData);
        }
        let count = bytes.len() / 2;
        let mut characters = Vec::with_capacity(alloc, count).map_err(
            PermittedAlphabetError::Memory,
        )?;
        for i in 0..count {
            let character = u16::from(bytes[2 * i]) * 256 + u16::from(bytes[2 * i + 1]);
            characters
                .push(character)
                .map_err(|_| PermittedAlphabetError::Memory(AllocError))?;
        }
        Ok(BmpString { characters })
    }

    /// The string of a text's characters.
    ///
    /// # Errors
    ///
    /// The error for the first character that the type does not permit, or `Memory` if memory runs out.
    pub fn from_text(alloc: Global, text: &str) -> Result<Self, PermittedAlphabetError>
        ensures characters { IfOk result (λ s. s ≡ chars text.now) }
        ensures permitted { OnOk result (IsTrue (permits_all bmp (chars text.now))) }
        ensures refused { IfErr result (IsRefusalOf bmp (λ c. outside.InvalidBmpString (record { character = c }))
            (chars text.now)) }
    {
        string_of_text(alloc, text)
    }

    /// The string of octets, two for each character.
    ///
    /// # Errors
    ///
    /// `InvalidData` if the number of octets is odd, and `Memory` if memory runs out.
    pub fn from_octet_string(
        alloc: Global,
        octets: OctetString,
    ) -> Result<Self, PermittedAlphabetError>
        ensures characters { IfOk result (λ s. flat_map (digits 256 2) s ≡ octets) }
        ensures even { OnOk result (length octets % 2 ≡ 0) }
        ensures refused { IfErr result (IsRefusalOfPairs octets) }
    {
        BmpString::from_bytes(alloc, octets.as_slice())
    }

    /// The characters.
    pub fn as_units(&self) -> &[u16]
        ensures characters { result.now ≡ self.now }
        ensures permitted { IsTrue (permits_all bmp self.now) }
    {
        let characters = self.characters.as_slice();
        characters
    }

    /// The characters as octets, two for each, the most significant first.
    ///
    /// # Errors
    ///
    /// Out of memory.
    pub fn to_bytes(&self, alloc: Global) -> Result<Vec<u8>, AllocError>
        ensures { IfOk result (λ v. v.items ≡ flat_map (digits 256 2) self.now) }
    {
        let characters = self.as_units();
        let mut octets = Vec::with_capacity(alloc, characters.len().saturating_mul(2))?;
        for character in characters {
            octets.push((*character / 256) as u8)?;
            octets.push((*character % 256) as u8)?;
        }
        Ok(octets)
    }

    /// The characters, not copied.
    pub fn into_vec(self) -> Vec<u16>
        ensures { result.items ≡ self }
    {
        self.characters
    }

    /// The number of characters.
    pub fn len(&self) -> usize
        ensures { result ≡ length self.now }
    {
        self.as_units().len()
    }

    /// Whether there are no characters.
    pub fn is_empty(&self) -> bool
        ensures { IsTrue result ↔ (self.now ≡ []) }
    {
        self.as_units().is_empty()
    }

    /// The characters, from the first to the last.
    pub fn chars(&self) -> BmpCharacters<'_>
        ensures { result ≡ self.now }
    {
        BmpCharacters {
            rest: self.as_units(),
        }
    }

    /// Appends a character. After an error the string is unchanged.
    ///
    /// # Errors
    ///
    /// The error for a character that the type does not permit, or `Memory` if memory runs out.
    pub fn push_char(&mut self, character: u32) -> Result<(), PermittedAlphabetError>
        ensures pushed { OnOk result (self.new ≡ self.old ++ character ∷ []) }
        ensures permitted { OnOk result (IsTrue (permits bmp character)) }
        ensures refused { IfErr result (IsRefusalOf bmp (λ c. outside.InvalidBmpString (record { character = c }))
            (character ∷ [])) }
        ensures unchanged { OnErr result (self.new ≡ self.old) }
    {
        if character > 0xFFFF {
            return Err(PermittedAlphabetError::InvalidRestrictedString(BmpString::refuse(
                character,
            )));
        }
        self.characters
            .push(character as u16)
            .map_err(|_| PermittedAlphabetError::Memory(AllocError))?;
        Ok(())
    }
}

/// Does not copy the characters.
impl From<Vec<u16>> for BmpString {
    ghost from_gives = { λ v s. s ≡ v.items };

    fn from(characters: Vec<u16>) -> BmpString {
        BmpString { characters }
    }
}

/// Two octets are one character. Allocates from the vector's allocator. An error if the number of octets is odd.
impl TryFrom<Vec<u8>> for BmpString {
    type Error = PermittedAlphabetError;

    ghost try_from_gives = { λ v r. MatchResult r (λ s. (flat_map (digits 256 2) s ≡ v.items)
        × (length v.items % 2 ≡ 0)) (IsRefusalOfPairs v.items) };

    fn try_from(octets: Vec<u8>) -> Result<Self, PermittedAlphabetError> {
        BmpString::from_bytes(*octets.allocator(), octets.as_slice())
    }
}

/// Sixteen bits are one character. Allocates from the allocator of the bits. An error if the bits are not whole
/// characters.
impl TryFrom<BitString> for BmpString {
    type Error = PermittedAlphabetError;

    ghost try_from_gives = { λ bits r. MatchResult r (λ s. octet_bits (flat_map (digits 256 2) s) ≡ bits)
        (IsRefusalOfPairBits bits) };

    fn try_from(bits: BitString) -> Result<Self, PermittedAlphabetError> {
        if bits.len() % 16 > 0 {
            return Err(PermittedAlphabetError::InvalidData);
        }
        let octets = bits.into_buffer().into_vec();
        BmpString::from_bytes(*octets.allocator(), octets.as_slice())
    }
}

/// Allocates from the allocator of the text.
impl TryFrom<String> for BmpString {
    type Error = PermittedAlphabetError;

    ghost try_from_gives = { λ text r. MatchResult r (λ s. (s ≡ chars (string_bytes text))
        × IsTrue (permits_all bmp (chars (string_bytes text))))
        (IsRefusalOf bmp (λ c. outside.InvalidBmpString (record { character = c })) (chars (string_bytes text))) };

    fn try_from(text: String) -> Result<Self, PermittedAlphabetError> {
        string_of_text(*text.allocator(), text.as_str())
    }
}

/// The empty string. Takes the place of `Default`, which has no allocator.
impl MadeWith<Global> for BmpString {
    ghost is_made_with = { λ s. s ≡ [] };

    fn made_with(alloc: Global) -> Self {
        BmpString::new(alloc)
    }
}

impl StaticPermittedAlphabet for BmpString {
    ghost kind = { bmp };

    ghost refused = { λ c. outside.InvalidBmpString (record { character = c }) };

    ghost characters = { λ s. s };

    ghost holds = { λ cs. refl };

    fn empty(alloc: Global) -> Self {
        BmpString::new(alloc)
    }

    fn with_capacity(alloc: Global, count: usize) -> Result<Self, AllocError> {
        Ok(BmpString {
            characters: Vec::with_capacity(alloc, count)?,
        })
    }

    fn contains_char(character: u32) -> bool {
        character <= 0xFFFF
    }

    fn refuse(character: u32) -> InvalidRestrictedString {
        InvalidRestrictedString::InvalidBmpString(InvalidBmpString { character })
    }

    fn push_char(&mut self, character: u32) -> Result<(), PermittedAlphabetError> {
        BmpString::push_char(self, character)
    }

    fn char_count(&self) -> usize {
        self.as_units().len()
    }

    fn char_at(&self, place: usize) -> u32 {
        u32::from(self.as_units()[place])
    }

    fn char_octets(&self) -> Option<&[u8]> {
        None
    }

    fn from_octets(alloc: Global, octets: &[u8]) -> Result<Self, PermittedAlphabetError> {
        let characters = units_of(alloc, octets).map_err(PermittedAlphabetError::Memory)?;
        Ok(BmpString { characters })
    }

    fn from_octet_vec(octets: Vec<u8>) -> Result<Self, PermittedAlphabetError> {
        BmpString::from_octets(*octets.allocator(), octets.as_slice())
    }
}

/// The characters of octets, two for each.
fn units_of(alloc: Global, octets: &[u8]) -> Result<Vec<u16>, AllocError>
    ensures characters { IfOk result (λ v. v.items ≡ octets.now) }
    ensures permitted { IsTrue (permits_all bmp octets.now) }
{
    let mut characters = Vec::with_capacity(alloc, octets.len())?;
    for octet in octets {
        characters.push(u16::from(*octet))?;
    }
    Ok(characters)
}

impl Clone for BmpString {
    ghost is_clone = { λ s copy. copy ≡ s };

    fn clone(&self) -> Result<Self, AllocError> {
        Ok(BmpString {
            characters: self.characters.clone()?,
        })
    }
}

impl DerefSlice for BmpString {
    type Elem = u16;

    ghost deref_gives = { λ s characters. characters ≡ s };

    fn deref(&self) -> &[u16] {
        self.as_units()
    }
}

impl AsSlice<u16> for BmpString {
    ghost items = { λ s. s };

    fn as_slice(&self) -> &[u16] {
        self.as_units()
    }
}

impl PartialEq for BmpString {
    ghost eq = { pointwise nat_eq };

    ghost laws = { partial_equiv_from_equiv nat_list_eq_equiv };

    fn eq(&self, other: &Self) -> bool {
        self.as_units() == other.as_units()
    }
}

impl Eq for BmpString {
    ghost laws = { nat_list_eq_equiv };
}

impl PartialOrd for BmpString {
    ghost partial_cmp = { λ x y. Some (slice_cmp nat_cmp x y) };

    ghost laws = { texts_po };

    fn partial_cmp(&self, other: &Self) -> Option<Ordering> {
        Some(self.cmp(other))
    }
}

impl Ord for BmpString {
    ghost cmp = { slice_cmp nat_cmp };

    ghost total = { nat_list_cmp_total };

    ghost matches_partial_cmp = { λ x y. refl };

    ghost matches_eq = { texts_ties };

    fn cmp(&self, other: &Self) -> Ordering {
        self.as_units().cmp(other.as_units())
    }
}

impl Hash for BmpString {
    ghost hash_input = { fed.slice fed.u16 };

    ghost respects_eq = { Prim.search (hashing, rules) };

    fn hash<H: Hasher>(&self, state: &mut H) {
        self.as_units().hash(state);
    }
}

impl fmt::Debug for BmpString {
    fn fmt<W: fmt::Write>(&self, f: &mut fmt::Formatter<W>) -> fmt::Result {
        f.debug_tuple("BMPString").field(&self.as_units()).finish()
    }
}
