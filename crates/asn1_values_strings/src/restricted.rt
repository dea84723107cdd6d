//! Strings of one kind, which hold only characters of its permitted alphabet.
ghost use Rattle.std.specs.Prelude.{◌≡◌, ◌<◌, ◌^◌, ℕ, [], ◌∷◌, ◌++◌, length, Some, refl, nat_eq, ◌↔◌, IsTrue, IfOk};
ghost use Rattle.std.specs.Prelude.{IfErr, OnOk, OnErr, MatchResult, string_bytes};
ghost use Rattle.std.specs.Ordering.{nat_cmp};
ghost use Rattle.std.specs.Hash as fed;
ghost use Rattle.std.specs.Cmp.Lexicographic.{pointwise, slice_cmp, nat_list_eq_equiv, nat_list_cmp_total};
ghost use Rattle.std.specs.Cmp.Lexicographic.{texts_ties, texts_po};
ghost use Rattle.std.specs.Cmp.{partial_equiv_from_equiv};
ghost use Rattle.std.specs.Cmp.Rules.{hashing};
ghost use Rattle.std.specs.Str.{chars};
ghost use Rattle.std.proofs.Common.{rules};
ghost use Rattle.asn1_model.specs.Numbers.{octet_bits};
ghost use Rattle.asn1_values_alphabets.specs.Permitted.{first_refused, permits, permits_all, IsOutside, IsRefusalOf};
ghost use Rattle.asn1_values_strings.specs.Bits.{IsRefusalOfBits};

use crate::characters::Characters;
use crate::kinds::CharacterKind;
use asn1_values_alphabets::{
    InvalidRestrictedString, PermittedAlphabetError, StaticPermittedAlphabet, string_of_text,
};
use asn1_values_bit_strings::BitString;
use asn1_values_octets::OctetString;
use std::alloc::{AllocError, Global};
use std::cmp::Ordering;
use std::convert::AsSlice;
use std::default::MadeWith;
use std::fmt;
use std::hash::{Hash, Hasher};
use std::marker::{Model, PhantomData};
use std::ops::DerefSlice;

/// A character string of one kind, with one octet per character (X.680 41).
///
/// It holds only characters of its kind's permitted alphabet.
#[derive(Drop)]
pub struct RestrictedString<K: CharacterKind> {
    octets: Vec<u8>,
    kind: PhantomData<K>,
}

impl<K: CharacterKind> Model for RestrictedString<K> {
    ghost use Rattle.std.specs.Prelude.{List, ℕ, IsTrue};
    ghost use Rattle.asn1_values_alphabets.specs.Permitted.{permits_all};

    ghost Value = { List ℕ };

    ghost view = { λ s. s.octets.items };

    ghost invariant = { λ s. IsTrue (permits_all K.kind s.octets.items) };
}

impl<K: CharacterKind> RestrictedString<K> {
    /// The empty string. Allocates nothing.
    pub fn new(alloc: Global) -> Self
        ensures { result ≡ [] }
    {
        RestrictedString {
            octets: Vec::new(alloc),
            kind: PhantomData,
        }
    }

    /// The string of these characters, each one octet.
    ///
    /// # Errors
    ///
    /// The error for the first character that the type does not permit, or `Memory` if memory runs out.
    pub fn from_bytes(alloc: Global, bytes: &[u8]) -> Result<Self, PermittedAlphabetError>
        ensures characters { IfOk result (λ s. s ≡ bytes.now) }
        ensures permitted { OnOk result (IsTrue (permits_all K.kind bytes.now)) }
        ensures refused { IfErr result (IsRefusalOf K.kind K.refused bytes.now) }
    {
        ensure_permitted::<K>(bytes)?;
        let octets = Vec::from_slice(alloc, bytes).map_err(PermittedAlphabetError::Memory)?;
        Ok(RestrictedString {
            octets,
            kind: PhantomData,
        })
    }

    /// The string of a text's characters.
    ///
    /// # Errors
    ///
    /// The error for the first character that the type does not permit, or `Memory` if memory runs out.
    pub fn from_text(alloc: Global, text: &str) -> Result<Self, PermittedAlphabetError>
        ensures characters { IfOk result (λ s. s ≡ chars text.now) }
        ensures permitted { OnOk result (IsTrue (permits_all K.kind (chars text.now))) }
        ensures refused { IfErr result (IsRefusalOf K.kind K.refused (chars text.now)) }
    {
        string_of_text(alloc, text)
    }

    /// The string whose characters are these octets. They are copied only if a clone shares them.
    ///
    /// # Errors
    ///
    /// The error for the first character that the type does not permit, or `Memory` if memory runs out.
    pub fn from_octet_string(
        alloc: Global,
        octets: OctetString,
    ) -> Result<Self, PermittedAlphabetError>
        ensures characters { IfOk result (λ s. s ≡ octets) }
        ensures permitted { OnOk result (IsTrue (permits_all K.kind octets)) }
        ensures refused { IfErr result (IsRefusalOf K.kind K.refused octets) }
    {
        ensure_permitted::<K>(octets.as_slice())?;
        let octets = octets
            .into_vec(alloc)
            .map_err(PermittedAlphabetError::Memory)?;
        Ok(RestrictedString {
            octets,
            kind: PhantomData,
        })
    }

    /// The characters, each one octet.
    pub fn as_bytes(&self) -> &[u8]
        ensures characters { result.now ≡ self.now }
        ensures permitted { IsTrue (permits_all K.kind self.now) }
    {
        self.octets.as_slice()
    }

    /// A copy of the characters, each one octet.
    ///
    /// # Errors
    ///
    /// Out of memory.
    pub fn to_bytes(&self, alloc: Global) -> Result<Vec<u8>, AllocError>
        ensures { IfOk result (λ v. v.items ≡ self.now) }
    {
        Vec::from_slice(alloc, self.as_bytes())
    }

    /// The characters, each one octet, not copied.
    pub fn into_vec(self) -> Vec<u8>
        ensures characters { result.items ≡ self }
        ensures permitted { IsTrue (permits_all K.kind self) }
    {
        self.octets
    }

    /// The number of characters.
    pub fn len(&self) -> usize
        ensures { result ≡ length self.now }
    {
        self.as_bytes().len()
    }

    /// Whether there are no characters.
    pub fn is_empty(&self) -> bool
        ensures { IsTrue result ↔ (self.now ≡ []) }
    {
        self.as_bytes().is_empty()
    }

    /// The characters, from the first to the last.
    pub fn chars(&self) -> Characters<'_>
        ensures { result ≡ self.now }
    {
        Characters {
            rest: self.as_bytes(),
        }
    }

    /// Appends a character. After an error the string is unchanged.
    ///
    /// # Errors
    ///
    /// The error for a character that the type does not permit, or `Memory` if memory runs out.
    pub fn push_char(&mut self, character: u32) -> Result<(), PermittedAlphabetError>
        ensures pushed { OnOk result (self.new ≡ self.old ++ character ∷ []) }
        ensures permitted { OnOk result (IsTrue (permits K.kind character)) }
        ensures refused { IfErr result (IsRefusalOf K.kind K.refused (character ∷ [])) }
        ensures unchanged { OnErr result (self.new ≡ self.old) }
    {
        if !K::permits(character) {
            return Err(PermittedAlphabetError::InvalidRestrictedString(K::refuse(character)));
        }
        self.octets
            .push(character as u8)
            .map_err(|_| PermittedAlphabetError::Memory(AllocError))?;
        Ok(())
    }
}

/// Does not copy the octets.
impl<K: CharacterKind> TryFrom<Vec<u8>> for RestrictedString<K> {
    type Error = PermittedAlphabetError;

    ghost try_from_gives = { λ v r. MatchResult r (λ s. (s ≡ v.items) × IsTrue (permits_all K.kind v.items))
        (IsOutside K.kind K.refused v.items) };

    fn try_from(octets: Vec<u8>) -> Result<Self, PermittedAlphabetError> {
        ensure_permitted::<K>(&octets)?;
        Ok(RestrictedString {
            octets,
            kind: PhantomData,
        })
    }
}

/// Eight bits are one character; the octets are not copied. An error if the bits are not whole octets.
impl<K: CharacterKind> TryFrom<BitString> for RestrictedString<K> {
    type Error = PermittedAlphabetError;

    ghost try_from_gives = { λ bits r. MatchResult r (λ s. (octet_bits s ≡ bits) × IsTrue (permits_all K.kind s))
        (IsRefusalOfBits K.kind K.refused bits) };

    fn try_from(bits: BitString) -> Result<Self, PermittedAlphabetError> {
        if bits.len() % 8 > 0 {
            return Err(PermittedAlphabetError::InvalidData);
        }
        let string = RestrictedString::try_from(bits.into_buffer().into_vec())?;
        Ok(string)
    }
}

/// If all characters are ASCII, they are not copied; else this allocates from the allocator of the text.
impl<K: CharacterKind> TryFrom<String> for RestrictedString<K> {
    type Error = PermittedAlphabetError;

    ghost try_from_gives = { λ text r. MatchResult r (λ s. (s ≡ chars (string_bytes text))
        × IsTrue (permits_all K.kind (chars (string_bytes text))))
        (IsRefusalOf K.kind K.refused (chars (string_bytes text))) };

    fn try_from(text: String) -> Result<Self, PermittedAlphabetError> {
        if !text.as_str().is_ascii() {
            return string_of_text(*text.allocator(), text.as_str());
        }
        let string = RestrictedString::try_from(text.into_bytes())?;
        Ok(string)
    }
}

/// The empty string. Takes the place of `Default`, which has no allocator.
impl<K: CharacterKind> MadeWith<Global> for RestrictedString<K> {
    ghost is_made_with = { λ s. s ≡ [] };

    fn made_with(alloc: Global) -> Self {
        RestrictedString::new(alloc)
    }
}

impl<K: CharacterKind> Clone for RestrictedString<K> {
    ghost is_clone = { λ s copy. copy ≡ s };

    fn clone(&self) -> Result<Self, AllocError> {
        Ok(RestrictedString {
            octets: self.octets.clone()?,
            kind: PhantomData,
        })
    }
}

impl<K: CharacterKind> DerefSlice for RestrictedString<K> {
    type Elem = u8;

    ghost deref_gives = { λ s octets. octets ≡ s };

    fn deref(&self) -> &[u8] {
        self.as_bytes()
    }
}

impl<K: CharacterKind> AsSlice<u8> for RestrictedString<K> {
    ghost items = { λ s. s };

    fn as_slice(&self) -> &[u8] {
        self.as_bytes()
    }
}

impl<K: CharacterKind> PartialEq for RestrictedString<K> {
    ghost eq = { pointwise nat_eq };

    ghost laws = { partial_equiv_from_equiv nat_list_eq_equiv };

    fn eq(&self, other: &Self) -> bool {
        self.as_bytes() == other.as_bytes()
    }
}

impl<K: CharacterKind> Eq for RestrictedString<K> {
    ghost laws = { nat_list_eq_equiv };
}

impl<K: CharacterKind> PartialOrd for RestrictedString<K> {
    ghost partial_cmp = { λ x y. Some (slice_cmp nat_cmp x y) };

    ghost laws = { texts_po };

    fn partial_cmp(&self, other: &Self) -> Option<Ordering> {
        Some(self.cmp(other))
    }
}

impl<K: CharacterKind> Ord for RestrictedString<K> {
    ghost cmp = { slice_cmp nat_cmp };

    ghost total = { nat_list_cmp_total };

    ghost matches_partial_cmp = { λ x y. refl };

    ghost matches_eq = { texts_ties };

    fn cmp(&self, other: &Self) -> Ordering {
        self.as_bytes().cmp(other.as_bytes())
    }
}

impl<K: CharacterKind> Hash for RestrictedString<K> {
    ghost hash_input = { fed.slice fed.u8 };

    ghost respects_eq = { Prim.search (hashing, rules) };

    fn hash<H: Hasher>(&self, state: &mut H) {
        self.as_bytes().hash(state);
    }
}

impl<K: CharacterKind> fmt::Debug for RestrictedString<K> {
    fn fmt<W: fmt::Write>(&self, f: &mut fmt::Formatter<W>) -> fmt::Result {
        f.debug_tuple(K::NAME).field(&self.as_bytes()).finish()
    }
}

impl<K: CharacterKind> StaticPermittedAlphabet for RestrictedString<K> {
    ghost kind = { K.kind };

    ghost refused = { K.refused };

    ghost characters = { λ s. s };

    ghost holds = { K.holds };

    fn empty(alloc: Global) -> Self {
        RestrictedString::new(alloc)
    }

    fn with_capacity(alloc: Global, count: usize) -> Result<Self, AllocError> {
        Ok(RestrictedString {
            octets: Vec::with_capacity(alloc, count)?,
            kind: PhantomData,
        })
    }

    fn contains_char(character: u32) -> bool {
        K::permits(character)
    }

    fn refuse(character: u32) -> InvalidRestrictedString {
        K::refuse(character)
    }

    fn push_char(&mut self, character: u32) -> Result<(), PermittedAlphabetError> {
        RestrictedString::push_char(self, character)
    }

    fn char_count(&self) -> usize {
        self.as_bytes().len()
    }

    fn char_at(&self, place: usize) -> u32 {
        u32::from(self.as_bytes()[place])
    }

    fn char_octets(&self) -> Option<&[u8]> {
        Some(self.as_bytes())
    }

    fn from_octets(alloc: Global, octets: &[u8]) -> Result<Self, PermittedAlphabetError> {
        RestrictedString::from_bytes(alloc, octets)
    }

    fn from_octet_vec(octets: Vec<u8>) -> Result<Self, PermittedAlphabetError> {
        RestrictedString::try_from(octets)
    }
}

/// An error for the first octet that a string of the kind may not hold, if there is one.
fn ensure_permitted<K: CharacterKind>(octets: &[u8]) -> Result<(), PermittedAlphabetError>
    ensures permitted { OnOk result (IsTrue (permits_all K.kind octets.now)) }
    ensures refused { IfErr result (IsOutside K.kind K.refused octets.now) }
{
    match first_refused::<K>(octets) {
        Some(character) => Err(PermittedAlphabetError::InvalidRestrictedString(K::refuse(
            character,
        ))),
        None => Ok(()),
    }
}

/// The first octet that a string of the kind may not hold.
fn first_refused<K: CharacterKind>(octets: &[u8]) -> Option<u32>
    ensures { result ≡ first_refused K.kind octets.now }
{
    octets
        .iter()
        .map(|octet| u32::from(*octet))
        .find(|character| !K::permits(*character))
}
