//! Permitted alphabets, and the codes of their characters.
ghost use Rattle.std.specs.Prelude.{◌≡◌, false, ℕ, ◌^◌, ◌<◌, ◌≤◌, ◌≢◌, ◌↔◌, nat_lt, length, IsTrue, IfOk, IfErr};
ghost use Rattle.std.specs.Prelude.{OnOk, OnErr};
ghost use Rattle.std.specs.List.Sorted.{IsStrictlyIncreasing};
ghost use Rattle.asn1_model.specs.Numbers.{width as bit_width};
ghost use Rattle.asn1_values_alphabets.specs.Codes.{code_of, code_width, raised_width, singles};
ghost use Rattle.asn1_model.specs.Strings.{largest, place_of};
ghost use Rattle.asn1_values_alphabets.specs.declared.error.PermittedAlphabetError.TheVariants.{CharacterNotFound};
ghost use Rattle.asn1_values_alphabets.specs.declared.error.PermittedAlphabetError.TheVariants.{IndexNotFound};
ghost use Rattle.asn1_values_alphabets.specs.Refusals.{IsRefusalOfList};

use crate::error::PermittedAlphabetError;
use std::alloc::Global;
use std::marker::Model;

/// The permitted characters in ascending order, each with a code (X.691 30.5).
///
/// The width of a code is the fewest bits that hold the number of characters less one, or none if there are no
/// characters; it can be raised to a power of two. The code is the character's value if the largest value fits that
/// width, else the character's index.
#[derive(Debug, Drop)]
pub struct CharacterAlphabet {
    characters: Vec<u32>,
    width: u32,
    is_by_number: bool,
}

impl Model for CharacterAlphabet {
    ghost use Rattle.asn1_values_alphabets.specs.Codes.{CodedCharacters, IsCoded};

    ghost Value = { CodedCharacters };

    ghost view = { λ a. record { characters = a.characters.items; code_bits = a.width } };

    ghost invariant = { λ a. IsCoded a.characters.items a.width a.is_by_number };
}

impl CharacterAlphabet {
    /// An alphabet of strictly ascending characters; the list may be empty.
    ///
    /// If `raised` is true, a code takes 1, 2, 4, 8, 16 or 32 bits, or none (X.691 30.5.2).
    ///
    /// # Errors
    ///
    /// `InvalidData` if the characters do not ascend strictly, and `Memory` if memory runs out.
    pub fn new(
        alloc: Global,
        characters: &[u32],
        raised: bool,
    ) -> Result<Self, PermittedAlphabetError>
        ensures characters { IfOk result (λ a. a.characters ≡ characters.now) }
        ensures width { IfOk result (λ a. a.code_bits ≡ code_width raised characters.now) }
        ensures ascending { OnOk result (IsStrictlyIncreasing characters.now) }
        ensures refused { IfErr result (IsRefusalOfList characters.now) }
    {
        if !is_ascending(characters) {
            return Err(PermittedAlphabetError::InvalidData);
        }
        let characters = characters
            .to_vec(alloc)
            .map_err(PermittedAlphabetError::Memory)?;
        let width = code_bits(&characters, raised);
        Ok(CharacterAlphabet {
            is_by_number: is_below(&characters, width),
            width,
            characters,
        })
    }

    /// The width of a code in bits, from 0 to 32.
    pub fn width(&self) -> u32
        ensures bits { result ≡ self.now.code_bits }
        ensures narrow { result ≤ 32 }
    {
        self.width
    }

    /// The code of a permitted character (X.691 30.5.4).
    ///
    /// # Errors
    ///
    /// `CharacterNotFound` if the character is not permitted.
    pub fn encode(&self, character: u32) -> Result<u32, PermittedAlphabetError>
        ensures code { IfOk result (λ code. code_of self.now character ≡ Some code) }
        ensures narrow { IfOk result (λ code. code < 2 ^ self.now.code_bits) }
        ensures alone { IfOk result (λ code. (other : ℕ) → code_of self.now other ≡ Some code → other ≡ character) }
        ensures error { IfErr result (λ e. e ≡ CharacterNotFound character) }
        ensures missing { OnErr result (code_of self.now character ≡ None) }
    {
        match place_among(&self.characters, character) {
            Some(_) if self.is_by_number => Ok(character),
            Some(place) => Ok(place as u32),
            None => Err(PermittedAlphabetError::CharacterNotFound { character }),
        }
    }

    /// The permitted character of a code.
    ///
    /// # Errors
    ///
    /// `IndexNotFound` if no permitted character has the code.
    pub fn decode(&self, code: u32) -> Result<u32, PermittedAlphabetError>
        ensures character { IfOk result (λ character. code_of self.now character ≡ Some code) }
        ensures alone { IfOk result (λ character. (other : ℕ) → code_of self.now other ≡ Some code → other
            ≡ character) }
        ensures error { IfErr result (λ e. e ≡ IndexNotFound code) }
        ensures missing { OnErr result ((character : ℕ) → code_of self.now character ≢ Some code) }
    {
        if self.is_by_number {
            return match place_among(&self.characters, code) {
                Some(_) => Ok(code),
                None => Err(PermittedAlphabetError::IndexNotFound { index: code }),
            };
        }
        match self.characters.get(code as usize) {
            Some(character) => Ok(*character),
            None => Err(PermittedAlphabetError::IndexNotFound { index: code }),
        }
    }
}

/// The index of a character in ascending characters.
fn place_among(characters: &[u32], character: u32) -> Option<usize>
    requires { IsStrictlyIncreasing characters.now }
    ensures { result ≡ place_of character (singles characters.now) }
{
    characters.binary_search(&character).ok()
}

/// A width of at most 32 bits, raised to 1, 2, 4, 8, 16 or 32; 0 stays 0.
fn raised_bits(bits: u32) -> u32
    requires { bits ≤ 32 }
    ensures raised { result ≡ raised_width bits }
    ensures enough { bits ≤ result }
    ensures narrow { result ≤ 32 }
{
    match bits {
        0..=2 => bits,
        3..=4 => 4,
        5..=8 => 8,
        9..=16 => 16,
        _ => 32,
    }
}

/// The fewest bits that hold the number of the characters less one.
fn fewest_bits(characters: &[u32]) -> u32
    requires { IsStrictlyIncreasing characters.now }
    ensures fewest { result ≡ code_width false characters.now }
    ensures narrow { result ≤ 32 }
{
    bits_of(characters.len().saturating_sub(1) as u64)
}

/// The width of a code in an alphabet of these characters.
fn code_bits(characters: &[u32], raised: bool) -> u32
    requires { IsStrictlyIncreasing characters.now }
    ensures width { result ≡ code_width raised characters.now }
    ensures enough { code_width false characters.now ≤ result }
    ensures narrow { result ≤ 32 }
{
    let fewest = fewest_bits(characters);
    if raised { raised_bits(fewest) } else { fewest }
}

/// Whether the last character is below 2^`width`, or there are no characters.
fn is_below(characters: &[u32], width: u32) -> bool
    requires { width ≤ 32 }
    ensures { result ≡ nat_lt (largest (singles characters.now)) (2 ^ width) }
{
    let last = match characters {
        [] => 0,
        [.., last] => *last,
    };
    u64::from(last) < 1 << width
}

/// Whether each number is less than the next.
fn is_ascending(characters: &[u32]) -> bool
    ensures { IsTrue result ↔ IsStrictlyIncreasing characters.now }
{
    for i in 1..characters.len() {
        if characters[i] <= characters[i - 1] {
            return false;
        }
    }
    true
}

/// The number of binary digits of a number; zero has none.
fn bits_of(number: u64) -> u32
    ensures { result ≡ bit_width number }
{
    64 - number.leading_zeros()
}
