//! Effective permitted alphabets, and the codes of their characters.
ghost use Rattle.std.specs.Prelude.{◌≡◌, ◌≢◌, ◌^◌, ◌<◌, ◌≤◌, ◌-◌, ℕ, ltb, Some, None, IfOk, IfSome, nat_lt};
ghost use Rattle.asn1_model.specs.Numbers.{width as bit_width};
ghost use Rattle.asn1_model.specs.Per.{character_bits, raised};
ghost use Rattle.asn1_model.specs.Strings.{how_many, largest};
ghost use Rattle.per_codec_alphabets.specs.Codes.{runs_of, code_of, code_in, SameCharacters};
ghost use Rattle.per_codec_alphabets.specs.Held.{held_runs, permitted_by};
ghost use Rattle.per_codec_rules.specs.Variants.{is_aligned};

use crate::few::FewRuns;
use crate::runs::{
    CharacterRun, character_at, count, kept_runs, last_character, own_runs, place_among,
};
use crate::single::{CodedRun, single_run};
use asn1_schema_constraints::{Extensible, PermittedAlphabet};
use asn1_values_alphabets::StaticPermittedAlphabet;
use per_codec_rules::Variant;
use std::alloc::{AllocError, Global};
use std::marker::Model;

/// Runs of characters: those of a type, or of an effective permitted alphabet.
#[derive(Debug, Drop)]
enum Runs {
    /// Those of a type.
    Own(&'static [CharacterRun]),
    /// A single run under a constraint.
    Single([CharacterRun; 1]),
    /// Few runs under a constraint.
    InPlace(FewRuns),
    /// Other runs under a constraint.
    Apart(Vec<CharacterRun>),
}

/// The effective permitted alphabet of a string type (X.691 30.5): the characters that its permitted alphabet admits,
/// and their codes.
///
/// A code is the character's number if the largest one fits in the bits of a code, else the character's index in the
/// alphabet.
#[derive(Debug, Drop)]
pub struct EffectiveAlphabet {
    runs: Runs,
    width: u32,
    is_by_number: bool,
}

impl Model for EffectiveAlphabet {
    ghost use Rattle.std.specs.Prelude.{◌≡◌, ◌<◌, ◌^◌, ltb};
    ghost use Rattle.asn1_model.specs.Strings.{how_many, largest};
    ghost use Rattle.per_codec_alphabets.specs.Codes.{Coded};
    ghost use Rattle.per_codec_alphabets.specs.Held.{held_runs, IsCoded};

    ghost Value = { Coded };

    ghost view = { λ a. record { runs = held_runs a.runs; code_bits = a.width } };

    ghost invariant = { λ a. IsCoded (held_runs a.runs) a.width a.is_by_number };
}

impl EffectiveAlphabet {
    /// The characters of the type `S` under a permitted alphabet, if there is one and it has no extension marker.
    ///
    /// In the aligned variant a code has 1, 2, 4, 8 or 16 bits, or none (X.691 30.5.2). It allocates only under a
    /// constraint without an extension marker that lists its characters in more than eight runs, or one of them
    /// twice: once, and a second time if the characters are not in ascending order.
    ///
    /// # Errors
    ///
    /// `AllocError` if memory ran out.
    #[inline(always)]
    pub fn new<S: StaticPermittedAlphabet>(
        alloc: Global,
        variant: Variant,
        constraint: Option<Extensible<PermittedAlphabet>>,
    ) -> Result<Self, AllocError>
        ensures characters { IfOk result (λ a. SameCharacters a.runs (permitted_by S.kind constraint.entry)) }
        ensures width { IfOk result (λ a. a.code_bits
            ≡ character_bits (is_aligned variant) (permitted_by S.kind constraint.entry)) }
    {
        let runs = permitted_runs::<S>(alloc, constraint)?;
        let width = bits_of_codes(runs.as_slice(), variant);
        Ok(EffectiveAlphabet {
            is_by_number: is_below(runs.as_slice(), width),
            width,
            runs,
        })
    }

    /// The number of bits of a code, at most 64.
    #[inline(always)]
    pub fn width(&self) -> u32
        ensures bits { result ≡ self.now.code_bits }
        ensures narrow { result ≤ 64 }
    {
        self.width
    }

    /// Whether the code of each character is its number (X.691 30.5.4).
    #[inline(always)]
    pub fn is_by_number(&self) -> bool
        ensures { result ≡ ltb (largest self.now.runs) (2 ^ self.now.code_bits) }
    {
        self.is_by_number
    }

    /// The characters and their codes as one run, if they are stored as one.
    #[inline(always)]
    pub fn single_run(&self) -> Option<CodedRun>
        ensures codes { IfSome result (λ run. (c : ℕ) → code_of self.now c ≡ code_in run c) }
        ensures base { IfSome result (λ run. run.base ≤ run.first) }
    {
        let [run] = self.runs.as_slice() else {
            return None;
        };
        Some(CodedRun {
            first: run.first,
            last: run.last,
            base: if self.is_by_number { 0 } else { run.first },
        })
    }

    /// The code of a character, if it is in the alphabet (X.691 30.5.4).
    #[inline(always)]
    pub fn code(&self, character: u32) -> Option<u64>
        ensures { result ≡ code_of self.now character }
    {
        let place = place_among(self.runs.as_slice(), character)?;
        Some(if self.is_by_number {
            u64::from(character)
        } else {
            place
        })
    }

    /// The character with this code, if there is one.
    #[inline(always)]
    pub fn character(&self, code: u32) -> Option<u32>
        ensures found { IfSome result (λ character. code_of self.now character ≡ Some code) }
        ensures alone { (character : ℕ) → code_of self.now character ≡ Some code → result ≡ Some character }
    {
        let character = self.candidate(code)?;
        if self.code(character) == Some(u64::from(code)) {
            Some(character)
        } else {
            None
        }
    }

    /// The only character that can have this code.
    #[inline(always)]
    fn candidate(&self, code: u32) -> Option<u32>
        ensures { (character : ℕ) → code_of self.now character ≡ Some code → result ≡ Some character }
    {
        if self.is_by_number {
            Some(code)
        } else {
            character_at(self.runs.as_slice(), u64::from(code))
        }
    }
}

impl Runs {
    /// The runs in order.
    #[inline(always)]
    fn as_slice(&self) -> &[CharacterRun]
        ensures { runs_of result.now ≡ held_runs self.now }
    {
        match self {
            Runs::Own(runs) => runs,
            Runs::Single(runs) => runs,
            Runs::InPlace(runs) => runs.as_slice(),
            Runs::Apart(runs) => runs,
        }
    }
}

/// The characters of the type `S` under a permitted alphabet.
#[inline(always)]
fn permitted_runs<S: StaticPermittedAlphabet>(
    alloc: Global,
    constraint: Option<Extensible<PermittedAlphabet>>,
) -> Result<Runs, AllocError>
    ensures characters { IfOk result (λ runs. SameCharacters (held_runs runs) (permitted_by S.kind constraint.entry)) }
    ensures few { IfOk result (λ runs. how_many (held_runs runs) < 2 ^ 64) }
{
    match constraint {
        Some(
            Extensible {
                constraint: alphabet,
                extensible: None,
            },
        ) => {
            if let Some(run) = single_run::<S>(alphabet.characters) {
                return Ok(Runs::Single([run]));
            }
            if let Some(runs) = FewRuns::kept::<S>(alphabet.characters) {
                return Ok(Runs::InPlace(runs));
            }
            Ok(Runs::Apart(kept_runs::<S>(alloc, alphabet.characters)?))
        }
        _ => Ok(Runs::Own(own_runs::<S>())),
    }
}

/// The number of bits that hold a number, none for 0.
#[inline(always)]
fn bits_of(number: u64) -> u32
    ensures width { result ≡ bit_width number }
    ensures narrow { result ≤ 64 }
{
    64 - number.leading_zeros()
}

/// Rounds up to 0, 1, 2, 4, 8 or 16.
#[inline(always)]
fn raised_bits(bits: u32) -> u32
    ensures raised { result ≡ raised bits }
    ensures narrow { bits ≤ 64 → result ≤ 64 }
{
    match bits {
        0..=2 => bits,
        3..=4 => 4,
        5..=8 => 8,
        _ => 16,
    }
}

/// The number of bits of a code for these characters (X.691 30.5.2).
#[inline(always)]
fn bits_of_codes(runs: &[CharacterRun], variant: Variant) -> u32
    requires { how_many (runs_of runs.now) < 2 ^ 64 }
    ensures width { result ≡ character_bits (is_aligned variant) (runs_of runs.now) }
    ensures narrow { result ≤ 64 }
{
    let fewest = bits_of(count(runs).saturating_sub(1));
    match variant {
        Variant::Unaligned => fewest,
        Variant::Aligned => raised_bits(fewest),
    }
}

/// Whether the largest of the characters is below 2 to the width.
#[inline(always)]
fn is_below(runs: &[CharacterRun], width: u32) -> bool
    requires { width ≤ 64 }
    ensures { result ≡ ltb (largest (runs_of runs.now)) (2 ^ width) }
{
    u128::from(last_character(runs)) < 1 << width
}
