//! Characters as units.
ghost use Rattle.std.specs.Prelude.{◌≡◌, ◌≤◌, ℕ, true, IfSome};
ghost use Rattle.std.specs.List.{list_all};
ghost use Rattle.per_codec_alphabets.specs.Codes.{code_in, code_of, has_code, text_of};
ghost use Rattle.per_codec_writing.specs.Characters.{low_bits, field_lists_of};
ghost use Rattle.per_codec_writing.specs.Units.{unit_forms};

use crate::Units;
use asn1_schema_errors::EncodeError;
use asn1_values_alphabets::StaticPermittedAlphabet;
use per_codec_alphabets::{CodedRun, EffectiveAlphabet};
use per_codec_packing::Packing;

/// The characters of a string, each encoded by its code in an alphabet (X.691 30.5).
#[derive(Drop)]
pub struct CharacterUnits<'a, S> {
    /// The alphabet.
    pub alphabet: &'a EffectiveAlphabet,
    /// The string.
    pub string: &'a S,
}

impl<S: StaticPermittedAlphabet> CharacterUnits<'_, S> {
    /// Whether each character is in the alphabet.
    pub fn has_codes(&self) -> bool
        ensures { result ≡ list_all (has_code self.now.alphabet.now) (S.characters self.now.string.now) }
    {
        if let Some(run) = self.alphabet.single_run() {
            return self.are_in_run(run);
        }
        for place in 0..self.string.char_count() {
            if self.alphabet.code(self.string.char_at(place)).is_none() {
                return false;
            }
        }
        true
    }

    /// Whether each character is in the alphabet, which is one run.
    #[inline(always)]
    fn are_in_run(&self, run: CodedRun) -> bool
        requires { (c : ℕ) → code_of self.now.alphabet.now c ≡ code_in run c }
        ensures { result ≡ list_all (has_code self.now.alphabet.now) (S.characters self.now.string.now) }
    {
        for place in 0..self.string.char_count() {
            if run.code(self.string.char_at(place)).is_none() {
                return false;
            }
        }
        true
    }

    /// The number that is subtracted from each character to get its code, if it is the same for all and fits in an
    /// octet.
    #[inline(always)]
    pub(crate) fn base(&self) -> Option<u8>
        ensures { IfSome result (λ base. (c : ℕ) → has_code self.now.alphabet.now c ≡ true
            → text_of self.now.alphabet.now c ≡ low_bits base self.now.alphabet.now.code_bits c) }
    {
        if self.alphabet.is_by_number() {
            return Some(0);
        }
        let run = self.alphabet.single_run()?;
        if run.base < 256 {
            Some(run.base as u8)
        } else {
            None
        }
    }

    /// The characters as octets, if they are stored so and codes have at most eight bits.
    #[inline(always)]
    pub(crate) fn octets(&self) -> Option<&[u8]>
        ensures characters { IfSome result (λ octets. octets.now ≡ S.characters self.now.string.now) }
        ensures narrow { IfSome result (λ _. self.now.alphabet.now.code_bits ≤ 8) }
    {
        if self.alphabet.width() > 8 {
            return None;
        }
        self.string.char_octets()
    }
}

impl<S: StaticPermittedAlphabet> Units for CharacterUnits<'_, S> {
    ghost forms = { λ units. unit_forms (field_lists_of units.alphabet.now (S.characters units.string.now)) };

    fn count(&self) -> usize {
        self.string.char_count()
    }

    fn push_range(&self, output: &mut Packing, from: usize, to: usize) -> Result<(), EncodeError> {
        let width = self.alphabet.width();
        for place in from..to {
            let code = self.alphabet.code(self.string.char_at(place)).unwrap_or(0);
            output.push_bits(u128::from(code), width)?;
        }
        Ok(())
    }
}
