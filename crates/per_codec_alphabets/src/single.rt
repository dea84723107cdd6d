//! Characters in a single run.
ghost use Rattle.std.specs.Prelude.{◌≡◌, ◌≤◌, ℕ, ◌∷◌, [], Some, IfSome, IsTrue};
ghost use Rattle.asn1_model.specs.Strings.{characters_of, is_among};
ghost use Rattle.per_codec_alphabets.specs.Codes.{AreKept, code_in, run_of};
ghost use Rattle.per_codec_alphabets.specs.Listed.{each_of};

use crate::runs::{CharacterRun, own_runs};
use asn1_values_alphabets::StaticPermittedAlphabet;

/// One run of characters with their codes: a code is the character's number minus `base`.
#[derive(Clone, Copy, Debug, PartialEq, Eq)]
pub struct CodedRun {
    /// The first character.
    pub first: u32,
    /// The last character.
    pub last: u32,
    /// The number that is subtracted from a character to get its code.
    pub base: u32,
}

impl CodedRun {
    /// The code of a character, if it is in the run.
    #[inline(always)]
    pub fn code(self, character: u32) -> Option<u32>
        ensures { result ≡ code_in self character }
    {
        if self.first <= character && character <= self.last {
            Some(character.saturating_sub(self.base))
        } else {
            None
        }
    }

    /// The character with this code, if there is one.
    #[inline(always)]
    pub fn character(self, code: u32) -> Option<u32>
        requires { self.base ≤ self.first }
        ensures found { IfSome result (λ character. code_in self character ≡ Some code) }
        ensures within { IfSome result (λ character. character ≤ self.last) }
        ensures alone { (character : ℕ) → code_in self character ≡ Some code → result ≡ Some character }
    {
        let character = u64::from(self.base) + u64::from(code);
        if u64::from(self.first) <= character && character <= u64::from(self.last) {
            Some(character as u32)
        } else {
            None
        }
    }
}

/// The run of the characters, if each is one more than the previous one.
#[inline(always)]
fn run_of_all(characters: &[u32]) -> Option<CharacterRun>
    ensures each { IfSome result (λ run. characters.now ≡ each_of (run_of run)) }
    ensures some { IfSome result (λ run. run.first ≤ run.last) }
{
    let [first, .., last] = characters else {
        return None;
    };
    for place in 0..characters.len() {
        if u64::from(characters[place]) != u64::from(*first) + place as u64 {
            return None;
        }
    }
    Some(CharacterRun {
        first: *first,
        last: *last,
    })
}

/// Whether a string type has all characters of a run within one of its runs.
#[inline(always)]
fn has_run<S: StaticPermittedAlphabet>(run: CharacterRun) -> bool
    ensures { IsTrue result → (c : ℕ) → run.first ≤ c → c ≤ run.last → IsTrue (is_among (characters_of S.kind) c) }
{
    for own in own_runs::<S>() {
        if own.first <= run.first && run.last <= own.last {
            return true;
        }
    }
    false
}

/// The run of these characters, if they are listed as one and it lies within a run of the string type.
#[inline(always)]
pub fn single_run<S: StaticPermittedAlphabet>(characters: &[u32]) -> Option<CharacterRun>
    ensures { IfSome result (λ run. AreKept S.kind characters.now (run_of run ∷ [])) }
{
    let run = run_of_all(characters)?;
    if has_run::<S>(run) { Some(run) } else { None }
}
