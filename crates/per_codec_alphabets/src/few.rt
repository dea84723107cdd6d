//! A few runs of characters, without an allocation.
ghost use Rattle.std.specs.Prelude.{◌≡◌, ◌<◌, ◌^◌, ◌++◌, ◌∷◌, [], true, IfSome, IsTrue};
ghost use Rattle.std.specs.List.{All};
ghost use Rattle.std.specs.List.Sorted.{IsPermutation};
ghost use Rattle.asn1_model.specs.Strings.{how_many, sorted};
ghost use Rattle.per_codec_alphabets.specs.Codes.{runs_of, singles, kept, AreKept, SameCharacters};
ghost use Rattle.per_codec_alphabets.specs.Listed.{all_of, begin_from, HasSome};

use crate::runs::CharacterRun;
use asn1_values_alphabets::StaticPermittedAlphabet;
use std::marker::Model;

/// The number of runs that are stored in place.
const PLACES: usize = 8;

/// Up to eight runs of characters in place, each of at least one character.
#[derive(Debug, Drop)]
pub struct FewRuns {
    runs: [CharacterRun; PLACES],
    count: usize,
}

impl Model for FewRuns {
    ghost use Rattle.std.specs.Prelude.{List, take};
    ghost use Rattle.per_codec_alphabets.specs.Listed.{AreFew};
    ghost use Rattle.per_codec_alphabets.specs.declared.runs.CharacterRun.{CharacterRun};

    ghost Value = { List CharacterRun };

    ghost view = { λ few. take few.count few.runs };

    ghost invariant = { λ few. AreFew few.runs few.count };
}

impl FewRuns {
    /// Those of the characters that a string type has, in ascending order, without duplicates (X.691 30.5.2): if they
    /// are listed in at most eight runs, in any order, and none of them twice.
    pub fn kept<S: StaticPermittedAlphabet>(characters: &[u32]) -> Option<Self>
        ensures few { IfSome result (λ runs. how_many (runs_of runs) < 2 ^ 64) }
        ensures characters { IfSome result (λ runs. AreKept S.kind characters.now (runs_of runs)) }
    {
        let listed = FewRuns::listed::<S>(characters)?;
        listed.in_order()
    }

    /// The runs in order.
    pub fn as_slice(&self) -> &[CharacterRun]
        ensures runs { result.now ≡ self.now }
        ensures some { All HasSome result.now }
    {
        &self.runs[..self.count]
    }

    /// No runs.
    fn none() -> Self
        ensures { result ≡ [] }
    {
        let none = CharacterRun { first: 0, last: 0 };
        FewRuns {
            runs: [none; PLACES],
            count: 0,
        }
    }

    /// Adds a character after the others, to the last run if it is the next one. Returns whether there was room.
    fn push_character(&mut self, character: u32) -> bool
        ensures { IsTrue result → all_of (runs_of self.new) ≡ all_of (runs_of self.old) ++ character ∷ [] }
    {
        if self.count > 0 {
            let run = self.runs[self.count - 1];
            if run.last.checked_add(1) == Some(character) {
                self.runs[self.count - 1] = CharacterRun {
                    first: run.first,
                    last: character,
                };
                return true;
            }
        }
        if self.count == PLACES {
            return false;
        }
        self.runs[self.count] = CharacterRun {
            first: character,
            last: character,
        };
        self.count += 1;
        true
    }

    /// Those of the characters that a string type has, in the given order, if there is room for their runs.
    fn listed<S: StaticPermittedAlphabet>(characters: &[u32]) -> Option<Self>
        ensures { IfSome result (λ runs. all_of (runs_of runs) ≡ kept S.kind characters.now) }
    {
        let mut runs = FewRuns::none();
        for character in characters {
            if S::contains_char(*character) {
                if !runs.push_character(*character) {
                    return None;
                }
            }
        }
        Some(runs)
    }

    /// The same runs in ascending order, unless two of them overlap.
    fn in_order(self) -> Option<Self>
        ensures { IfSome result (λ runs. SameCharacters (runs_of runs) (singles (sorted (all_of (runs_of self))))) }
    {
        if are_apart(self.as_slice()) {
            return Some(self);
        }
        let ordered = self.sorted();
        if are_apart(ordered.as_slice()) {
            return Some(ordered);
        }
        None
    }

    /// The same runs in the order of their first characters.
    fn sorted(self) -> Self
        ensures { IsPermutation self result }
    {
        let mut runs = self.runs;
        let count = self.count;
        runs[..count].sort_unstable_by_key(|run| run.first);
        FewRuns { runs, count }
    }
}

/// Whether each run begins after the end of the previous one.
fn are_apart(runs: &[CharacterRun]) -> bool
    ensures { result ≡ begin_from 0 (runs_of runs.now) }
{
    let mut next = 0;
    for run in runs {
        if u64::from(run.first) < next {
            return false;
        }
        next = u64::from(run.last) + 1;
    }
    true
}
