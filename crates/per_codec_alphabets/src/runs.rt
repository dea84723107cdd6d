//! Runs of characters, in the order of their indices.
ghost use Rattle.std.specs.Prelude.{◌≡◌, ◌<◌, ◌^◌, ◌+◌, ◌-◌, ◌++◌, ◌∷◌, [], IfOk, OnOk, Some, None, cond, nat_lt};
ghost use Rattle.asn1_model.specs.Strings.{characters_of, how_many, largest, place_of, sorted, is_in_run};
ghost use Rattle.asn1_model.specs.Strings.{is_of_octets as holds_octets};
ghost use Rattle.per_codec_alphabets.specs.Codes.{SameCharacters, AreKept, HasOneMore};
ghost use Rattle.per_codec_alphabets.specs.Codes.{run_of, runs_of, singles, kept, character_at as nth_character};
ghost use Rattle.per_codec_alphabets.specs.Codes.{SameCharacters};

use asn1_values_alphabets::StaticPermittedAlphabet;
use std::alloc::{AllocError, Global};

/// Characters with consecutive numbers.
#[derive(Clone, Copy, Debug, PartialEq, Eq)]
pub struct CharacterRun {
    /// The first character.
    pub first: u32,
    /// The last character.
    pub last: u32,
}

impl CharacterRun {
    /// The number of characters in the run.
    fn count(self) -> u64
        ensures { result ≡ self.last + 1 - self.first }
    {
        (u64::from(self.last) + 1).saturating_sub(u64::from(self.first))
    }

    /// The character at an index of the run, from 0.
    fn character(self, place: u64) -> Option<u32>
        ensures { result ≡ cond (nat_lt place (self.last + 1 - self.first)) (Some (self.first + place)) None }
    {
        if place < self.count() {
            Some(self.first + place as u32)
        } else {
            None
        }
    }

    /// Whether the character is in the run.
    fn contains(self, character: u32) -> bool
        ensures { result ≡ is_in_run character (run_of self) }
    {
        self.first <= character && character <= self.last
    }
}

const NUMERIC: [CharacterRun; 2] = [
    CharacterRun {
        first: 32,
        last: 32,
    },
    CharacterRun {
        first: 48,
        last: 57,
    },
];

const PRINTABLE: [CharacterRun; 7] = [
    CharacterRun {
        first: 32,
        last: 32,
    },
    CharacterRun {
        first: 39,
        last: 41,
    },
    CharacterRun {
        first: 43,
        last: 58,
    },
    CharacterRun {
        first: 61,
        last: 61,
    },
    CharacterRun {
        first: 63,
        last: 63,
    },
    CharacterRun {
        first: 65,
        last: 90,
    },
    CharacterRun {
        first: 97,
        last: 122,
    },
];

const VISIBLE: [CharacterRun; 1] = [CharacterRun {
    first: 32,
    last: 126,
}];

const IA5: [CharacterRun; 1] = [CharacterRun {
    first: 0,
    last: 127,
}];

const BMP: [CharacterRun; 1] = [CharacterRun {
    first: 0,
    last: 0xFFFF,
}];

const OCTETS: [CharacterRun; 1] = [CharacterRun {
    first: 0,
    last: 0xFF,
}];

/// The characters of a string type (X.680 41 and 43).
#[inline(always)]
pub fn own_runs<S: StaticPermittedAlphabet>() -> &'static [CharacterRun]
    ensures { runs_of result.now ≡ characters_of S.kind }
{
    if S::contains_char(0x100) {
        return &BMP;
    }
    if S::contains_char(0x80) {
        return &OCTETS;
    }
    if S::contains_char(0) {
        return &IA5;
    }
    if S::contains_char(126) {
        return &VISIBLE;
    }
    if S::contains_char(65) {
        return &PRINTABLE;
    }
    &NUMERIC
}

/// Whether a string type is not a known-multiplier one: its characters have no fixed width, so that a value holds
/// octets (X.691 30).
pub fn is_of_octets<S: StaticPermittedAlphabet>() -> bool
    ensures { result ≡ holds_octets S.kind }
{
    S::contains_char(0x80) && !S::contains_char(0x100)
}

/// The number of characters.
#[inline(always)]
pub fn count(runs: &[CharacterRun]) -> u64
    requires { how_many (runs_of runs.now) < 2 ^ 64 }
    ensures { result ≡ how_many (runs_of runs.now) }
{
    let mut count = 0;
    for run in runs {
        count += run.count();
    }
    count
}

/// The largest character, the last one in the given order.
#[inline(always)]
pub fn last_character(runs: &[CharacterRun]) -> u32
    ensures { result ≡ largest (runs_of runs.now) }
{
    match runs {
        [] => 0,
        [.., run] => run.last,
    }
}

/// The index of a character, from 0.
#[inline(always)]
pub fn place_among(runs: &[CharacterRun], character: u32) -> Option<u64>
    requires { how_many (runs_of runs.now) < 2 ^ 64 }
    ensures { result ≡ place_of character (runs_of runs.now) }
{
    let mut before = 0;
    for run in runs {
        if run.contains(character) {
            return Some(before + u64::from(character - run.first));
        }
        before += run.count();
    }
    None
}

/// The character at an index, from 0.
#[inline(always)]
pub fn character_at(runs: &[CharacterRun], place: u64) -> Option<u32>
    ensures { result ≡ nth_character (runs_of runs.now) place }
{
    let mut left = place;
    for run in runs {
        if let Some(character) = run.character(left) {
            return Some(character);
        }
        left -= run.count();
    }
    None
}

/// Adds a character after the others, to the last run if it is the next one.
fn push_character(runs: &mut Vec<CharacterRun>, character: u32) -> Result<(), AllocError>
    ensures { OnOk result (HasOneMore (runs_of runs.old.items) character (runs_of runs.new.items)) }
{
    let single = CharacterRun {
        first: character,
        last: character,
    };
    let Some(run) = runs.pop() else {
        runs.push(single)?;
        return Ok(());
    };
    if run.last.checked_add(1) == Some(character) && run.first <= character {
        runs.push(CharacterRun {
            first: run.first,
            last: character,
        })?;
        return Ok(());
    }
    runs.push(run)?;
    runs.push(single)?;
    Ok(())
}

/// Those of the characters that a string type has, in the given order.
fn listed_runs<S: StaticPermittedAlphabet>(
    alloc: Global,
    characters: &[u32],
) -> Result<Vec<CharacterRun>, AllocError>
    ensures few { IfOk result (λ runs. how_many (runs_of runs.items) < 2 ^ 64) }
    ensures characters { IfOk result (λ v. SameCharacters (runs_of v.items) (singles (kept S.kind characters.now))) }
{
    let count = characters.len();
    let mut runs = Vec::with_capacity(alloc, count)?;
    for character in characters {
        if S::contains_char(*character) {
            push_character(&mut runs, *character)?;
        }
    }
    Ok(runs)
}

/// Those of the characters that a string type has, sorted in ascending order, without duplicates.
fn sorted_runs<S: StaticPermittedAlphabet>(
    alloc: Global,
    characters: &[u32],
) -> Result<Vec<CharacterRun>, AllocError>
    ensures few { IfOk result (λ runs. how_many (runs_of runs.items) < 2 ^ 64) }
    ensures characters { IfOk result (λ runs. AreKept S.kind characters.now (runs_of runs.items)) }
{
    let mut ascending = Vec::from_slice(alloc, characters)?;
    ascending.sort_unstable();
    ascending.dedup();
    listed_runs::<S>(alloc, ascending.as_slice())
}

/// Those of the characters that a string type has, in ascending order, without duplicates (X.691 30.5.2). If they are
/// listed so, they are not copied.
///
/// # Errors
///
/// `AllocError` if memory ran out.
pub fn kept_runs<S: StaticPermittedAlphabet>(
    alloc: Global,
    characters: &[u32],
) -> Result<Vec<CharacterRun>, AllocError>
    ensures few { IfOk result (λ runs. how_many (runs_of runs.items) < 2 ^ 64) }
    ensures characters { IfOk result (λ runs. AreKept S.kind characters.now (runs_of runs.items)) }
{
    let count = characters.len();
    let mut runs = Vec::with_capacity(alloc, count)?;
    let mut next = 0;
    for character in characters {
        if S::contains_char(*character) {
            if u64::from(*character) < next {
                return sorted_runs::<S>(alloc, characters);
            }
            next = u64::from(*character) + 1;
            push_character(&mut runs, *character)?;
        }
    }
    Ok(runs)
}
