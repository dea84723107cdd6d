//! Permitted alphabets (X.680 51.7).
ghost use Rattle.std.specs.Prelude.{◌≡◌, ◌+◌, ◌-◌, ◌<◌, ◌≤◌, ◌^◌, ◌++◌, pos};
ghost use Rattle.std.specs.Prelude.{false, length, IfErr, IfOk, MatchOption, OnOk, Some};
ghost use Rattle.std.specs.List.{range_with_len};
ghost use Rattle.asn1_notation_constraints.specs.Alphabets.{AreCharacters, IsAlphabetError, are_character_ends};
ghost use Rattle.asn1_notation_constraints.specs.declared.alphabets.AlphabetError.TheVariants.{OutOfMemory};

use asn1_notation_intervals::{Interval, NumberSet};
use std::alloc::{AllocError, AllocFailed, Global};
use thiserror::Error;

/// Why a set of numbers gives no list of characters.
#[derive(Clone, Copy, Debug, PartialEq, Eq, Error)]
pub enum AlphabetError {
    /// A number is no character: it is below 0 or has more than 32 bits.
    #[error("a number is no character")]
    NoCharacter,
    /// There are more characters than may be listed.
    #[error("too many characters")]
    TooMany,
    /// Out of memory.
    #[error("out of memory")]
    OutOfMemory,
}

impl From<AllocError> for AlphabetError {
    ghost from_gives = { λ _ e. e ≡ OutOfMemory };

    fn from(_refused: AllocError) -> Self {
        AlphabetError::OutOfMemory
    }
}

impl<T: Drop> From<AllocFailed<T>> for AlphabetError {
    ghost from_gives = { λ _ e. e ≡ OutOfMemory };

    fn from(_refused: AllocFailed<T>) -> Self {
        AlphabetError::OutOfMemory
    }
}

/// The characters of a permitted alphabet by their numbers, in the order of the set's intervals (X.680 51.7), at most
/// as many as given.
///
/// # Errors
///
/// `NoCharacter` if a number is below 0 or has more than 32 bits, `TooMany` if there are more characters.
pub fn characters(alloc: Global, set: &NumberSet, most: usize) -> Result<Vec<u32>, AlphabetError>
    ensures characters { IfOk result (λ characters. AreCharacters set.now most characters.items) }
    ensures refused { IfErr result (IsAlphabetError set.now most) }
{
    let mut characters = Vec::new(alloc);
    for interval in set.intervals() {
        match ends_of(*interval) {
            None => return Err(AlphabetError::NoCharacter),
            Some(ends) => {
                let count = count_between(ends.0, ends.1);
                if most - characters.len() < count {
                    return Err(AlphabetError::TooMany);
                }
                push_run(&mut characters, ends.0, count)?;
            }
        }
    }
    Ok(characters)
}

/// Adds characters, from one on.
fn push_run(characters: &mut Vec<u32>, first: u32, count: usize) -> Result<(), AllocError>
    requires { first + count ≤ 2 ^ 32 }
    ensures { OnOk result (characters.new.items ≡ characters.old.items ++ range_with_len first count) }
{
    for offset in 0..count {
        characters.push(first + offset as u32)?;
    }
    Ok(())
}

/// How many characters there are from one to another.
fn count_between(first: u32, last: u32) -> usize
    requires { first ≤ last }
    ensures { result ≡ last - first + 1 }
{
    (last - first) as usize + 1
}

/// The ends of an interval, if they are characters.
fn ends_of(interval: Interval) -> Option<(u32, u32)>
    ensures { MatchOption result (are_character_ends interval.low interval.high ≡ false)
        (λ ends. (interval.low ≡ Some (pos ends.0)) × (interval.high ≡ Some (pos ends.1))) }
{
    let first = u32::try_from(interval.low?).ok()?;
    let last = u32::try_from(interval.high?).ok()?;
    Some((first, last))
}
