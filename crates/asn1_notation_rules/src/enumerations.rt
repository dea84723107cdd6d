//! The numbers of the items of an ENUMERATED (X.680 20).
ghost use Rattle.std.specs.Prelude.{◌≡◌, [], IfErr, IfOk, MatchOption, MatchResult};
ghost use Rattle.asn1_notation_rules.specs.Enumerations.{AreNumbered, IsAddedFlaw, IsAddedNumber, IsFull};
ghost use Rattle.asn1_notation_rules.specs.Enumerations.{IsLowestFree, IsNextFree, IsNumberingError, IsRootFlaw};
ghost use Rattle.asn1_notation_rules.specs.Enumerations.{IsRootNumber, given_in, has_number, is_above, number_after};
ghost use Rattle.asn1_notation_rules.specs.Enumerations.{start_of};
ghost use Rattle.asn1_notation_rules.specs.declared.enumerations.ItemError.TheVariants.{OutOfMemory};

use std::alloc::{AllocError, AllocFailed, Global};
use thiserror::Error;

/// What is wrong with the number of an item.
#[derive(Clone, Copy, Debug, PartialEq, Eq, Error)]
pub enum ItemFlaw {
    /// It is given the number of a root item, of one before it where it is a root item too.
    #[error("its number is that of a root item")]
    Twice,
    /// It is added, and given a number that is not above that of the added item before it.
    #[error("its number is not above that of the added item before it")]
    NotAscending,
    /// It is given no number, and no number of 64 bits is left for it.
    #[error("there is no number for it")]
    NoNumber,
}

/// Why the items of an ENUMERATED are refused.
#[derive(Clone, Copy, Debug, PartialEq, Eq, Error)]
pub enum ItemError {
    /// The number of an item is wrong.
    #[error("item {index}: {flaw}")]
    Flawed {
        /// The index of the item among the root items, or among the added ones.
        index: usize,
        /// What is wrong with it.
        flaw: ItemFlaw,
    },
    /// Out of memory.
    #[error("out of memory")]
    OutOfMemory,
}

impl From<AllocError> for ItemError {
    ghost from_gives = { λ _ e. e ≡ OutOfMemory };

    fn from(_refused: AllocError) -> Self {
        ItemError::OutOfMemory
    }
}

impl<T: Drop> From<AllocFailed<T>> for ItemError {
    ghost from_gives = { λ _ e. e ≡ OutOfMemory };

    fn from(_refused: AllocFailed<T>) -> Self {
        ItemError::OutOfMemory
    }
}

/// The numbers of the root items (X.680 20.5). Each is given a number or none. One without gets the lowest number from
/// 0 on that no root item is given and none before it got. It takes as many comparisons as there are pairs of items.
///
/// # Errors
///
/// The first item that is given the number of one before it.
pub fn root_numbers(alloc: Global, items: &[Option<isize>]) -> Result<Vec<isize>, ItemError>
    ensures numbers { IfOk result (λ numbers. AreNumbered (IsRootNumber (given_in items.now)) [] items.now
        numbers.items) }
    ensures refused { IfErr result (λ e. IsNumberingError (IsRootNumber (given_in items.now))
        (IsRootFlaw (given_in items.now)) items.now e) }
{
    let given = given_numbers(alloc, items)?;
    let mut numbers = Vec::with_capacity(alloc, items.len())?;
    let mut next = Some(0);
    for (index, item) in items.iter().enumerate() {
        match root_number(given.as_slice(), numbers.as_slice(), next, *item) {
            Ok(number) => {
                numbers.push(number)?;
                if item.is_none() {
                    next = number_after(Some(number));
                }
            }
            Err(flaw) => return Err(ItemError::Flawed { index, flaw }),
        }
    }
    Ok(numbers)
}

/// The numbers of the added items (X.680 20.6), after the numbers of the root items. Each is given a number or none.
/// One without gets the lowest number that is above that of the added item before it, or from 0 on, and that no root
/// item has.
///
/// # Errors
///
/// The first item that is given the number of a root item, or one that is not above that of the added item before it.
pub fn added_numbers(
    alloc: Global,
    root: &[isize],
    items: &[Option<isize>],
) -> Result<Vec<isize>, ItemError>
    ensures numbers { IfOk result (λ numbers. AreNumbered (IsAddedNumber root.now) [] items.now numbers.items) }
    ensures refused { IfErr result (λ e. IsNumberingError (IsAddedNumber root.now) (IsAddedFlaw root.now) items.now e) }
{
    let mut numbers = Vec::with_capacity(alloc, items.len())?;
    for (index, item) in items.iter().enumerate() {
        match added_number(root, numbers.as_slice(), *item) {
            Ok(number) => numbers.push(number)?,
            Err(flaw) => return Err(ItemError::Flawed { index, flaw }),
        }
    }
    Ok(numbers)
}

/// The numbers that items are given.
fn given_numbers(alloc: Global, items: &[Option<isize>]) -> Result<Vec<isize>, AllocError>
    ensures { IfOk result (λ given. given.items ≡ given_in items.now) }
{
    let mut given = Vec::new(alloc);
    for item in items {
        match *item {
            Some(number) => given.push(number)?,
            None => {}
        }
    }
    Ok(given)
}

/// The number of a root item after those before it. The next number that may be free is none that one of them got.
fn root_number(
    given: &[isize],
    before: &[isize],
    next: Option<isize>,
    item: Option<isize>,
) -> Result<isize, ItemFlaw>
    requires { IsNextFree given.now before.now (start_of next) }
    ensures { MatchResult result (IsRootNumber given.now before.now item) (IsRootFlaw given.now before.now item) }
{
    match item {
        Some(number) => {
            if before.contains(&number) {
                return Err(ItemFlaw::Twice);
            }
            Ok(number)
        }
        None => lowest_free(given, next).ok_or(ItemFlaw::NoNumber),
    }
}

/// The number of an added item after those before it.
fn added_number(root: &[isize], before: &[isize], item: Option<isize>) -> Result<isize, ItemFlaw>
    ensures { MatchResult result (IsAddedNumber root.now before.now item) (IsAddedFlaw root.now before.now item) }
{
    let last = before.last().copied();
    match item {
        Some(number) => {
            if root.contains(&number) {
                return Err(ItemFlaw::Twice);
            }
            if !is_above(last, number) {
                return Err(ItemFlaw::NotAscending);
            }
            Ok(number)
        }
        None => lowest_free(root, number_after(last)).ok_or(ItemFlaw::NoNumber),
    }
}

/// Whether a number is above another, if there is one.
fn is_above(last: Option<isize>, number: isize) -> bool
    ensures { result ≡ is_above last number }
{
    match last {
        None => true,
        Some(last) => last < number,
    }
}

/// The first number above another, or 0. `None` if it has more than 64 bits.
fn number_after(last: Option<isize>) -> Option<isize>
    ensures { start_of result ≡ number_after last }
{
    match last {
        None => Some(0),
        Some(last) => last.checked_add(1),
    }
}

/// The lowest number of 64 bits, from one on, that is none of some others.
fn lowest_free(taken: &[isize], from: Option<isize>) -> Option<isize>
    ensures { MatchOption result (IsFull (has_number taken.now) (start_of from))
        (IsLowestFree (has_number taken.now) (start_of from)) }
{
    let mut number = from?;
    while taken.contains(&number) {
        number = number.checked_add(1)?;
    }
    Some(number)
}
