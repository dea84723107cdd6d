//! What PER and OER see of constraints (X.680 50 to 52, X.691 10.3, X.696 8.2).
ghost use Rattle.std.specs.Prelude.{◌≡◌, ℤ, true, false, [], length, map, IfErr, IfOk, MatchOption, OnOk};
ghost use Rattle.std.specs.List.{list_all, list_any};
ghost use Rattle.asn1_notation_intervals.specs.Ends.{is_between};
ghost use Rattle.asn1_notation_intervals.specs.Sets.{is_in};
ghost use Rattle.asn1_notation_constraints.specs.Constraints.{AreInPlace, IsConstraintError, IsMissing, IsTableError};
ghost use Rattle.asn1_notation_constraints.specs.Constraints.{admits, all_visible, any_extensible};
ghost use Rattle.asn1_notation_constraints.specs.Constraints.{any_visible, are_below};
ghost use Rattle.asn1_notation_constraints.specs.Constraints.{at, each_in_turn, effective_sight, effectively_admits};
ghost use Rattle.asn1_notation_constraints.specs.Constraints.{ends_extensible, meet_sight, refers_back};
ghost use Rattle.asn1_notation_constraints.specs.Constraints.{sight, sight_of};
ghost use Rattle.asn1_notation_constraints.specs.Constraints.{union_sight};
ghost use Rattle.asn1_notation_constraints.specs.declared.constraints.ConstraintError.TheVariants.{OutOfMemory};

use asn1_notation_intervals::{Interval, NumberSet};
use std::alloc::{AllocError, AllocFailed, Global};
use thiserror::Error;

/// A part of a constraint on numbers, sizes or characters, in a table. A part names others by their indices in the
/// table, and they come before it.
#[derive(Drop)]
pub enum ConstraintTerm {
    /// A single value or a range, in which MIN and MAX are missing ends (X.680 51.2 and 51.4).
    Range(Interval),
    /// A constraint that PER and OER do not see, such as a pattern, a user-defined or a table constraint (X.691 10.3,
    /// X.696 8.2). It admits all.
    Hidden,
    /// What one of some parts admits (X.680 50).
    Union(Vec<usize>),
    /// What all of some parts admit (X.680 50).
    Intersection(Vec<usize>),
    /// A part, and EXCEPT another, which PER and OER ignore (X.691 10.3, X.696 8.2).
    Except(usize, usize),
    /// ALL EXCEPT a part, which PER and OER ignore likewise: it admits all.
    AllExcept(usize),
    /// A root and an extension marker, after which there may be additions; PER and OER see those of the root (X.680 52,
    /// X.691 10.3).
    Extensible {
        /// The root.
        root: usize,
        /// The additions.
        additions: Option<usize>,
    },
}

/// What PER and OER see of a constraint.
#[derive(Drop)]
pub struct Visible {
    /// What it admits in its root; all that there is if it is not visible.
    pub numbers: NumberSet,
    /// Whether it is visible.
    pub is_visible: bool,
    /// Whether it is visible and has an extension marker.
    pub is_extensible: bool,
}

/// Why constraints are refused.
#[derive(Clone, Copy, Debug, PartialEq, Eq, Error)]
pub enum ConstraintError {
    /// A part names one that does not come before it.
    #[error("part {0} of a constraint names a later one")]
    PartOutOfPlace(usize),
    /// There is no part with the index of a constraint.
    #[error("there is no constraint {0}")]
    PartMissing(usize),
    /// Out of memory.
    #[error("out of memory")]
    OutOfMemory,
}

impl From<AllocError> for ConstraintError {
    ghost from_gives = { λ _ e. e ≡ OutOfMemory };

    fn from(_refused: AllocError) -> Self {
        ConstraintError::OutOfMemory
    }
}

impl<T: Drop> From<AllocFailed<T>> for ConstraintError {
    ghost from_gives = { λ _ e. e ≡ OutOfMemory };

    fn from(_refused: AllocFailed<T>) -> Self {
        ConstraintError::OutOfMemory
    }
}

/// What PER and OER see of constraints that are applied one after the other (X.680 50.8, X.691 10.3, X.696 8.2): the
/// constraints are parts of a table, that of the parent type first. All roots together say what is admitted. Only the
/// marker of the last constraint counts, where this is visible.
///
/// # Errors
///
/// The index of the first part that names one that is not before it, else the index of the first constraint that names
/// no part; or out of memory.
pub fn effective(
    alloc: Global,
    terms: &[ConstraintTerm],
    constraints: &[usize],
) -> Result<Visible, ConstraintError>
    ensures numbers { IfOk result (λ v. (z : ℤ) → is_in v.numbers z ≡ effectively_admits z terms.now constraints.now) }
    ensures sight { IfOk result (λ v. sight_of v ≡ effective_sight terms.now constraints.now) }
    ensures refused { IfErr result (IsConstraintError terms.now constraints.now) }
{
    let parts = visible_parts(alloc, terms)?;
    if let Some(index) = first_missing(parts.len(), constraints) {
        return Err(ConstraintError::PartMissing(index));
    }
    let all = meet_of(alloc, parts.as_slice(), constraints)?;
    let is_extensible = is_last_extensible(parts.as_slice(), constraints);
    Ok(Visible {
        numbers: all.numbers,
        is_visible: all.is_visible,
        is_extensible,
    })
}

/// The index of the first constraint that names no part.
fn first_missing(count: usize, constraints: &[usize]) -> Option<usize>
    ensures { MatchOption result (are_below count constraints.now ≡ true) (IsMissing count constraints.now) }
{
    for (index, constraint) in constraints.iter().enumerate() {
        if *constraint >= count {
            return Some(index);
        }
    }
    None
}

/// Whether the last constraint has an extension marker.
fn is_last_extensible(parts: &[Visible], constraints: &[usize]) -> bool
    requires { are_below (length parts.now) constraints.now ≡ true }
    ensures { result ≡ ends_extensible (map sight_of parts.now) constraints.now }
{
    match constraints {
        [] => false,
        [.., last] => parts[*last].is_extensible,
    }
}

/// What PER and OER see of each part of a table.
fn visible_parts(alloc: Global, terms: &[ConstraintTerm]) -> Result<Vec<Visible>, ConstraintError>
    ensures numbers { IfOk result (λ parts. (z : ℤ) → map (λ p. is_in p.numbers z) parts.items
        ≡ each_in_turn (admits z) [] terms.now) }
    ensures sight { IfOk result (λ parts. map sight_of parts.items ≡ each_in_turn sight [] terms.now) }
    ensures count { IfOk result (λ parts. length parts.items ≡ length terms.now) }
    ensures in_place { OnOk result (AreInPlace terms.now (length terms.now)) }
    ensures refused { IfErr result (IsTableError terms.now) }
{
    let mut parts = Vec::with_capacity(alloc, terms.len())?;
    for (index, term) in terms.iter().enumerate() {
        if !refers_back(index, term) {
            return Err(ConstraintError::PartOutOfPlace(index));
        }
        let part = visible_part(alloc, parts.as_slice(), term)?;
        parts.push(part)?;
    }
    Ok(parts)
}

/// Whether a part names only parts before an index.
fn refers_back(index: usize, term: &ConstraintTerm) -> bool
    ensures { result ≡ refers_back index term.now }
{
    match term {
        ConstraintTerm::Range(_) => true,
        ConstraintTerm::Hidden => true,
        ConstraintTerm::Union(parts) => are_below(index, parts.as_slice()),
        ConstraintTerm::Intersection(parts) => are_below(index, parts.as_slice()),
        ConstraintTerm::Except(part, excluded) => *part < index && *excluded < index,
        ConstraintTerm::AllExcept(excluded) => *excluded < index,
        ConstraintTerm::Extensible {
            root,
            additions: None,
        } => *root < index,
        ConstraintTerm::Extensible {
            root,
            additions: Some(additions),
        } => *root < index && *additions < index,
    }
}

/// Whether all indices are below one.
fn are_below(index: usize, parts: &[usize]) -> bool
    ensures { result ≡ are_below index parts.now }
{
    for part in parts {
        if *part >= index {
            return false;
        }
    }
    true
}

/// What PER and OER see of a part, which names only parts before it.
fn visible_part(
    alloc: Global,
    parts: &[Visible],
    term: &ConstraintTerm,
) -> Result<Visible, AllocError>
    requires { refers_back (length parts.now) term.now ≡ true }
    ensures numbers { IfOk result (λ v. (z : ℤ) → is_in v.numbers z
        ≡ admits z (map (λ p. is_in p.numbers z) parts.now) term.now) }
    ensures sight { IfOk result (λ v. sight_of v ≡ sight (map sight_of parts.now) term.now) }
{
    match term {
        ConstraintTerm::Range(interval) => whole(alloc, *interval, true),
        ConstraintTerm::Hidden => whole(alloc, Interval::ALL, false),
        ConstraintTerm::Union(of) => union_of(alloc, parts, of.as_slice()),
        ConstraintTerm::Intersection(of) => meet_of(alloc, parts, of.as_slice()),
        ConstraintTerm::Except(part, _) => {
            let part = &parts[*part];
            copy_of(alloc, part, part.is_extensible)
        }
        ConstraintTerm::AllExcept(_) => whole(alloc, Interval::ALL, true),
        ConstraintTerm::Extensible { root, .. } => {
            let part = &parts[*root];
            copy_of(alloc, part, part.is_visible)
        }
    }
}

/// An interval, as what is seen.
fn whole(alloc: Global, interval: Interval, is_visible: bool) -> Result<Visible, AllocError>
    ensures numbers { IfOk result (λ v. (z : ℤ) → is_in v.numbers z ≡ is_between interval z) }
    ensures sight { IfOk result (λ v. sight_of v ≡ record { is_visible = is_visible; is_extensible = false }) }
{
    let numbers = NumberSet::of(alloc, &[interval])?;
    Ok(Visible {
        numbers,
        is_visible,
        is_extensible: false,
    })
}

/// The same as a part, with an extension marker or without.
fn copy_of(alloc: Global, part: &Visible, is_extensible: bool) -> Result<Visible, AllocError>
    ensures numbers { IfOk result (λ v. (z : ℤ) → is_in v.numbers z ≡ is_in part.now.numbers z) }
    ensures sight { IfOk result (λ v. sight_of v
        ≡ record { is_visible = part.now.is_visible; is_extensible = is_extensible }) }
{
    let numbers = NumberSet::of(alloc, part.numbers.intervals())?;
    Ok(Visible {
        numbers,
        is_visible: part.is_visible,
        is_extensible,
    })
}

/// A union of parts, which is visible where all of them are.
fn union_of(alloc: Global, parts: &[Visible], of: &[usize]) -> Result<Visible, AllocError>
    requires { are_below (length parts.now) of.now ≡ true }
    ensures numbers { IfOk result (λ v. (z : ℤ) → is_in v.numbers z
        ≡ list_any (at (map (λ p. is_in p.numbers z) parts.now)) of.now) }
    ensures sight { IfOk result (λ v. sight_of v ≡ union_sight (map sight_of parts.now) of.now) }
{
    let numbers = union_numbers(alloc, parts, of)?;
    let is_visible = are_all_visible(parts, of);
    let has_marker = is_any_extensible(parts, of);
    Ok(Visible {
        numbers,
        is_visible,
        is_extensible: is_visible && has_marker,
    })
}

/// An intersection of parts, which is visible where one of them is.
fn meet_of(alloc: Global, parts: &[Visible], of: &[usize]) -> Result<Visible, AllocError>
    requires { are_below (length parts.now) of.now ≡ true }
    ensures numbers { IfOk result (λ v. (z : ℤ) → is_in v.numbers z
        ≡ list_all (at (map (λ p. is_in p.numbers z) parts.now)) of.now) }
    ensures sight { IfOk result (λ v. sight_of v ≡ meet_sight (map sight_of parts.now) of.now) }
{
    let numbers = meet_numbers(alloc, parts, of)?;
    let is_visible = is_any_visible(parts, of);
    let is_extensible = is_any_extensible(parts, of);
    Ok(Visible {
        numbers,
        is_visible,
        is_extensible,
    })
}

/// What one of some parts admits.
fn union_numbers(alloc: Global, parts: &[Visible], of: &[usize]) -> Result<NumberSet, AllocError>
    requires { are_below (length parts.now) of.now ≡ true }
    ensures { IfOk result (λ set. (z : ℤ) → is_in set z
        ≡ list_any (at (map (λ p. is_in p.numbers z) parts.now)) of.now) }
{
    let mut intervals = Vec::new(alloc);
    for index in of {
        intervals.extend_from_slice(parts[*index].numbers.intervals())?;
    }
    NumberSet::of(alloc, intervals.as_slice())
}

/// What all of some parts admit.
fn meet_numbers(alloc: Global, parts: &[Visible], of: &[usize]) -> Result<NumberSet, AllocError>
    requires { are_below (length parts.now) of.now ≡ true }
    ensures { IfOk result (λ set. (z : ℤ) → is_in set z
        ≡ list_all (at (map (λ p. is_in p.numbers z) parts.now)) of.now) }
{
    let mut numbers = NumberSet::of(alloc, &[Interval::ALL])?;
    for index in of {
        numbers = numbers.intersection(alloc, &parts[*index].numbers)?;
    }
    Ok(numbers)
}

/// Whether all of some parts are visible.
fn are_all_visible(parts: &[Visible], of: &[usize]) -> bool
    requires { are_below (length parts.now) of.now ≡ true }
    ensures { result ≡ all_visible (map sight_of parts.now) of.now }
{
    for index in of {
        if !parts[*index].is_visible {
            return false;
        }
    }
    true
}

/// Whether one of some parts is visible.
fn is_any_visible(parts: &[Visible], of: &[usize]) -> bool
    requires { are_below (length parts.now) of.now ≡ true }
    ensures { result ≡ any_visible (map sight_of parts.now) of.now }
{
    for index in of {
        if parts[*index].is_visible {
            return true;
        }
    }
    false
}

/// Whether one of some parts has an extension marker.
fn is_any_extensible(parts: &[Visible], of: &[usize]) -> bool
    requires { are_below (length parts.now) of.now ≡ true }
    ensures { result ≡ any_extensible (map sight_of parts.now) of.now }
{
    for index in of {
        if parts[*index].is_extensible {
            return true;
        }
    }
    false
}
