//! Bounds of numbers and of sizes (X.680 51.4 and 51.5, X.691 10.3, X.696 8.2).
ghost use Rattle.std.specs.Prelude.{◌≡◌, ◌^◌, ◌≤ℤ◌, pos, IfErr, IfOk, MatchOption, MatchResult};
ghost use Rattle.asn1_schema_constraints.specs.Bounds.{counts_of, lower, upper};
ghost use Rattle.asn1_notation_constraints.specs.Bounds.{AreLimits, AreSizes, HasNoSize};
ghost use Rattle.asn1_notation_constraints.specs.Bounds.{IsEmpty, IsSizeError, IsSizeHull};
ghost use Rattle.asn1_notation_constraints.specs.Bounds.{has_limit};
ghost use Rattle.asn1_notation_constraints.specs.declared.bounds.BoundsError.TheVariants.{Empty, OutOfMemory, TooLarge};

use crate::Visible;
use asn1_notation_intervals::{Interval, NumberSet};
use asn1_schema_constraints::{Bounded, Sizes};
use std::alloc::{AllocError, Global};
use thiserror::Error;

/// The effective value constraint of an INTEGER: the bounds of the numbers of the root, and whether there is an
/// extension marker (X.680 51.4 and 52).
#[derive(Clone, Copy, Debug, PartialEq, Eq)]
pub struct Limits {
    /// The bounds of the root.
    pub root: Bounded<i128>,
    /// Whether there is an extension marker.
    pub is_extensible: bool,
}

/// Why a constraint gives no bounds.
#[derive(Clone, Copy, Debug, PartialEq, Eq, Error)]
pub enum BoundsError {
    /// It admits nothing.
    #[error("the constraint admits nothing")]
    Empty,
    /// A size has more than 64 bits.
    #[error("a size is too large")]
    TooLarge,
    /// Out of memory.
    #[error("out of memory")]
    OutOfMemory,
}

impl From<AllocError> for BoundsError {
    ghost from_gives = { λ _ e. e ≡ OutOfMemory };

    fn from(_refused: AllocError) -> Self {
        BoundsError::OutOfMemory
    }
}

/// The effective value constraint of an INTEGER: the least and the greatest number of the root. `None` if there is
/// neither a least nor a greatest number, and no extension marker.
///
/// # Errors
///
/// `Empty` exactly if no number is admitted.
pub fn number_limits(visible: &Visible) -> Result<Option<Limits>, BoundsError>
    ensures limits { IfOk result (AreLimits visible.now) }
    ensures refused { IfErr result (λ e. (e ≡ Empty) × IsEmpty visible.now.numbers) }
{
    let Some(hull) = visible.numbers.hull() else {
        return Err(BoundsError::Empty);
    };
    if !has_limit(hull.low, hull.high, visible.is_extensible) {
        return Ok(None);
    }
    Ok(Some(Limits {
        root: bounded(hull.low, hull.high),
        is_extensible: visible.is_extensible,
    }))
}

/// Whether there is an end or an extension marker.
fn has_limit(low: Option<i128>, high: Option<i128>, is_extensible: bool) -> bool
    ensures { result ≡ has_limit low high is_extensible }
{
    low.is_some() || high.is_some() || is_extensible
}

/// Bounds by their ends.
fn bounded(low: Option<i128>, high: Option<i128>) -> Bounded<i128>
    ensures low { lower result ≡ low }
    ensures high { upper result ≡ high }
{
    match (low, high) {
        (None, None) => Bounded::None,
        (Some(low), Some(high)) if low == high => Bounded::Single(high),
        (start, end) => Bounded::Range { start, end },
    }
}

/// The effective size constraint: the least and the greatest size of the root, and whether there is an extension
/// marker. Sizes below 0 do not count.
///
/// # Errors
///
/// `Empty` exactly if no size is admitted, `TooLarge` if the least or the greatest one has more than 64 bits.
pub fn size_limits(alloc: Global, visible: &Visible) -> Result<Sizes, BoundsError>
    ensures sizes { IfOk result (AreSizes visible.now) }
    ensures refused { IfErr result (IsSizeError visible.now.numbers) }
{
    let Some(hull) = hull_of_sizes(alloc, &visible.numbers)? else {
        return Err(BoundsError::Empty);
    };
    let low = match hull.low {
        None => 0,
        Some(low) => size_of(low)?,
    };
    let high = match hull.high {
        None => None,
        Some(high) => Some(size_of(high)?),
    };
    Ok(Sizes {
        root: counted(low, high),
        is_extensible: visible.is_extensible,
    })
}

/// The least and the greatest number from 0 on of a set.
fn hull_of_sizes(alloc: Global, numbers: &NumberSet) -> Result<Option<Interval>, AllocError>
    ensures { IfOk result (λ hull. MatchOption hull (HasNoSize numbers.now) (IsSizeHull numbers.now)) }
{
    let from_zero = Interval {
        low: Some(0),
        high: None,
    };
    let sizes = NumberSet::of(alloc, &[from_zero])?;
    let sizes = numbers.intersection(alloc, &sizes)?;
    Ok(sizes.hull())
}

/// A number as a size.
fn size_of(number: i128) -> Result<usize, BoundsError>
    ensures { MatchResult result (λ size. pos size ≡ number)
        (λ e. (e ≡ TooLarge) × (pos 0 ≤ℤ number → pos (2 ^ 64) ≤ℤ number)) }
{
    usize::try_from(number).map_err(|_| BoundsError::TooLarge)
}

/// Bounds of sizes by their ends.
fn counted(low: usize, high: Option<usize>) -> Bounded<usize>
    ensures { counts_of result ≡ record { low = low; high = high } }
{
    match high {
        None if low == 0 => Bounded::None,
        None => Bounded::Range {
            start: Some(low),
            end: None,
        },
        Some(high) if low == high => Bounded::Single(high),
        Some(high) => Bounded::Range {
            start: Some(low),
            end: Some(high),
        },
    }
}
