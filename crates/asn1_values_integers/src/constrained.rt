// Integers within a range.
ghost use Rattle.asn1_values_integers.specs.Constrained.{IsConstrained, constrained_number};
ghost use Rattle.std.specs.Prelude.{◌≡◌, ◌^◌, ◌<◌};
ghost use Rattle.asn1_values_natives.specs.Octets.{plain};

use crate::ends::{Between, Ends, Ordered};
use crate::{Integer, TryFromIntegerError};
use std::alloc::AllocError;
use std::marker::PhantomData;
use std::ops::Deref;

/// An integer from `START` to `END` (X.680 51.4).
pub type ConstrainedInteger<const START: i64, const END: i64> = RangedInteger<Between<START, END>>;

/// An integer from `R::START` to `R::END` (X.680 51.4); `R::START` is at most `R::END`.
#[derive(Drop)]
#[derive_where(Debug, PartialEq, Eq, PartialOrd, Ord, Hash)]
pub struct RangedInteger<R: Ends> {
    number: Integer,
    #[derive_where(skip)]
    order: Ordered<R>,
}

impl<R: Ends> RangedInteger<R> {
    fn within(value: i128) -> Result<Self, TryFromIntegerError>
        ensures { IsConstrained R.START R.END value result }
    {
        if value < R::START as i128 || value > R::END as i128 {
            return Err(TryFromIntegerError::new(value));
        }
        Ok(RangedInteger {
            number: Integer::from_i128(value),
            order: Ordered { ends: PhantomData },
        })
    }
}

/// The same number. Cloning never allocates, as 129 bits of two's complement hold each number of the range.
impl<R: Ends> Clone for RangedInteger<R> {
    ghost is_clone = { λ c copy. constrained_number copy ≡ constrained_number c };

    ghost is_infallible = { λ c. plain (constrained_number c) < 2 ^ 128 };

    fn clone(&self) -> Result<Self, AllocError> {
        Ok(RangedInteger {
            number: self.number.clone()?,
            order: Ordered { ends: PhantomData },
        })
    }
}

impl<R: Ends> Deref for RangedInteger<R> {
    type Target = Integer;

    ghost deref_gives = { λ c z. z ≡ constrained_number c };

    fn deref(&self) -> &Integer {
        &self.number
    }
}

impl<R: Ends> TryFrom<i32> for RangedInteger<R> {
    type Error = TryFromIntegerError;

    ghost try_from_gives = { λ z r. IsConstrained R.START R.END z r };

    fn try_from(value: i32) -> Result<Self, TryFromIntegerError> {
        RangedInteger::within(value as i128)
    }
}

impl<R: Ends> TryFrom<i64> for RangedInteger<R> {
    type Error = TryFromIntegerError;

    ghost try_from_gives = { λ z r. IsConstrained R.START R.END z r };

    fn try_from(value: i64) -> Result<Self, TryFromIntegerError> {
        RangedInteger::within(value as i128)
    }
}

impl<R: Ends> TryFrom<isize> for RangedInteger<R> {
    type Error = TryFromIntegerError;

    ghost try_from_gives = { λ z r. IsConstrained R.START R.END z r };

    fn try_from(value: isize) -> Result<Self, TryFromIntegerError> {
        RangedInteger::within(value as i128)
    }
}

impl<R: Ends> TryFrom<i128> for RangedInteger<R> {
    type Error = TryFromIntegerError;

    ghost try_from_gives = { λ z r. IsConstrained R.START R.END z r };

    fn try_from(value: i128) -> Result<Self, TryFromIntegerError> {
        RangedInteger::within(value)
    }
}
