// The bounds of a range of integers, as types.
ghost use Rattle.std.specs.Prelude.{◌≡◌, ℤ, true};
ghost use Rattle.asn1_model.specs.Numbers.{is_at_most};

use std::marker::PhantomData;

/// The bounds of a range of integers, as a type (X.680 51.4).
pub trait Ends {
    ghost START: { ℤ };

    ghost END: { ℤ };

    /// The least number of the range.
    const START: i64;

    /// The greatest number of the range.
    const END: i64;
}

/// The bounds `START` and `END`.
#[derive(Debug, Drop)]
pub struct Between<const START: i64, const END: i64>;

impl<const START: i64, const END: i64> Ends for Between<START, END> {
    ghost START = { START };

    ghost END = { END };

    const START: i64 = START;

    const END: i64 = END;
}

/// A proof that `START` is at most `END`, so that the range is not empty.
#[derive(Drop)]
pub(crate) struct Ordered<R: Ends> {
    pub(crate) ends: PhantomData<R>,
    pub ghost is_ordered: { is_at_most R.START R.END ≡ true },
}
