//! What all trials have in common.
use std::alloc::{AllocError, Global};

/// The outcome of a call.
#[derive(Clone, Copy, Debug, PartialEq, Eq)]
pub enum Outcome {
    /// The same result as with enough memory.
    Ample,
    /// The call ran out of memory, and left the promised state.
    Wanting,
    /// Neither.
    Wrong,
}

impl Outcome {
    /// The outcome of a call that did not run out of memory. `is_right`: its result is that with enough memory.
    pub fn of(is_right: bool) -> Outcome {
        if is_right {
            Outcome::Ample
        } else {
            Outcome::Wrong
        }
    }

    /// The outcome of a call that ran out of memory. `is_right`: it left the promised state.
    pub fn of_want(is_right: bool) -> Outcome {
        if is_right {
            Outcome::Wanting
        } else {
            Outcome::Wrong
        }
    }
}

/// A call that takes memory, with everything that it needs.
pub trait Trial: Drop + Sized {
    /// Selects one of several calls.
    type Plan: Copy;

    /// Prepares what the call needs. This takes memory too.
    ///
    /// # Errors
    ///
    /// If memory runs out.
    fn begin(alloc: Global, plan: Self::Plan) -> Result<Self, AllocError>;

    /// Makes the call.
    fn call(&mut self) -> Outcome;

    /// Repeats the call, with enough memory, after one that ran out of memory. Returns whether the result is that with
    /// enough memory, or, if the first call stopped its object, whether the object reports that.
    fn again(&mut self) -> bool;
}

/// Whether a call returns the same result as with enough memory.
pub fn is_ample<T: Trial>(alloc: Global, plan: T::Plan) -> bool {
    match T::begin(alloc, plan) {
        Ok(mut trial) => trial.call() == Outcome::Ample,
        Err(AllocError) => false,
    }
}

/// Whether a call returns the same result as with enough memory, or runs out of memory and is then right once repeated.
pub fn is_right_at_last<T: Trial>(trial: &mut T) -> bool {
    match trial.call() {
        Outcome::Ample => true,
        Outcome::Wanting => trial.again(),
        Outcome::Wrong => false,
    }
}
