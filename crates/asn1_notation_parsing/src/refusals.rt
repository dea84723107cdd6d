//! Why a part of a text is not read.
ghost use Rattle.std.specs.Prelude.{◌≡◌};
ghost use Rattle.asn1_notation_parsing.specs.declared.refusals.Refusal.TheVariants.{OutOfMemory};

use asn1_notation_tree::Expected;
use std::alloc::{AllocError, AllocFailed};

/// Why a part of a text is not read, by the index of the lexical item at fault.
#[derive(Clone, Copy)]
pub enum Refusal {
    /// The item is not what the notation asks for.
    Unexpected(Expected, usize),
    /// The nesting is too deep.
    TooDeep(usize),
    /// Memory ran out.
    OutOfMemory,
}

impl<T: Drop> From<AllocFailed<T>> for Refusal {
    ghost from_gives = { λ _ e. e ≡ OutOfMemory };

    fn from(_refused: AllocFailed<T>) -> Refusal {
        Refusal::OutOfMemory
    }
}

impl From<AllocError> for Refusal {
    ghost from_gives = { λ _ e. e ≡ OutOfMemory };

    fn from(_refused: AllocError) -> Refusal {
        Refusal::OutOfMemory
    }
}

/// What is read; or the first lexical item that the notation does not allow there, or that is nested too deep, or that
/// memory ran out.
pub type Parsed<T> = Result<T, Refusal>;
