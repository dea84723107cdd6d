//! Why there is no table.
ghost use Rattle.std.specs.Prelude.{◌≡◌};
ghost use Rattle.asn1_module_order.specs.declared.errors.ModuleError.TheVariants.{OutOfMemory};

use std::alloc::{AllocError, AllocFailed};

/// Why there is no table of a type, or no pair of an older and a newer version.
#[derive(Debug, Drop)]
pub enum ModuleError {
    /// Something is wrong at an octet of a module's text.
    Text {
        /// The index of the file.
        file: usize,
        /// The octet, from 0.
        offset: usize,
        /// What is wrong.
        problem: String,
    },
    /// No module has the type.
    NoType {
        /// What is wrong.
        problem: String,
    },
    /// The newer version of the type does not extend the older one.
    NotExtended {
        /// Which types on the way differ, and how.
        problem: String,
    },
    /// Memory ran out.
    OutOfMemory,
}

impl From<AllocError> for ModuleError {
    ghost from_gives = { λ _ e. e ≡ OutOfMemory };

    fn from(_refused: AllocError) -> Self {
        ModuleError::OutOfMemory
    }
}

impl<T: Drop> From<AllocFailed<T>> for ModuleError {
    ghost from_gives = { λ _ e. e ≡ OutOfMemory };

    fn from(_refused: AllocFailed<T>) -> Self {
        ModuleError::OutOfMemory
    }
}
