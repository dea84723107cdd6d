//! Helpers of the tests.
use std::alloc::{AllocError, Global};
use std::fmt::{Debug, Display};
use std::process::Abort;

/// Ends the test with `wrong` in its message, if there is one. A function, so that this is proved once and not at each
/// call.
pub fn assert_none<T: Debug>(rt: &impl Abort, wrong: &Option<T>) {
    assert!(rt; wrong.is_none(), "{wrong:?}");
}

/// Whether a value is printed as this text by `Debug`.
pub fn is_shown<T: Debug>(alloc: Global, value: &T, text: &str) -> bool {
    match format!(in alloc; "{value:?}") {
        Ok(shown) => shown.as_str() == text,
        Err(AllocError) => false,
    }
}

/// Whether a value is printed as this text by `Display`.
pub fn is_told<T: Display>(alloc: Global, value: &T, text: &str) -> bool {
    match format!(in alloc; "{value}") {
        Ok(told) => told.as_str() == text,
        Err(AllocError) => false,
    }
}
