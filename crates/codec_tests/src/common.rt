//! Shared by the tests.
use std::fmt::Debug;
use std::process::Abort;

/// Ends the test and shows what is wrong, unless nothing is. Proved here once, and not again for each call.
pub fn assert_none<T: Debug>(rt: &impl Abort, wrong: &Option<T>) {
    assert!(rt; wrong.is_none(), "{wrong:?}");
}
