//! Helpers of the tests.
use std::fmt::Debug;
use std::process::Abort;

/// Ends the test with `wrong` in its message, if there is one. A function, so that this is proved once and not at each
/// call.
pub fn assert_none<T: Debug>(rt: &impl Abort, wrong: &Option<T>) {
    assert!(rt; wrong.is_none(), "{wrong:?}");
}
