//! Shared by the tests.
use std::fmt::Debug;
use std::process::Abort;

/// Ends the test and shows both values, unless what was found is what is wanted. It is `assert_eq!`, proved here once
/// for all types, and not again for each call.
pub fn assert_same<T: Debug + PartialEq>(rt: &impl Abort, found: &T, wanted: &T) {
    assert_eq!(rt; found, wanted);
}
