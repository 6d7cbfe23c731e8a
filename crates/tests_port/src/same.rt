//! Helpers of the tests of the crate.

use std::fmt::Debug;
use std::process::Abort;

/// Fails the test if the value found is not the expected one.
pub(crate) fn same<T: Copy + Debug + PartialEq>(rt: &impl Abort, found: T, wanted: T, of: &str) {
    assert_eq!(rt; found, wanted, "of {of}");
}
