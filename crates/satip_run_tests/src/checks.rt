//! Asserts the values of rows.

use std::fmt::Debug;
use std::process::Abort;

/// Asserts that a value is the one that the row of this name says.
pub(crate) fn check<T: PartialEq + Debug>(rt: &impl Abort, name: &str, found: &T, wanted: &T) {
    assert_eq!(rt; *found, *wanted, "{name}");
}
